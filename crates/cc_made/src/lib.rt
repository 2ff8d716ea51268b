//! A made script as a source.
//!
//! A seed and a count of lines decide a script: each line is drawn from a generator of words, by a table of forms, and a
//! tail of twenty lines lets everything go. The scripts need no memory, however long they are, since one line is made at a
//! time. The words of the generator are those of PCG's reference code, so anybody can make the same script.
#![tactic(auto)]

mod form;
mod laws;
mod line;
mod made_source;
mod operand;
mod script;

pub use laws::{
    known_scripts_are_made, made_scripts_are_cut_into_their_lines, made_scripts_ask_commands,
    made_scripts_leave_nothing,
};
pub use made_source::MadeSource;
