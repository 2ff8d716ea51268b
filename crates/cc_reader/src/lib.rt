//! Lines and commands of bytes.
//!
//! `Lines` reads a source line by line. Its contract speaks of all bytes that were taken: the lines given so
//! far are those of the bytes used so far, and the end, a fault and the limit each say what all lines were.
//! Below it a `Window` holds the bytes that were taken and not yet used. Of a source with more bytes than the
//! limit one byte above it is taken, to know that there is more, and it is never used.
//!
//! `parse` reads a line's command off its tokens: of a line in any form of the grammar of its dialect, `forms_of` of
//! cc_model. Each word of the grammar is one arm in one of five functions of `grammar`, and one small function.
#![tactic(auto)]

mod grammar;
mod lines;
mod read_stop;
mod tokens;
mod window;

pub use grammar::parse;
pub use lines::{Line, Lines};
pub use read_stop::ReadStop;
