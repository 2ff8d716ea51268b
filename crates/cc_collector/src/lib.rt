//! Collections over heaps, in slices.
//!
//! A collection finds the natives that nothing reaches, also where they hold each other, and takes them away. It begins
//! with the suspects (`cc_builder`), looks at one object after another, and notes what it holds. What was touched since,
//! and what may be held from elsewhere, is black (`cc_repair`, `cc_scan`), with all that black nodes lead to. The other
//! natives are white: each of them is unlinked, and then freed (`cc_unlink`).
//!
//! The begin, each object and the end are units of work. `slice` does some of them, and commands of the mutator may come
//! before the next ones; `whole` does all of them in a row; `gc` ends what is running, then collects script objects
//! (`cc_gc`). `settle` does all that it takes to leave in the heaps exactly what the registers reach.
//!
//! Who has a collector in a program of its own needs of `specs` what is said of the registers: `Sparing` of `cc_gc`,
//! `TellsWhatLeaves` (`Collected`), and `HasWhatIsReached` (`Settled`).
#![tactic(auto)]

mod between;
mod collector;
mod site;

pub use between::running_collections_go_on;
pub use cc_steps::Steps;
pub use collector::{Collector, Ended};
