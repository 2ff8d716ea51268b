//! Laws of a script marking in slices that stand on those of the heaps and of the snapshot: what its end frees and what it
//! forgets, and in which order its lists stand.
//!
//! Each function has an empty body and is a law that its clauses state, over the definitions of `cc_model`, over heaps that
//! are sound (`Sound` of `cc_laws_heap`), and over what a marking keeps to (`UnderMarking` there). Of `specs` a reader of the
//! main law, `markings_free_what_was_white`, needs `Between`, which says what may come between a begin and an end;
//! `Unmarkable` and `Lists` have the words of the laws of single steps.
#![tactic(auto)]

mod between;
mod freed;
mod lists;
mod suspected;

pub use between::{markings_free_what_was_white, other_commands_keep_marking};
pub use freed::{commands_keep_unmarkable, markings_free_what_was_not_marked};
pub use lists::{markings_keep_order, markings_scan_few};
pub use suspected::markings_keep_suspected;
