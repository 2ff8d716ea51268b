//! A marking of script objects in slices: begun, gone on with by one object a step, and ended by the step that finds none left.
//!
//! Between two steps the mutator goes on. A marking goes on as it should (`IsMarkingWell`) from where it begins, and each step
//! keeps it so; what comes between owes it the same, and `markings_stay_well` says when a command keeps it.
#![tactic(auto)]

mod laws;
mod marking;

pub use laws::markings_stay_well;
pub use marking::{MarkStep, Marking};
