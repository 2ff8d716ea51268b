//! Laws of the plain run: its transcript is lawful and quiet, no ask forgets an unreached native, and a collection after
//! `gc` misses nothing.
//!
//! Each function has an empty body and is a law that its clauses state, over the definitions of `cc_model`, over
//! `IsSound` of `cc_laws_heap`, and over words of this crate's own, which a reader has to read too:
//!
//! - `specs/Running.antt`: a machine that runs beside a graph (`IsRunning`), for almost every law;
//! - `specs/Memory.antt`: what memory answers, for `runs_compose` alone;
//! - `specs/GivenUp.antt`: what a collection that was refused memory leaves (`IsGivenUp`), for
//!   `refused_collections_are_given_up` alone;
//! - `specs/Doomed.antt`: no unreached native is forgotten (`IsSuspectedNow`), and names that a collection can't miss
//!   (`IsDoomedNow`);
//! - `specs/Followed.antt`: one collection followed through asks (`first_collection`);
//! - `specs/Returning.antt`: what a weak reference may have brought back (`MayBeBack`), for laws of a collection after `gc`;
//! - `specs/Missing.antt`: what a collection after `gc` unlinks (`lost`, `MissesNone`, `MissesNothing`);
//! - `specs/Spent.antt`: what it has unlinked (`IsSpent`), for `unlinked_are_gone_after_gc` alone;
//! - `specs/UnitsTaken.antt`: how many units a collection has taken (`units_taken`), for `collections_take_a_unit_a_node`
//!   alone;
//! - `specs/Whites.antt`: what was white when a marking began, for `runs_free_what_was_white` alone;
//! - `specs/Premises.antt`: what a script leaves (`IsLeftByAScript`), for the laws that say that premises can be met.
#![tactic(auto)]

mod collections;
mod doomed;
mod memory;
mod misses;
mod plain_run;
mod premises;
mod quiet;
mod runs;
mod spent;
mod turns;
mod units;
mod whites;

pub use collections::collections_are_lawful;
pub use doomed::commands_keep_doomed;
pub use memory::{memory_decides_nothing_else, refused_collections_are_given_up, runs_compose};
pub use misses::collections_after_gc_miss_nothing;
pub use plain_run::{asks_keep_suspected, plain_run_is_lawful};
pub use premises::{freshness_can_be_met, suspicion_can_be_met};
pub use quiet::{garbage_is_doomed, gc_collect_gc_is_quiet};
pub use runs::{ended_stay_unreached, runs_after_gc_miss_nothing, runs_forget_nothing, runs_go_on};
pub use spent::unlinked_are_gone_after_gc;
pub use turns::commands_are_lawful;
pub use units::collections_take_a_unit_a_node;
pub use whites::runs_free_what_was_white;
