//! Laws of the snapshot: it is fresh from begin to end, what is white in it is unreached, and every unreached native is
//! suspected or reached from a candidate.
//!
//! Each function has an empty body and is a law that its clauses state, over the definitions of `cc_model`, over heaps
//! that are sound (`Sound` of `cc_laws_heap`), and over a few words of this crate's own. Of `specs` a reader of the main
//! laws needs `Black` (what is black in a snapshot, by rules). `Gentle` and `Losing` say which changes keep a snapshot
//! fresh and forget no native; `Kinds` and `KindsSuspected` have the words of the laws of each kind of change.
#![tactic(auto)]

mod changes;
mod ends;
mod kinds;
mod suspected;
mod units;
mod white;

pub use changes::{commands_keep_fresh, gentle_changes_keep_fresh};
pub use ends::{ends_keep_reached, ends_take_white};
pub use kinds::{
    kinds_of_change_keep_fresh, kinds_of_change_keep_suspected, waiting_asks_less,
    waiting_keeps_suspected,
};
pub use suspected::{
    collections_keep_suspected, commands_keep_suspected, forgetting_keeps_suspected,
    loyal_changes_keep_suspected,
};
pub use units::{begin_is_fresh, units_keep_fresh};
pub use white::{black_is_least, white_is_unreached};
