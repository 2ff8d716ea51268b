//! Laws of what collections tell: no more than each object once that leaves, each native once for each collection that
//! unlinks it, and that a collection was given up. So whoever is told can take the room for it before.
//!
//! And laws of what lasts: whatever collections do, no native that has ended comes back, and what is freed is freed once.
//!
//! Each function has an empty body and is a law that its clauses state, over the definitions of `cc_model`, over `IsSound` of
//! `cc_laws_heap`, over `IsMarkingNow` of `cc_laws_run`, and over `specs/Told.antt` and `specs/Lasting.antt`.
#![tactic(auto)]

mod ended;
mod told;

pub use ended::collections_bring_nothing_back;
pub use told::collections_tell_few;
