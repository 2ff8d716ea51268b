//! A collection's snapshot while it is built, in the graph that holds it.
//!
//! `Build::begin` makes the suspects, the natives that hold a gray script object and the gray members of entries that give
//! something gray the first nodes, notes these entries as mappings, and empties the buffer. Each `step` traverses one node, until none
//! is left. Then `finish` gives the graph; or `abandon` gives the build up, and its candidates are suspects again.
//! `begin_in` begins in the room of an earlier graph, which was emptied.
#![tactic(auto)]

mod build;

pub use build::{Build, Step};
