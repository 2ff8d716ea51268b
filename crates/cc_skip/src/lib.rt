//! Suspects that can be skipped are forgotten: what the registers reach is alive, and a collection need not look at it.
//!
//! A walk over both heaps (`walk_add`, `walk_next` of the heaps) begins at what the registers hold and goes on over the places of
//! each object that it gives. Entries of weak maps are left aside: what is alive by them alone stays a suspect. A native that the
//! walk gives loses the purple mark. It keeps its place in the buffer, so a collection that runs still sees that it was touched.
//!
//! Nothing recurses, and no memory is taken.
#![tactic(auto)]

mod forgetting;
mod walking;

pub use forgetting::forget;
