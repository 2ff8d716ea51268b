//! Script marking: the colours that two lists of roots give to the script objects.
//!
//! What a mark from the first roots comes to over slots becomes black: the registers give them. What one from the second
//! roots comes to, and is not black, becomes gray: natives give them. A mark goes from a proxy to its delegate as over
//! a slot. It goes over the entries of weak maps too: an entry has the lesser mark of its map and its key, and its value has at
//! least that; and where its key is a proxy, the key has at least the lesser mark of the map and the key's delegate. So an entry
//! keeps its value while both live, and never keeps its own key but by the key's delegate. All else is white, and is swept.
//!
//! Marks that are there already, and were carried over slots and to delegates alone, are carried on over entries by `mark_on`.
#![tactic(auto)]

mod marking;
mod roots;

pub use marking::{mark, mark_on};
pub use roots::Roots;
