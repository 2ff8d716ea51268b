//! All that registers reach, and how: the search, written once over whatever holds objects.
//!
//! From the registers on, each object that is reached is found once: first what the registers hold, then from one object after
//! another what its places hold, and what the entries give of which it is the map, the key or the key's delegate. Each is kept with
//! the reason for which it was found. This is the derivation by which `why` is answered (`derivation` of cc_model), and its names
//! are exactly those that are reached. A search for one object ends where this one is found.
//!
//! What is searched is read through the trait `Leads`. A search takes time and memory in step with what it finds and with the
//! registers that may hold something, whatever else there is.
#![tactic(auto)]

mod bank;
mod found;
mod leads;
mod needed;
mod reach;
mod search;

pub use bank::Bank;
pub use leads::Leads;
pub use reach::Reach;
