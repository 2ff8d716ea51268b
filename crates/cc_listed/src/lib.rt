//! The names that a census lists, in the order in which their objects were last made.
//!
//! Each is there once. It goes last when it comes, and may be taken out; whether it is there is found by its number. A census lists
//! natives first.
//!
//! A name stands at a place, which is empty once the name is taken out: so to come, to go and to be sought takes three steps,
//! however many names there are. Before a census the names close up where there are more than twice as many places, and some:
//! so it costs what it lists, and no more is paid over time than a step for each name that was taken out.
#![tactic(auto)]

mod census;
mod closing;
mod listed;

pub use listed::Listed;
