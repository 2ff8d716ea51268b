//! The object graph: what a script made, from which nothing is ever taken out.
//!
//! An object keeps its slots for good, and nothing of it is counted, coloured or freed. A command is refused or answered as the
//! definition says (`step`), by what its registers and slots hold. For those who walk the graph it is known up to which register each
//! bank was ever written, and there are the places of an object, and an index from an object to the entries of weak maps of which it
//! is a member.
#![tactic(auto)]

mod bank;
mod entries;
mod keys;
mod made_native;
mod made_script;
mod natives;
mod numbered;
mod object_graph;
mod rows;
mod scripts;
mod slots;

pub use object_graph::ObjectGraph;
