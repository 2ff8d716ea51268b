//! Nodes of a graph whose objects were touched since the collection began become black.
#![tactic(auto)]

mod touched;

pub use touched::mark_touched;
