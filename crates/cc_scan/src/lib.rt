//! The scan of a graph: what may be held from outside it becomes black, and all that black nodes lead to, by references and
//! by mappings.
#![tactic(auto)]

mod scanning;

pub use scanning::scan;
