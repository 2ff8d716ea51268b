//! A script collection: rounds of marking and sweeping, until one sweeps nothing.
#![tactic(auto)]

mod rounds;

pub use rounds::collect_scripts;
