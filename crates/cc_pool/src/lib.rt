//! A list of values that stand in blocks.
//!
//! A block has room for a fixed number of values, and never moves once it is taken: what stands in the list of blocks is
//! where each one is. So a list of any length grows by one block and its place in that list, and a value costs one
//! division to find.
#![tactic(auto)]

mod pool;

pub use pool::Pool;
