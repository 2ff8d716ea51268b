//! The end of a collection: its white natives are rooted, unlinked and unrooted.
#![tactic(auto)]

mod ends;

pub use ends::{collect_white, collect_white_counted};
