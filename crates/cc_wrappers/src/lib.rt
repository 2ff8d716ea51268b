//! Reflectors over the heaps: for each native that script sees, one script object that stands for it.
//!
//! A native that is wrapped gets a reflector, which owns one reference to it; wrapped again it gives the same one, as
//! long as that is there. A reflector that is preserved is held by its native in turn, so that what script put into it is
//! not lost; one that is not is blank, so that it may be swept, and made again.
#![tactic(auto)]

mod wrapping;

pub use wrapping::{preserve, unwrap_of, wrap};
