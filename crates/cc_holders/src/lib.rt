//! A table of keys by number, in pages, with a count for each. A number is marked as long as its count is above zero.
//!
//! A page has the keys of 32 numbers that follow one another, and 128 pages are a group. A page is taken when the first of its
//! numbers is added, and given back when the last one goes. It counts its marked numbers, and a group its pages that have
//! one: so a walk over the marked numbers passes a page without any at one look, and a group without any too. What is kept
//! for good is five words for each page before the last of a group that was ever in use, and four for each such group.
#![tactic(auto)]

mod entry;
mod group;
mod holders;
mod page;
mod table;

pub use entry::Entry;
pub use holders::Holders;
