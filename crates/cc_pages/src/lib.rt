//! A table of values by number, in pages.
//!
//! A page has the values of 128 numbers that follow one another, and 64 pages are a group. A page is taken when one of its
//! numbers is first given a value: so a table takes memory for the numbers that it has and for those beside them, and three
//! words for each group before the last that is in use, and for each page before the last of a group. A value is found by
//! three steps, and the numbers that have one are found in order by a walk that looks into pages that were taken and passes
//! over all others.
//!
//! Places by name are three such tables, one for each kind of object.
#![tactic(auto)]

mod by_name;
mod group;
mod page;
mod pages;

pub use by_name::ByName;
pub use pages::Pages;
