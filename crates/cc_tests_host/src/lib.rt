//! Tests of a host's calls: what no clause says of them.
//!
//! No clause says that memory is there, so each public call of `cc_host` that takes some is made where it can go well. A crate with
//! tests is proved twice, so they stand here and not in that crate.
#![tactic(auto)]

#[cfg(test)]
mod calls;
#[cfg(test)]
mod host;
