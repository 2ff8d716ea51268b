//! Tests of bytes in and out, of lines that come in pieces, and of receivers of items: what no clause says of `cc_outside`,
//! `cc_reader` and `cc_model`.
//!
//! A crate with tests is proved twice, so they stand here and not in those crates.
#![tactic(auto)]

#[cfg(test)]
mod calls;
#[cfg(test)]
mod memory;
#[cfg(test)]
mod reading;
#[cfg(test)]
mod receivers;
#[cfg(test)]
mod standard;
