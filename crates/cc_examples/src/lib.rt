//! Tests across crates: what `cc_replay` writes for whole scripts.
//!
//! The worked examples stand in one table, `examples/worked.txt`, with the answers of the rules and not of the program;
//! `worked.rt` and its parts are made of it. Faults of reading and writing are in `cc_tests_edges`, deep and long scripts in
//! `cc_tests_shapes`.
#![tactic(auto)]

#[cfg(test)]
mod script;
#[cfg(test)]
mod worked;
