//! Tests of the laws: each can be called.
//!
//! A law is a function with an empty body, and what it states is proved where it stands. No test could fail that the proof
//! passes: the calls show that no law asks for what no caller has. A crate with tests is proved twice, so they stand here,
//! once for all crates of laws.
#![tactic(auto)]

#[cfg(test)]
mod laws;
