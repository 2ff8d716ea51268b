//! Tests of chains, of sets for a walk, of the buffer of suspects and of the counter of steps.
//!
//! These stand over traits and type parameters, which are given concrete types here: a store in a vector for a chain, for a
//! set and for a buffer, and a ledger for the counter.
#![tactic(auto)]

#[cfg(test)]
mod chain;
#[cfg(test)]
mod purple;
#[cfg(test)]
mod steps;
#[cfg(test)]
mod walk;
