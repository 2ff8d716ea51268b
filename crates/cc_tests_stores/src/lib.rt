//! Tests of the small stores, of names and of a native: each call once, and over the borders of their pages and blocks.
//!
//! A crate with tests is proved twice, so they stand here, once for all of these crates.
#![tactic(auto)]

#[cfg(test)]
mod counted;
#[cfg(test)]
mod holders;
#[cfg(test)]
mod listed;
#[cfg(test)]
mod made;
#[cfg(test)]
mod marking;
#[cfg(test)]
mod names;
#[cfg(test)]
mod pages;
#[cfg(test)]
mod pool;
#[cfg(test)]
mod scripts;
#[cfg(test)]
mod weakmaps;
