//! The collector as a library: the lines that the README shows, and the listener of the page on embedding, as tests.
#![tactic(auto)]

#[cfg(test)]
mod library;
#[cfg(test)]
mod listener;
