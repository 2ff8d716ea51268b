//! A run of the program, of which nothing is known in a proof: what is written is looked at.

use cc_outside::{Sink, Source};
use cc_replay::{Status, run};
use std::alloc::Global;

/// The status of `run`.
pub fn status_of_run<'a, S: Source, K: Sink>(
    alloc: Global,
    words: &'a [&'a str],
    source: &mut S,
    sink: &mut K,
) -> Status {
    run(alloc, words, source, sink)
}
