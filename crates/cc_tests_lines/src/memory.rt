//! A sink in memory that finds no room, and the texts of an error, of which no clause speaks.
//!
//! What else sources and sinks in memory do is tried where faults are (`cc_tests_edges`).

use crate::calls::takes;
use cc_outside::{BytesSink, CountSink, Failed};
use std::alloc::Global;

#[test]
fn an_error_has_its_texts(rt: HostRuntime) {
    let text = format!(in rt.alloc(); "{} {:?}", Failed, Failed).expect(&rt, "memory");
    assert!(rt; text.as_str() == "a read or a write failed Failed");
}

/// Whether a sink with so much room is made.
fn is_made(alloc: Global, room: usize) -> bool {
    BytesSink::new(alloc, room, Vec::new(alloc)).is_ok()
}

#[test]
fn a_sink_whose_room_is_not_to_be_had_is_not_made(rt: HostRuntime) {
    assert!(rt; is_made(rt.alloc(), 9) & !is_made(rt.alloc(), usize::MAX));
}

/// Whether a sink that counts takes so many bytes.
fn counts(piece: &[u8]) -> bool {
    let mut sink = CountSink::new();
    (takes(&mut sink, piece) == Ok(piece.len())) & (sink.bytes() == piece.len() as u64)
}

#[test]
fn a_sink_that_counts_takes_all(rt: HostRuntime) {
    assert!(rt; counts(b"hello"));
}
