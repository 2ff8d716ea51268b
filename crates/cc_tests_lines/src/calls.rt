//! One read and one write, of any source and any sink. Nothing is known of them in a proof: what they answer is looked at.

use cc_outside::{Failed, Sink, Source};

/// What a read gives.
pub fn gives<S: Source>(source: &mut S, buf: &mut [u8]) -> Result<usize, Failed> {
    source.read(buf)
}

/// What a write takes.
pub fn takes<K: Sink>(sink: &mut K, piece: &[u8]) -> Result<usize, Failed> {
    sink.write(piece)
}
