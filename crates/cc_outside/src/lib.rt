//! Bytes in and out, with counts of faults.
//!
//! A program reads from a `Source` and writes to a `Sink`. Each call moves some bytes or fails, and a call
//! that fails raises a count. A source has given no byte then, and a sink that tells its bytes has taken none;
//! standard output may have handed on a front of the piece, once, since a flush can fail after a write.
//! So whoever is told of a fault can see by the count that there was one, and an answer such as "a read failed"
//! cannot be made up. The reads that are answered are counted too, and those of them that say the end: so a
//! caller can promise how often it reads, and that it reads no more after the end.
//!
//! A source may tell which bytes it has left, and a sink which bytes it was given: those in memory do,
//! standard input and output do not. `BytesSource` and `BytesSink` fail at the calls that they are told to,
//! for tests of what a program does then; `SureSource` and `CountSink` never fail. `ReadCounts` counts the reads of a source
//! that stands in another crate, `WriteCounts` the writes of a sink.
#![tactic(auto)]

mod bytes_sink;
mod bytes_source;
mod count_sink;
mod failed;
mod read_counts;
mod sink;
mod source;
mod standard;
mod supply;
mod sure_source;
mod write_counts;

pub use bytes_sink::BytesSink;
pub use bytes_source::BytesSource;
pub use count_sink::CountSink;
pub use failed::Failed;
pub use read_counts::ReadCounts;
pub use sink::Sink;
pub use source::Source;
pub use standard::{StdSink, StdSource};
pub use sure_source::SureSource;
pub use write_counts::WriteCounts;
