//! A sink that counts.

ghost use Rattle.std.specs.Prelude.{◌≡◌, length, None, Ok};
ghost use Rattle.cc_outside.specs.Counted.{raised};
ghost use Rattle.cc_outside.specs.Writes.{no_writes, write_more};

use crate::failed::Failed;
use crate::sink::Sink;
use crate::write_counts::WriteCounts;
use std::marker::Model;

/// A sink that counts the bytes and keeps none of them. It never fails, and is seen as its count and the counts of its
/// writes.
#[derive(Drop)]
pub struct CountSink {
    bytes: u64,
    writes: WriteCounts,
}

impl Model for CountSink {
    ghost use Rattle.cc_outside.specs.Writing.{Counting};

    ghost Value = { Counting };

    ghost view = { λ s. record { bytes = s.bytes; writes = s.writes } };
}

impl CountSink {
    /// A sink that has counted nothing.
    pub fn new() -> CountSink
        ensures { result ≡ record { bytes = 0; writes = no_writes } }
    {
        CountSink {
            bytes: 0,
            writes: WriteCounts::new(),
        }
    }

    /// How many bytes were written. A count of 18446744073709551615 stays.
    pub fn bytes(&self) -> u64
        ensures { result ≡ self.now.bytes }
    {
        self.bytes
    }
}

impl Sink for CountSink {
    ghost written = { λ _. None };

    ghost faults = { λ _. 0 };

    ghost writes = { λ s. s.writes };

    /// Takes the piece whole.
    fn write(&mut self, bytes: &[u8]) -> Result<usize, Failed>
        ensures whole { result ≡ Ok (length bytes.now) }
        ensures counted { self.new ≡ record { bytes = raised self.old.bytes (length bytes.now); writes = write_more self.old.writes } }
    {
        self.bytes = self.bytes.saturating_add(bytes.len() as u64);
        self.writes.count_answered();
        Ok(bytes.len())
    }
}
