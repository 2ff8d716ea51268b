//! A source in memory that never fails.

ghost use Rattle.std.specs.Prelude.{◌≡◌, ◌++◌, drop, length, min, take, Some, IfOk, IsOk};
ghost use Rattle.cc_outside.specs.Reads.{no_reads, read_more};

use crate::failed::Failed;
use crate::read_counts::ReadCounts;
use crate::source::Source;
use crate::supply::Supply;
use std::marker::Model;

/// A source in memory that never fails. It is seen as the bytes not yet read and the counts of its reads.
#[derive(Drop)]
pub struct SureSource {
    supply: Supply,
    reads: ReadCounts,
}

impl Model for SureSource {
    ghost use Rattle.cc_outside.specs.Reading.{SureReading};

    ghost Value = { SureReading };

    ghost view = { λ s. record { left = s.supply; reads = s.reads } };
}

impl SureSource {
    /// A source of `bytes`, in order.
    pub fn new(bytes: Vec<u8>) -> SureSource
        ensures { result ≡ record { left = bytes.items; reads = no_reads } }
    {
        SureSource {
            supply: Supply::new(bytes),
            reads: ReadCounts::new(),
        }
    }

    /// The bytes not yet read, in order.
    pub fn left(&self) -> &[u8]
        ensures { result.now ≡ self.now.left }
    {
        self.supply.left()
    }
}

impl Source for SureSource {
    ghost left = { λ s. Some s.left };

    ghost faults = { λ _. 0 };

    ghost reads = { λ s. s.reads };

    /// Gives as many bytes as there are and fit.
    fn read(&mut self, buf: &mut [u8]) -> Result<usize, Failed>
        ensures sure { IsOk result }
        ensures count { IfOk result (λ m. m ≡ min (length buf.old) (length self.old.left)) }
        ensures filled { IfOk result (λ m. buf.new ≡ take m self.old.left ++ drop m buf.old) }
        ensures after { IfOk result (λ m. self.new ≡ record { left = drop m self.old.left; reads = read_more self.old.reads (length buf.new) m }) }
    {
        let room = buf.len();
        let count = self.supply.give(buf, room);
        self.reads.count(room, count);
        Ok(count)
    }
}
