//! The source of a made script.

ghost use Rattle.std.specs.Prelude.{◌≡◌, ◌++◌, drop, length, min, take, Some, IfOk, IsOk};
ghost use Rattle.cc_outside.specs.Reads.{no_reads, read_more};
ghost use Rattle.cc_made.specs.Made.{made_script};

use crate::script::Script;
use cc_outside::{Failed, ReadCounts, Source};
use std::marker::Model;

/// A source of a made script, which takes no memory and never fails. It is seen as the bytes not yet read and the counts
/// of its reads.
#[derive(Drop)]
pub struct MadeSource {
    script: Script,
    reads: ReadCounts,
}

impl Model for MadeSource {
    ghost use Rattle.cc_outside.specs.Reading.{SureReading};

    ghost Value = { SureReading };

    ghost view = { λ s. record { left = s.script; reads = s.reads } };
}

impl MadeSource {
    /// The source of the made script of `count` lines and the tail. `seed` says which one.
    pub fn new(seed: u64, count: u32) -> MadeSource
        ensures { result ≡ record { left = made_script seed count; reads = no_reads } }
    {
        MadeSource {
            script: Script::new(seed, count),
            reads: ReadCounts::new(),
        }
    }
}

impl Source for MadeSource {
    ghost left = { λ s. Some s.left };

    ghost faults = { λ _. 0 };

    ghost reads = { λ s. s.reads };

    /// Gives as many bytes as there are and fit.
    fn read(&mut self, buf: &mut [u8]) -> Result<usize, Failed>
        ensures sure { IsOk result }
        ensures count { IfOk result (λ m. m ≡ min (length buf.old) (length self.old.left)) }
        ensures filled { IfOk result (λ m. buf.new ≡ take m self.old.left ++ drop m buf.old) }
        ensures after { IfOk result (λ m. self.new ≡ record { left = drop m self.old.left; reads = read_more self.old.reads (length buf.new) m }) }
    {
        let count = self.script.give(buf);
        self.reads.count(buf.len(), count);
        Ok(count)
    }
}
