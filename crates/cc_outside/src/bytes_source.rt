//! A source in memory.

ghost use Rattle.std.specs.Prelude.{◌≡◌, ◌↔◌, ◌<◌, ◌≤◌, [], length, min, Some, IfOk, IsErr};
ghost use Rattle.std.specs.List.{Contains};
ghost use Rattle.cc_outside.specs.Counted.{raised};
ghost use Rattle.cc_outside.specs.Reading.{after_read, filled};
ghost use Rattle.cc_outside.specs.Reads.{no_reads};

use crate::failed::Failed;
use crate::read_counts::ReadCounts;
use crate::source::Source;
use crate::supply::Supply;
use std::marker::Model;

/// A source in memory that gives its bytes in small pieces and fails at chosen reads.
#[derive(Drop)]
pub struct BytesSource {
    supply: Supply,
    most: usize,
    fails: Vec<u64>,
    calls: u64,
    faults: u64,
    reads: ReadCounts,
}

impl Model for BytesSource {
    ghost use Rattle.std.specs.Prelude.{◌≤◌};
    ghost use Rattle.cc_outside.specs.Reading.{Reading};

    ghost Value = { Reading };

    ghost view = { λ s. record { left = s.supply; most = s.most; fails = s.fails.items; calls = s.calls; faults = s.faults; reads = s.reads } };

    ghost invariant = { λ s. 1 ≤ s.most };
}

impl BytesSource {
    /// A source of `bytes`, in order. A read gives at most `most` bytes, at least 1, and the reads whose numbers,
    /// counted from 1, are in `fails` fail. The order in `fails` does not matter.
    pub fn new(bytes: Vec<u8>, fails: Vec<u64>, most: usize) -> BytesSource
        requires { 1 ≤ most }
        ensures { result ≡ record { left = bytes.items; most = most; fails = fails.items; calls = 0; faults = 0; reads = no_reads } }
    {
        BytesSource {
            supply: Supply::new(bytes),
            most,
            fails,
            calls: 0,
            faults: 0,
            reads: ReadCounts::new(),
        }
    }

    /// The bytes not yet read, in order.
    pub fn left(&self) -> &[u8]
        ensures { result.now ≡ self.now.left }
    {
        self.supply.left()
    }

    /// How many reads failed, at most 18446744073709551615.
    pub fn faults(&self) -> u64
        ensures { result ≡ self.now.faults }
    {
        self.faults
    }

    /// How many reads were answered, at most 18446744073709551615.
    pub fn answered(&self) -> u64
        ensures { result ≡ self.now.reads.answered }
    {
        self.reads.answered()
    }

    /// How many reads said that the source is at its end, at most 18446744073709551615.
    pub fn ended(&self) -> u64
        ensures { result ≡ self.now.reads.ended }
    {
        self.reads.ended()
    }
}

impl Source for BytesSource {
    ghost left = { λ s. Some s.left };

    ghost faults = { λ s. s.faults };

    ghost reads = { λ s. s.reads };

    /// Fails where this read's number is in the list, and else gives as many bytes as there are, fit and are allowed.
    fn read(&mut self, buf: &mut [u8]) -> Result<usize, Failed>
        ensures fails { IsErr result ↔ Contains self.old.fails (raised self.old.calls 1) }
        ensures count { IfOk result (λ m. m ≡ min (length buf.old) (min self.old.most (length self.old.left))) }
        ensures end { IfOk result (λ m. m ≡ 0 → 0 < length buf.new → self.new.left ≡ []) }
        ensures filled { buf.new ≡ filled self.old.left buf.old result }
        ensures after { self.new ≡ after_read self.old (length buf.new) result }
    {
        self.calls = self.calls.saturating_add(1);
        if self.fails.contains(&self.calls) {
            return Err(Failed::counted(&mut self.faults));
        }
        let count = self.supply.give(buf, self.most);
        self.reads.count(buf.len(), count);
        Ok(count)
    }
}
