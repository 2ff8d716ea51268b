//! How many reads were answered.

ghost use Rattle.std.specs.Prelude.{◌≡◌};
ghost use Rattle.cc_outside.specs.Reads.{no_reads, read_more};

use std::marker::Model;

/// How many reads were answered, how many of them gave no byte, and how many of those said that the source is at its
/// end. Each count stays at 18446744073709551615.
#[derive(Drop)]
pub struct ReadCounts {
    answered: u64,
    empty: u64,
    ended: u64,
}

impl Model for ReadCounts {
    ghost use Rattle.cc_outside.specs.Reads.{Reads};

    ghost Value = { Reads };

    ghost view = { λ r. record { answered = r.answered; empty = r.empty; ended = r.ended } };
}

impl ReadCounts {
    /// Before the first read.
    pub fn new() -> ReadCounts
        ensures { result ≡ no_reads }
    {
        ReadCounts {
            answered: 0,
            empty: 0,
            ended: 0,
        }
    }

    /// How many reads were answered.
    pub fn answered(&self) -> u64
        ensures { result ≡ self.now.answered }
    {
        self.answered
    }

    /// How many reads said the end.
    pub fn ended(&self) -> u64
        ensures { result ≡ self.now.ended }
    {
        self.ended
    }

    /// Counts a read of `count` bytes into a buffer of `room` bytes: of none into one that is not empty it is the end.
    pub fn count(&mut self, room: usize, count: usize)
        ensures { self.new ≡ read_more self.old room count }
    {
        self.answered = self.answered.saturating_add(1);
        if count == 0 {
            self.empty = self.empty.saturating_add(1);
            if room > 0 {
                self.ended = self.ended.saturating_add(1);
            }
        }
    }
}
