//! How many writes were answered.

ghost use Rattle.std.specs.Prelude.{◌≡◌, true};
ghost use Rattle.cc_outside.specs.Writes.{no_writes, write_more};

use std::marker::Model;

/// How many writes were answered, at most 18446744073709551615, and whether the last one failed.
#[derive(Drop)]
pub struct WriteCounts {
    answered: u64,
    last_failed: bool,
}

impl Model for WriteCounts {
    ghost use Rattle.cc_outside.specs.Writes.{Writes};

    ghost Value = { Writes };

    ghost view = { λ w. record { answered = w.answered; last_failed = w.last_failed } };
}

impl WriteCounts {
    /// Before the first write.
    pub fn new() -> WriteCounts
        ensures { result ≡ no_writes }
    {
        WriteCounts {
            answered: 0,
            last_failed: false,
        }
    }

    /// How many writes were answered.
    pub fn answered(&self) -> u64
        ensures { result ≡ self.now.answered }
    {
        self.answered
    }

    /// Whether the last write failed; not so before the first.
    pub fn last_failed(&self) -> bool
        ensures { result ≡ self.now.last_failed }
    {
        self.last_failed
    }

    /// Counts a write that was answered.
    pub fn count_answered(&mut self)
        ensures { self.new ≡ write_more self.old }
    {
        self.answered = self.answered.saturating_add(1);
        self.last_failed = false;
    }

    /// Notes that a write failed.
    pub fn note_failed(&mut self)
        ensures { self.new ≡ record self.old { last_failed = true } }
    {
        self.last_failed = true;
    }
}
