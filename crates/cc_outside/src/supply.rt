//! Bytes that are given out.

ghost use Rattle.std.specs.Prelude.{◌≡◌, ◌++◌, drop, length, min, take};

use std::marker::Model;

/// Bytes in memory that are handed out from the front. It is seen as the bytes that are left.
#[derive(Drop)]
pub(crate) struct Supply {
    bytes: Vec<u8>,
    place: usize,
}

impl Model for Supply {
    ghost use Rattle.std.specs.Prelude.{◌≤◌, List, ℕ, drop, length};

    ghost Value = { List ℕ };

    ghost view = { λ s. drop s.place s.bytes.items };

    ghost invariant = { λ s. s.place ≤ length s.bytes.items };
}

impl Supply {
    /// All of `bytes`.
    pub(crate) fn new(bytes: Vec<u8>) -> Supply
        ensures { result ≡ bytes.items }
    {
        Supply { bytes, place: 0 }
    }

    /// What is left, in order.
    pub(crate) fn left(&self) -> &[u8]
        ensures { result.now ≡ self.now }
    {
        &self.bytes[self.place..]
    }

    /// Moves at most `most` bytes into the front of `buf`, and says how many: as many as there are and fit.
    pub(crate) fn give(&mut self, buf: &mut [u8], most: usize) -> usize
        ensures count { result ≡ min (length buf.old) (min most (length self.old)) }
        ensures filled { buf.new ≡ take result self.old ++ drop result buf.old }
        ensures rest { self.new ≡ drop result self.old }
    {
        let rest = &self.bytes[self.place..];
        let count = buf.len().min(rest.len()).min(most);
        buf[..count].copy_from_slice(&rest[..count]);
        self.place += count;
        count
    }
}
