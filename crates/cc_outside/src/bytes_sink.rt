//! A sink in memory.

ghost use Rattle.std.specs.Prelude.{◌≡◌, ◌+◌, ◌++◌, ◌<◌, ◌≤◌, ◌↔◌, ◌⊎◌, [], length, min, vec_capacity, vec_len, Some, IfOk, IsErr, IsOk};
ghost use Rattle.std.specs.List.{Contains};
ghost use Rattle.cc_outside.specs.Counted.{raised};
ghost use Rattle.cc_outside.specs.Writes.{no_writes};
ghost use Rattle.cc_outside.specs.Writing.{after_write};

use crate::failed::Failed;
use crate::sink::Sink;
use crate::write_counts::WriteCounts;
use cc_names::NoMemory;
use std::alloc::Global;
use std::marker::Model;

/// A sink in memory with the room that it is made with, which takes a piece in parts and fails at chosen writes.
///
/// It holds as much memory as its room, no more, from the first to the last.
#[derive(Drop)]
pub struct BytesSink {
    bytes: Vec<u8>,
    room: usize,
    most: usize,
    fails: Vec<u64>,
    calls: u64,
    faults: u64,
    writes: WriteCounts,
}

impl Model for BytesSink {
    ghost use Rattle.std.specs.Prelude.{◌≡◌, ◌≤◌, length, vec_capacity};
    ghost use Rattle.cc_outside.specs.Writing.{Writing};

    ghost Value = { Writing };

    ghost view = { λ s. record { written = s.bytes.items; room = s.room; most = s.most; fails = s.fails.items; calls = s.calls; faults = s.faults; writes = s.writes } };

    ghost invariant = { λ s. (length s.bytes.items ≤ s.room) × (s.room ≡ vec_capacity s.bytes) × (1 ≤ s.most) };
}

impl BytesSink {
    /// An empty sink with room for `room` bytes in all, taken at once, which takes each piece whole. The writes whose
    /// numbers, counted from 1, are in `fails` fail. The order in `fails` does not matter.
    ///
    /// `NoMemory` where the room is not to be had.
    pub fn new(alloc: Global, room: usize, fails: Vec<u64>) -> Result<BytesSink, NoMemory>
        ensures made { IfOk result
            (λ s. s ≡ record { written = []; room = room; most = usize.MAX; fails = fails.items; calls = 0; faults = 0; writes = no_writes }) }
        ensures nothing_taken { room ≡ 0 → IsOk result }
    {
        BytesSink::with_most(alloc, room, fails, usize::MAX)
    }

    /// The same, but a write takes at most `most` bytes of its piece, at least 1.
    pub fn with_most(
        alloc: Global,
        room: usize,
        fails: Vec<u64>,
        most: usize,
    ) -> Result<BytesSink, NoMemory>
        requires { 1 ≤ most }
        ensures made { IfOk result
            (λ s. s ≡ record { written = []; room = room; most = most; fails = fails.items; calls = 0; faults = 0; writes = no_writes }) }
        ensures nothing_taken { room ≡ 0 → IsOk result }
    {
        Ok(BytesSink {
            bytes: Vec::with_capacity(alloc, room)?,
            room,
            most,
            fails,
            calls: 0,
            faults: 0,
            writes: WriteCounts::new(),
        })
    }

    /// The bytes written so far, in order.
    pub fn written(&self) -> &[u8]
        ensures { result.now ≡ self.now.written }
    {
        self.bytes.as_slice()
    }

    /// How many writes failed, at most 18446744073709551615.
    pub fn faults(&self) -> u64
        ensures { result ≡ self.now.faults }
    {
        self.faults
    }

    /// How many writes were answered, at most 18446744073709551615.
    pub fn answered(&self) -> u64
        ensures { result ≡ self.now.writes.answered }
    {
        self.writes.answered()
    }

    /// Whether the last write failed; not so before the first.
    pub fn last_failed(&self) -> bool
        ensures { result ≡ self.now.writes.last_failed }
    {
        self.writes.last_failed()
    }
}

impl Sink for BytesSink {
    ghost written = { λ s. Some s.written };

    ghost faults = { λ s. s.faults };

    ghost writes = { λ s. s.writes };

    /// Fails where this write's number is in the list or what it would take does not fit, and else takes as much of the
    /// piece as is allowed.
    fn write(&mut self, bytes: &[u8]) -> Result<usize, Failed>
        ensures fails { IsErr result ↔
            (Contains self.old.fails (raised self.old.calls 1) ⊎ (self.old.room < length self.old.written + min (length bytes.now) self.old.most)) }
        ensures count { IfOk result (λ m. m ≡ min (length bytes.now) self.old.most) }
        ensures more { IfOk result (λ m. 0 < length bytes.now → 0 < m) }
        ensures after { self.new ≡ after_write self.old bytes.now result }
    {
        self.calls = self.calls.saturating_add(1);
        let count = bytes.len().min(self.most);
        if self.fails.contains(&self.calls) || self.room - self.bytes.len() < count {
            self.writes.note_failed();
            return Err(Failed::counted(&mut self.faults));
        }
        self.writes.count_answered();
        append_in_place(&mut self.bytes, &bytes[..count]);
        Ok(count)
    }
}

/// Writes the part behind the bytes, into memory that is there.
fn append_in_place(bytes: &mut Vec<u8>, part: &[u8])
    requires { vec_len bytes.old + length part.now ≤ vec_capacity bytes.old }
    ensures items { bytes.new.items ≡ bytes.old.items ++ part.now }
    ensures capacity { vec_capacity bytes.new ≡ vec_capacity bytes.old }
{
    for byte in part {
        bytes.push_reserved(*byte);
    }
}
