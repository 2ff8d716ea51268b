//! Bytes that were taken from a source and are not yet used.

ghost use Rattle.std.specs.Prelude.{◌≡◌, ◌+◌, ◌≤◌, ◌<◌, ◌↔◌, [], ◌∷◌, length, IfOk, IfSome, IsSome, IsTrue, OnErr, OnOk, Ok, Err, true, false, None};
ghost use Rattle.cc_lists.specs.Faults.{Rose};
ghost use Rattle.cc_reader.specs.HasRead.{ReadsOn};
ghost use Rattle.cc_reader.specs.Pending.{nothing_read, weight};
ghost use Rattle.cc_reader.specs.Used.{IsUsedUp, Refills, Uses};

use crate::read_stop::ReadStop;
use cc_outside::{Failed, Source};
use std::marker::Model;

/// Bytes of a source, read through a buffer up to a limit.
///
/// Of a source that has more bytes than the limit one more is taken, which shows that there is more. It is
/// counted and never used.
#[derive(Drop)]
pub(crate) struct Window {
    buffer: [u8; 4096],
    start: usize,
    end: usize,
    taken: u64,
    limit: u64,
    ended: bool,
}

impl Model for Window {
    ghost use Rattle.std.specs.Prelude.{◌≡◌, ◌+◌, ◌≤◌, ◌<◌, ◌^◌, true, slice_range};
    ghost use Rattle.cc_reader.specs.Pending.{Pending};

    ghost Value = { Pending };

    ghost view = { λ w. record {
      bytes = slice_range w.buffer w.start w.end;
      taken = w.taken;
      limit = w.limit;
      ended = w.ended;
    } };

    ghost invariant = { λ w. (w.start ≤ w.end) × (w.end ≤ 4096) × (w.taken ≤ w.limit + 1) × (w.limit < 2 ^ 32) × (w.ended ≡ true → w.start ≡ w.end) };
}

impl Window {
    /// A window in which nothing was read. `limit` is how many bytes may be used.
    pub(crate) fn new(limit: u32) -> Window
        ensures { result ≡ nothing_read limit }
    {
        Window {
            buffer: [0; 4096],
            start: 0,
            end: 0,
            taken: 0,
            limit: u64::from(limit),
            ended: false,
        }
    }

    /// How many bytes were taken from the source, the one above the limit counted.
    pub(crate) fn taken(&self) -> u64
        ensures { result ≡ self.now.taken }
    {
        self.taken
    }

    /// Whether nothing is pending.
    fn is_empty(&self) -> bool
        ensures { IsTrue result ↔ (self.now.bytes ≡ []) }
    {
        self.start == self.end
    }

    /// Whether nothing is pending and the source is at its end.
    pub(crate) fn is_spent(&self) -> bool
        ensures { IsTrue result ↔ IsUsedUp self.now }
    {
        self.is_empty() && self.ended
    }

    /// Uses the first pending byte.
    fn take_byte(&mut self) -> u8
        requires { 0 < length self.old.bytes }
        ensures byte { self.old.bytes ≡ result ∷ self.new.bytes }
        ensures others { self.new ≡ record self.old { bytes = self.new.bytes } }
    {
        let byte = self.buffer[self.start];
        self.start += 1;
        byte
    }

    /// Reads once, where nothing is pending. False comes at the end of the source.
    fn fill<S: Source>(&mut self, source: &mut S) -> Result<bool, ReadStop>
        requires empty { self.old.bytes ≡ [] }
        requires going { self.old.ended ≡ false }
        requires within { self.old.taken ≤ self.old.limit }
        ensures refilled { Refills (S.left source.old) (S.left source.new) self.old self.new }
        ensures some { result ≡ Ok true → 0 < length self.new.bytes }
        ensures falls { result ≡ Ok true → weight self.new < weight self.old }
        ensures going { result ≡ Ok true → self.new.ended ≡ false }
        ensures end { result ≡ Ok false → IsUsedUp self.new }
        ensures none { OnErr result (self.new.bytes ≡ []) }
        ensures below { result ≡ Err ReadStop.Fault → self.new.taken ≤ self.new.limit }
        ensures over { result ≡ Err ReadStop.Limit → self.new.limit < self.new.taken }
        ensures no_more { weight self.new ≤ weight self.old }
        ensures unended { OnErr result (self.new.ended ≡ false) }
        ensures reads { ReadsOn (S.reads source.old) (S.reads source.new) self.old self.new }
        ensures calm { OnOk result (S.faults source.new ≡ S.faults source.old) }
        ensures fault { result ≡ Err ReadStop.Fault → Rose (S.faults source.old) (S.faults source.new) }
        ensures unfaulted { result ≡ Err ReadStop.Limit → S.faults source.new ≡ S.faults source.old }
    {
        self.start = 0;
        self.end = 0;
        let room = (self.limit + 1 - self.taken).min(4096) as usize;
        match source.read(&mut self.buffer[..room]) {
            Err(Failed) => Err(ReadStop::Fault),
            Ok(count) => {
                self.end = (self.limit - self.taken).min(count as u64) as usize;
                self.taken += count as u64;
                self.ended = count == 0;
                if self.taken > self.limit && self.end == 0 {
                    return Err(ReadStop::Limit);
                }
                Ok(!self.ended)
            }
        }
    }

    /// Whether a byte is pending, after a read where none was. At the end of the source it does not read again.
    ///
    /// `Limit` where the next byte is above the limit.
    fn has_byte<S: Source>(&mut self, source: &mut S) -> Result<bool, ReadStop>
        ensures uses { Uses (S.left source.old) (S.left source.new) self.old self.new [] }
        ensures some { result ≡ Ok true → 0 < length self.new.bytes }
        ensures going { result ≡ Ok true → self.new.ended ≡ false }
        ensures end { result ≡ Ok false → IsUsedUp self.new }
        ensures none { OnErr result (self.new.bytes ≡ []) }
        ensures below { result ≡ Err ReadStop.Fault → self.new.taken ≤ self.new.limit }
        ensures over { result ≡ Err ReadStop.Limit → self.new.limit < self.new.taken }
        ensures no_more { weight self.new ≤ weight self.old }
        ensures limit { self.new.limit ≡ self.old.limit }
        ensures unended { OnErr result (self.new.ended ≡ false) }
        ensures reads { ReadsOn (S.reads source.old) (S.reads source.new) self.old self.new }
        ensures calm { OnOk result (S.faults source.new ≡ S.faults source.old) }
        ensures fault { result ≡ Err ReadStop.Fault → Rose (S.faults source.old) (S.faults source.new) }
        ensures unfaulted { result ≡ Err ReadStop.Limit → S.faults source.new ≡ S.faults source.old }
    {
        if !self.is_empty() {
            return Ok(true);
        }
        if self.ended {
            return Ok(false);
        }
        if self.taken > self.limit {
            return Err(ReadStop::Limit);
        }
        self.fill(source)
    }

    /// Uses the next byte. None comes at the end of the source.
    ///
    /// `Limit` where the next byte is above the limit.
    pub(crate) fn next_byte<S: Source>(&mut self, source: &mut S) -> Result<Option<u8>, ReadStop>
        ensures byte { IfOk result (λ r. IfSome r (λ b. Uses (S.left source.old) (S.left source.new) self.old self.new (b ∷ []))) }
        ensures end { result ≡ Ok None → Uses (S.left source.old) (S.left source.new) self.old self.new [] }
        ensures stop { OnErr result (Uses (S.left source.old) (S.left source.new) self.old self.new []) }
        ensures going { IfOk result (λ r. IsSome r → self.new.ended ≡ false) }
        ensures spent { result ≡ Ok None → IsUsedUp self.new }
        ensures none { OnErr result (self.new.bytes ≡ []) }
        ensures below { result ≡ Err ReadStop.Fault → self.new.taken ≤ self.new.limit }
        ensures over { result ≡ Err ReadStop.Limit → self.new.limit < self.new.taken }
        ensures falls { IfOk result (λ r. IsSome r → weight self.new < weight self.old) }
        ensures no_more { weight self.new ≤ weight self.old }
        ensures limit { self.new.limit ≡ self.old.limit }
        ensures unended { OnErr result (self.new.ended ≡ false) }
        ensures reads { ReadsOn (S.reads source.old) (S.reads source.new) self.old self.new }
        ensures calm { OnOk result (S.faults source.new ≡ S.faults source.old) }
        ensures fault { result ≡ Err ReadStop.Fault → Rose (S.faults source.old) (S.faults source.new) }
        ensures unfaulted { result ≡ Err ReadStop.Limit → S.faults source.new ≡ S.faults source.old }
    {
        if !self.has_byte(source)? {
            return Ok(None);
        }
        Ok(Some(self.take_byte()))
    }
}
