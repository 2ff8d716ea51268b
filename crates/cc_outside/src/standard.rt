//! Standard input and output, and any other reader and writer.

ghost use Rattle.std.specs.Prelude.{◌≡◌, ◌<◌, ◌≤◌, ℕ, length, take, IfOk, IfSome, OnErr, None};
ghost use Rattle.std.specs.Io.{ReadsAtMost, WritesAtMost};
ghost use Rattle.std.specs.Io.KnownBytes.{Appends, ReadConsumes};
ghost use Rattle.cc_outside.specs.Counted.{faults_after};
ghost use Rattle.cc_outside.specs.Reads.{no_reads, reads_after};
ghost use Rattle.cc_outside.specs.Writes.{no_writes, writes_after};

use crate::failed::Failed;
use crate::read_counts::ReadCounts;
use crate::sink::Sink;
use crate::source::Source;
use crate::write_counts::WriteCounts;
use std::io::{Read, Stdin, Stdout, Write};
use std::marker::Model;

/// A source over a reader, standard input if no other is named. It is seen as the reader, its count of faults and the
/// counts of its reads.
///
/// It tells the bytes that the reader tells: of standard input none.
#[derive(Drop)]
pub struct StdSource<R = Stdin> {
    input: R,
    faults: u64,
    reads: ReadCounts,
}

impl<R> Model for StdSource<R> {
    ghost use Rattle.cc_outside.specs.Over.{Reader};

    ghost Value = { Reader R };

    ghost view = { λ s. record { stream = s.input; faults = s.faults; reads = s.reads } };
}

impl<R: Read> StdSource<R> {
    /// A source over `input`, with no faults so far.
    pub fn new(input: R) -> StdSource<R>
        ensures { result ≡ record { stream = input; faults = 0; reads = no_reads } }
    {
        StdSource {
            input,
            faults: 0,
            reads: ReadCounts::new(),
        }
    }

    /// How many reads failed. A count of 18446744073709551615 stays.
    pub fn faults(&self) -> u64
        ensures { result ≡ self.now.faults }
    {
        self.faults
    }
}

impl<R: Read> Source for StdSource<R> {
    ghost left = { λ s. R.remaining s.stream };

    ghost faults = { λ s. s.faults };

    ghost reads = { λ s. s.reads };

    /// Reads once, with no buffer of its own. An interrupted read counts as failed. A read that failed has taken no byte
    /// of those that the reader tells.
    fn read(&mut self, buf: &mut [u8]) -> Result<usize, Failed>
        ensures bound { ReadsAtMost result buf.new }
        ensures bytes { ReadConsumes (R.remaining self.old.stream) (R.remaining self.new.stream) result buf.new }
        ensures faults { self.new.faults ≡ faults_after self.old.faults result }
        ensures reads { self.new.reads ≡ reads_after self.old.reads (length buf.new) result }
    {
        match self.input.read(buf) {
            Ok(count) => {
                self.reads.count(buf.len(), count);
                Ok(count)
            }
            Err(_) => Err(Failed::counted(&mut self.faults)),
        }
    }
}

/// A sink over a writer, standard output if no other is named. It is seen as the writer, its count of faults and the
/// counts of its writes.
///
/// It does not tell its bytes: where a write is taken and the flush fails, no one knows how many went on. At most a front
/// of the piece was handed to the writer then, once.
#[derive(Drop)]
pub struct StdSink<W = Stdout> {
    output: W,
    faults: u64,
    writes: WriteCounts,
}

impl<W> Model for StdSink<W> {
    ghost use Rattle.cc_outside.specs.Over.{Writer};

    ghost Value = { Writer W };

    ghost view = { λ s. record { stream = s.output; faults = s.faults; writes = s.writes } };
}

impl<W: Write> StdSink<W> {
    /// A sink over `output`, with no faults so far.
    pub fn new(output: W) -> StdSink<W>
        ensures { result ≡ record { stream = output; faults = 0; writes = no_writes } }
    {
        StdSink {
            output,
            faults: 0,
            writes: WriteCounts::new(),
        }
    }

    /// How many writes failed. A count of 18446744073709551615 stays.
    pub fn faults(&self) -> u64
        ensures { result ≡ self.now.faults }
    {
        self.faults
    }
}

impl<W: Write> Sink for StdSink<W> {
    ghost written = { λ _. None };

    ghost faults = { λ s. s.faults };

    ghost writes = { λ s. s.writes };

    /// Writes once and flushes. An interrupted write counts as failed, and so does one that takes nothing of a piece.
    fn write(&mut self, bytes: &[u8]) -> Result<usize, Failed>
        ensures bound { WritesAtMost result bytes.now }
        ensures more { IfOk result (λ m. 0 < length bytes.now → 0 < m) }
        ensures bytes { IfOk result (λ m. Appends (W.contents self.old.stream) (W.contents self.new.stream) (take m bytes.now)) }
        ensures writes { self.new.writes ≡ writes_after self.old.writes result }
        ensures part { OnErr result ((n : ℕ) × Appends (W.contents self.old.stream) (W.contents self.new.stream) (take n bytes.now)) }
        ensures faults { self.new.faults ≡ faults_after self.old.faults result }
    {
        match hand_over(&mut self.output, bytes) {
            Some(count) => {
                self.writes.count_answered();
                Ok(count)
            }
            None => {
                self.writes.note_failed();
                Err(Failed::counted(&mut self.faults))
            }
        }
    }
}

/// Hands a front of the piece to the writer, once, flushes, and says how many bytes it was; `None` where the writer fails
/// or takes nothing of a piece.
fn hand_over<W: Write>(output: &mut W, bytes: &[u8]) -> Option<usize>
    ensures bound { IfSome result (λ m. m ≤ length bytes.now) }
    ensures more { IfSome result (λ m. 0 < length bytes.now → 0 < m) }
    ensures bytes { IfSome result (λ m. Appends (W.contents output.old) (W.contents output.new) (take m bytes.now)) }
    ensures part { result ≡ None → (n : ℕ) × Appends (W.contents output.old) (W.contents output.new) (take n bytes.now) }
{
    let count = output.write(bytes).ok()?;
    let took_some = count > 0 || bytes.is_empty();
    if took_some && output.flush().is_ok() {
        return Some(count);
    }
    None
}
