//! Each line is answered whole before the source is read again.

ghost use Rattle.std.specs.Prelude.{None};

use crate::runs::status_of_run;
use cc_outside::{Failed, ReadCounts, Sink, Source, WriteCounts};
use cc_replay::Status;
use std::cell::Cell;
use std::process::Abort;

/// What was called so far, in order: a digit 1 for each read, a digit 2 for each write, the first call in front.
type Log = Cell<u64>;

/// Notes one call more.
fn note(log: &Log, call: u64) {
    log.set(log.get().saturating_mul(10).saturating_add(call));
}

/// A source that gives one line at a read.
#[derive(Drop)]
struct Speaker<'a> {
    lines: &'a [&'a [u8]],
    given: usize,
    reads: ReadCounts,
    log: &'a Log,
}

impl Source for Speaker<'_> {
    ghost left = { λ _. None };

    ghost faults = { λ _. 0 };

    ghost reads = { λ s. s.reads };

    fn read(&mut self, buf: &mut [u8]) -> Result<usize, Failed> {
        note(self.log, 1);
        let line = match self.lines.get(self.given) {
            Some(line) => *line,
            None => b"".as_slice(),
        };
        let count = line.len().min(buf.len());
        buf[..count].copy_from_slice(&line[..count]);
        self.given = self.given.saturating_add(1);
        self.reads.count(buf.len(), count);
        Ok(count)
    }
}

/// A sink that takes all and keeps nothing.
#[derive(Drop)]
struct Listener<'a> {
    writes: WriteCounts,
    log: &'a Log,
}

impl Sink for Listener<'_> {
    ghost written = { λ _. None };

    ghost faults = { λ _. 0 };

    ghost writes = { λ s. s.writes };

    fn write(&mut self, bytes: &[u8]) -> Result<usize, Failed> {
        note(self.log, 2);
        self.writes.count_answered();
        Ok(bytes.len())
    }
}

/// The calls of a run on some lines: of the source, which gives one line at a read, and of the sink.
fn calls_on(rt: &(impl Abort + AllocGlobal), lines: &[&[u8]]) -> u64 {
    let log = Cell::new(0);
    let mut source = Speaker {
        lines,
        given: 0,
        reads: ReadCounts::new(),
        log: &log,
    };
    let mut sink = Listener {
        writes: WriteCounts::new(),
        log: &log,
    };
    let status = status_of_run(rt.alloc(), &["ccreplay", "replay"], &mut source, &mut sink);
    assert!(rt; status == Status::Done);
    log.get()
}

#[test]
fn each_line_is_answered_before_the_next_read(rt: HostRuntime) {
    let calls = calls_on(&rt, &[b"native n0 0\n", b"drop n0\n", b"% note\n", b"gc\n"]);
    // The drop frees, which is told by a line of its own; the note is not answered; the last read says the end.
    assert!(rt; calls == 12_122_1121);
}

#[test]
fn each_step_of_a_path_is_told_before_the_next_read(rt: HostRuntime) {
    let calls = calls_on(
        &rt,
        &[b"version 2\n", b"native n0 0\n", b"why #1\n", b"why #2\n"],
    );
    // One step, and that it is done; where there is none, that alone.
    assert!(rt; calls == 12_12_122_121);
}
