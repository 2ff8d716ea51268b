//! Each line of the transcript is handed on as one piece.

ghost use Rattle.std.specs.Prelude.{◌≤◌, None};

use crate::runs::status_of_run;
use cc_outside::{Failed, Sink, SureSource, WriteCounts};
use cc_replay::Status;
use std::process::Abort;

/// A sink that keeps what it is handed, a bar behind each piece, and takes at most so many bytes of it, at least one. It
/// never fails.
#[derive(Drop)]
struct Pieces {
    most: usize,
    handed: Vec<u8>,
    writes: WriteCounts,
    ghost some: { 1 ≤ most },
}

impl Sink for Pieces {
    ghost written = { λ _. None };

    ghost faults = { λ _. 0 };

    ghost writes = { λ p. p.writes };

    /// What there is no memory for is left out, which the test sees.
    fn write(&mut self, bytes: &[u8]) -> Result<usize, Failed> {
        let _ = self.handed.extend_from_slice(bytes);
        let _ = self.handed.push(b'|');
        self.writes.count_answered();
        Ok(bytes.len().min(self.most))
    }
}

/// One drop frees two natives, and a census then lists nothing.
const LINES: &[u8] = b"native n0 1\nnative n1 0\nset n0 0 n1\ndrop n1\ndrop n0\ncensus\n";

/// A path of two steps.
const PATH: &[u8] = b"version 2\nnative n0 1\nnative n1 0\nset n0 0 n1\ndrop n1\nwhy #2\nwhy #3\n";

/// Runs the lines into a sink that takes at most so many bytes at a time, and looks at what it was handed.
fn hands_on(rt: &(impl Abort + AllocGlobal), lines: &[u8], most: usize, wanted: &[u8])
    requires { 1 ≤ most }
{
    let mut source = SureSource::new(lines.to_vec(rt.alloc()).expect(rt, "memory"));
    let mut sink = Pieces {
        most,
        handed: Vec::new(rt.alloc()),
        writes: WriteCounts::new(),
    };
    let status = status_of_run(rt.alloc(), &["ccreplay", "replay"], &mut source, &mut sink);
    assert!(rt; status == Status::Done, "{status:?} at {most}");
    assert!(rt; sink.handed.as_slice() == wanted, "at {most}");
}

#[test]
fn each_line_is_one_piece(rt: HostRuntime) {
    hands_on(
        &rt,
        LINES,
        100,
        b"= #1\n|= #2\n|= ok\n|= ok\n|- free #1\n|- free #2\n|= ok\n|= census 0\n|",
    );
}

#[test]
fn what_a_sink_leaves_of_a_line_is_the_next_piece(rt: HostRuntime) {
    hands_on(
        &rt,
        LINES,
        6,
        b"= #1\n|= #2\n|= ok\n|= ok\n|- free #1\n| #1\n|- free #2\n| #2\n|= ok\n|= census 0\n|us 0\n|",
    );
}

#[test]
fn each_step_of_a_path_is_one_piece(rt: HostRuntime) {
    hands_on(
        &rt,
        PATH,
        100,
        b"= ok\n|= #1\n|= #2\n|= ok\n|= ok\n|: #1 n0\n|: #2 #1\n|= ok\n|= none\n|",
    );
}

#[test]
fn what_a_sink_leaves_of_a_step_is_the_next_piece(rt: HostRuntime) {
    hands_on(
        &rt,
        PATH,
        6,
        b"= ok\n|= #1\n|= #2\n|= ok\n|= ok\n|: #1 n0\n|0\n|: #2 #1\n|1\n|= ok\n|= none\n|\n|",
    );
}
