//! Faults of reading and writing, and the limit on bytes: one table of what `run` makes of them.

use crate::runs::status_of_run;
use cc_outside::{BytesSink, BytesSource};
use cc_replay::Status;
use std::process::Abort;

/// What `run` makes of an input.
#[derive(Clone, Copy, Drop)]
struct Case {
    words: &'static [&'static str],
    input: &'static [u8],
    /// How many bytes a read gives at most, and how many a write takes.
    gives: usize,
    takes: usize,
    /// The read that fails, in one run after the other each from this number to that one, counted from 1; 0 for none.
    reads: (u64, u64),
    /// The write that fails.
    write: u64,
    written: &'static [u8],
    status: Status,
}

/// Four lines whose cycle of one outlives its register, 39 bytes, and what they answer.
const WHOLE: Case = Case {
    words: &["ccreplay", "replay"],
    input: b"native n0 1\nset n0 0 n0\ndrop n0\ncensus\n",
    gives: 4096,
    takes: 4096,
    reads: (0, 0),
    write: 0,
    written: b"= #1\n= ok\n= ok\n+ #1\n= census 1\n",
    status: Status::Done,
};

/// A byte at a time, or two: the end of a line may be one piece and its beginning another.
const PARTED: [Case; 3] = [
    Case {
        gives: 1,
        takes: 1,
        ..WHOLE
    },
    Case { gives: 1, ..WHOLE },
    Case {
        gives: 3,
        takes: 2,
        ..WHOLE
    },
];

/// A read of one byte fails: the lines that ended before it are answered. The last read says the end.
const READ: Case = Case {
    gives: 1,
    status: Status::ReadFault,
    ..WHOLE
};

const READS: [Case; 6] = [
    Case {
        reads: (1, 12),
        written: b"",
        ..READ
    },
    Case {
        reads: (13, 24),
        written: b"= #1\n",
        ..READ
    },
    Case {
        reads: (25, 32),
        written: b"= #1\n= ok\n",
        ..READ
    },
    Case {
        reads: (33, 39),
        written: b"= #1\n= ok\n= ok\n",
        ..READ
    },
    Case {
        reads: (40, 40),
        ..READ
    },
    Case {
        gives: 39,
        reads: (2, 2),
        ..READ
    },
];

/// A write fails: the lines before it are written.
const WRITE: Case = Case {
    status: Status::WriteFault,
    ..WHOLE
};

const WRITES: [Case; 7] = [
    Case {
        write: 1,
        written: b"",
        ..WRITE
    },
    Case {
        write: 2,
        written: b"= #1\n",
        ..WRITE
    },
    Case {
        write: 3,
        written: b"= #1\n= ok\n",
        ..WRITE
    },
    Case {
        write: 4,
        written: b"= #1\n= ok\n= ok\n",
        ..WRITE
    },
    Case {
        write: 5,
        written: b"= #1\n= ok\n= ok\n+ #1\n",
        ..WRITE
    },
    Case {
        takes: 1,
        write: 7,
        written: b"= #1\n=",
        ..WRITE
    },
    Case {
        write: 6,
        status: Status::Done,
        ..WHOLE
    },
];

/// So many bytes may be read.
const LIMITS: [Case; 3] = [
    Case {
        words: &["ccreplay", "replay", "--bytes", "39"],
        ..WHOLE
    },
    Case {
        words: &["ccreplay", "replay", "--bytes", "38"],
        written: b"= #1\n= ok\n= ok\n",
        status: Status::Limit,
        ..WHOLE
    },
    Case {
        words: &["ccreplay", "replay", "--bytes", "0"],
        written: b"",
        status: Status::Limit,
        ..WHOLE
    },
];

/// A path of two steps, which the first 61 bytes ask for, and a name that was never made: 68 bytes.
const PATH: Case = Case {
    input: b"version 2\nnative n0 1\nnative n1 0\nset n0 0 n1\ndrop n1\nwhy #2\nwhy #3\n",
    written: b"= ok\n= #1\n= #2\n= ok\n= ok\n: #1 n0\n: #2 #1\n= ok\n= none\n",
    ..WHOLE
};

/// A write fails within a path: the steps before it are written, and no other line is answered. A read fails behind it, or too
/// many bytes come: the path is told whole.
const PATHS: [Case; 9] = [
    PATH,
    Case {
        gives: 1,
        takes: 1,
        ..PATH
    },
    Case {
        write: 6,
        written: b"= ok\n= #1\n= #2\n= ok\n= ok\n",
        status: Status::WriteFault,
        ..PATH
    },
    Case {
        write: 7,
        written: b"= ok\n= #1\n= #2\n= ok\n= ok\n: #1 n0\n",
        status: Status::WriteFault,
        ..PATH
    },
    Case {
        write: 8,
        written: b"= ok\n= #1\n= #2\n= ok\n= ok\n: #1 n0\n: #2 #1\n",
        status: Status::WriteFault,
        ..PATH
    },
    Case {
        write: 9,
        written: b"= ok\n= #1\n= #2\n= ok\n= ok\n: #1 n0\n: #2 #1\n= ok\n",
        status: Status::WriteFault,
        ..PATH
    },
    Case {
        gives: 1,
        reads: (62, 68),
        written: b"= ok\n= #1\n= #2\n= ok\n= ok\n: #1 n0\n: #2 #1\n= ok\n",
        status: Status::ReadFault,
        ..PATH
    },
    Case {
        gives: 1,
        reads: (69, 69),
        status: Status::ReadFault,
        ..PATH
    },
    Case {
        words: &["ccreplay", "replay", "--bytes", "67"],
        written: b"= ok\n= #1\n= #2\n= ok\n= ok\n: #1 n0\n: #2 #1\n= ok\n",
        status: Status::Limit,
        ..PATH
    },
];

/// The same four lines with what they answer behind them, 70 bytes: a script and a lawful transcript of it.
const CHECK: Case = Case {
    words: &["ccreplay", "check", "39"],
    input: b"native n0 1\nset n0 0 n0\ndrop n0\ncensus\n= #1\n= ok\n= ok\n+ #1\n= census 1\n",
    written: b"lawful\n",
    ..WHOLE
};

/// Nothing is written where a read fails, the last one too, or the limit is passed, within the script or behind it.
const SILENT: [Case; 5] = [
    Case {
        gives: 1,
        reads: (1, 71),
        written: b"",
        status: Status::ReadFault,
        ..CHECK
    },
    Case {
        reads: (3, 3),
        written: b"",
        status: Status::ReadFault,
        ..CHECK
    },
    Case {
        words: &["ccreplay", "check", "39", "--bytes", "69"],
        written: b"",
        status: Status::Limit,
        ..CHECK
    },
    Case {
        words: &["ccreplay", "check", "39", "--bytes", "38"],
        written: b"",
        status: Status::Limit,
        ..CHECK
    },
    Case {
        words: &["ccreplay", "check", "0", "--bytes", "0"],
        written: b"",
        status: Status::Limit,
        ..CHECK
    },
];

/// The verdict on what is read to its end, in pieces of any size; a front of its line where a write fails.
const CHECKS: [Case; 10] = [
    CHECK,
    Case {
        gives: 1,
        takes: 1,
        ..CHECK
    },
    Case {
        words: &["ccreplay", "check", "39", "--bytes", "70"],
        ..CHECK
    },
    Case {
        write: 1,
        written: b"",
        status: Status::WriteFault,
        ..CHECK
    },
    Case {
        takes: 1,
        write: 4,
        written: b"law",
        status: Status::WriteFault,
        ..CHECK
    },
    Case {
        words: &["ccreplay", "check", "38"],
        written: b"unlawful\n",
        status: Status::Unlawful,
        ..CHECK
    },
    Case {
        words: &["ccreplay", "check", "0"],
        written: b"unlawful\n",
        status: Status::Unlawful,
        ..CHECK
    },
    Case {
        words: &["ccreplay", "check", "4294967295"],
        takes: 2,
        written: b"unlawful\n",
        status: Status::Unlawful,
        ..CHECK
    },
    Case {
        words: &["ccreplay", "check", "4294967295"],
        input: b"",
        ..CHECK
    },
    Case {
        words: &["ccreplay", "check", "39", "--natives", "0"],
        written: b"unlawful\n",
        status: Status::Unlawful,
        ..CHECK
    },
];

/// The source of a case, of which the read of this number fails.
fn source_of(rt: &(impl Abort + AllocGlobal), case: &Case, read: u64) -> BytesSource {
    let input = case.input.to_vec(rt.alloc()).expect(rt, "memory");
    let fails = [read].to_vec(rt.alloc()).expect(rt, "memory");
    BytesSource::new(input, fails, case.gives.max(1))
}

/// The sink of a case.
fn sink_of(rt: &(impl Abort + AllocGlobal), case: &Case) -> BytesSink {
    let fails = [case.write].to_vec(rt.alloc()).expect(rt, "memory");
    BytesSink::with_most(rt.alloc(), 4096, fails, case.takes.max(1)).expect(rt, "memory")
}

/// One run, in which the read of this number fails.
fn runs_with(rt: &(impl Abort + AllocGlobal), case: &Case, read: u64) {
    let mut source = source_of(rt, case, read);
    let mut sink = sink_of(rt, case);
    let status = status_of_run(rt.alloc(), case.words, &mut source, &mut sink);
    assert_eq!(rt; sink.written(), case.written);
    assert_eq!(rt; status, case.status);
    assert_eq!(rt; source.faults(), u64::from(status == Status::ReadFault));
    assert_eq!(rt; sink.faults(), u64::from(status == Status::WriteFault));
}

/// All runs of some cases.
fn all_run(rt: &(impl Abort + AllocGlobal), cases: &[Case]) {
    for case in cases {
        for read in case.reads.0..=case.reads.1 {
            runs_with(rt, case, read);
        }
    }
}

#[test]
fn faults_of_the_outside_are_told(rt: HostRuntime) {
    all_run(&rt, &PARTED);
    all_run(&rt, &READS);
    all_run(&rt, &WRITES);
    all_run(&rt, &LIMITS);
}

#[test]
fn faults_within_a_path_are_told(rt: HostRuntime) {
    all_run(&rt, &PATHS);
}

#[test]
fn faults_of_a_check_are_told(rt: HostRuntime) {
    all_run(&rt, &SILENT);
    all_run(&rt, &CHECKS);
}
