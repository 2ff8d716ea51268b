//! Command lines that are taken, that are not, and what their options change.

use crate::runs::status_of_run;
use cc_outside::{BytesSink, SureSource};
use cc_replay::Status;
use std::process::Abort;

/// Lines whose words, parted by one blank each, are taken.
const TAKEN: [&str; 10] = [
    "ccreplay replay",
    " replay",
    "ccreplay replay --",
    "ccreplay replay --natives=1000000 --bytes=4294967295",
    "ccreplay make 7 0",
    " make 7 0",
    "ccreplay make 18446744073709551615 0",
    "ccreplay make 4294967303 0",
    "ccreplay make +7 00",
    "ccreplay make -- 7 -0",
];

/// Lines that are taken too: what is behind the script is no transcript of it, or is none of a whole line.
const CHECKED: [&str; 6] = [
    "ccreplay check 0",
    " check 36",
    "ccreplay check +24 --natives 1",
    "ccreplay check 0012 --scripts=0 --bytes=37",
    "ccreplay check --bytes 37 4294967295",
    "ccreplay check -- 12",
];

/// Lines that allow a byte less than the script and the transcript have.
const PASSED: [&str; 2] = [
    "ccreplay check 12 --bytes 36",
    "ccreplay check 37 --bytes 36",
];

/// Lines whose words are not; the first one has none.
const NOT_TAKEN: [&str; 44] = [
    "",
    "ccreplay",
    "replay",
    "ccreplay play",
    "ccreplay replay more",
    "ccreplay replay replay",
    "ccreplay --natives 1 replay",
    "ccreplay --help",
    "ccreplay help",
    "ccreplay --version",
    "ccreplay replay -h",
    "ccreplay replay --natives",
    "ccreplay replay --natives x",
    "ccreplay replay --natives -1",
    "ccreplay replay --natives 1000001",
    "ccreplay replay --scripts 1000001",
    "ccreplay replay --bytes=4294967296",
    "ccreplay replay --natives 1 --natives 2",
    "ccreplay replay 7 0",
    "ccreplay make 7 1000001",
    "ccreplay make 7",
    "ccreplay make",
    "make 7 0",
    "ccreplay make 7 0 0",
    "ccreplay make -1 0",
    "ccreplay make -- -1 0",
    "ccreplay make 7 -1",
    "ccreplay make 7 -0",
    "ccreplay make x 0",
    "ccreplay make 7 x",
    "ccreplay make  0",
    "ccreplay make 18446744073709551616 0",
    "ccreplay make --seed 7 --count 0",
    "ccreplay make 7 0 --natives 1",
    "ccreplay make --natives 1 7 0",
    "ccreplay check",
    "check 12",
    "ccreplay check x",
    "ccreplay check -1",
    "ccreplay check 4294967296",
    "ccreplay check 12 24",
    "ccreplay check --script 12",
    "ccreplay check 12 --natives 1000001",
    "ccreplay check 12 --bytes",
];

/// Lines that leave room for one native, for no plain object, and for 36 bytes.
const NARROW: [&str; 4] = [
    "ccreplay replay --natives 1 --scripts 0 --bytes 36",
    "ccreplay replay --bytes=36 --scripts=0 --natives=1",
    "ccreplay replay --bytes=36 --scripts=+0 --natives=001",
    "ccreplay replay --natives=1 --scripts=-0 --bytes=36",
];

/// Two natives, an object, and one byte more than the 36 before it.
const INPUT: &[u8] = b"native n0 0\nnative n1 0\nscript s0 0\n\n";

/// The words of a line, parted by one blank each; none of a line without a byte.
fn words_of<'a>(rt: &(impl Abort + AllocGlobal), line: &'a str) -> Vec<&'a str> {
    let mut words = Vec::new(rt.alloc());
    for word in line.split(' ') {
        words.push(word).expect(rt, "memory");
    }
    if line.is_empty() {
        words.clear();
    }
    words
}

/// Runs the words of a line on the input, and looks at the status and at what is written. Where the words are not taken, nothing
/// is read and nothing is written.
fn answers(rt: &(impl Abort + AllocGlobal), line: &str, status: Status, written: &[u8]) {
    let words = words_of(rt, line);
    let mut source = SureSource::new(INPUT.to_vec(rt.alloc()).expect(rt, "memory"));
    let mut sink = BytesSink::new(rt.alloc(), 300, Vec::new(rt.alloc())).expect(rt, "memory");
    let ended = status_of_run(rt.alloc(), words.as_slice(), &mut source, &mut sink);
    assert_eq!(rt; ended, status, "at {line}");
    assert!(rt; sink.written().starts_with(written), "at {line}");
    let touched = source.left().len() < INPUT.len() || !sink.written().is_empty();
    assert!(rt; touched == (status != Status::Usage), "at {line}");
}

#[test]
fn words_are_taken(rt: HostRuntime) {
    for line in TAKEN.iter() {
        answers(&rt, line, Status::Done, b"");
    }
}

#[test]
fn words_of_a_check_are_taken(rt: HostRuntime) {
    for line in CHECKED.iter() {
        answers(&rt, line, Status::Unlawful, b"unlawful\n");
    }
    for line in PASSED.iter() {
        answers(&rt, line, Status::Limit, b"");
    }
}

#[test]
fn words_are_not_taken(rt: HostRuntime) {
    for line in NOT_TAKEN.iter() {
        answers(&rt, line, Status::Usage, b"");
    }
}

#[test]
fn options_narrow_a_run(rt: HostRuntime) {
    for line in NARROW.iter() {
        answers(&rt, line, Status::Limit, b"= #1\n! full\n! full\n");
    }
    let none = "ccreplay replay --natives 0";
    answers(&rt, none, Status::Done, b"! full\n! full\n= @1\n");
}
