//! Scripts and answers that are made while they are read or written, and a run of one against the other.

ghost use Rattle.std.specs.Prelude.{◌≤◌, length, None};

use cc_outside::{Failed, ReadCounts, Sink, Source, WriteCounts};
use cc_replay::{Status, run};
use std::alloc::Global;
use std::process::Abort;

/// A text that comes once or more often, each time with a number. In the text K stands for the number, L for the next one, and
/// M for the one after that. A text without a byte ends all.
#[derive(Clone, Copy, Drop)]
pub enum Part {
    /// Once, with the number 0.
    Once(&'static str),
    /// For each number from the first to the last, which may be the lesser one.
    Each(u32, u32, &'static str),
    /// For the first number, for the one that is so much greater or less, and so on to the last: the first one, the last
    /// one, and the difference.
    Every(u32, u32, u32, &'static str),
}

/// The numbers of a part, from the first to the last, each by so much greater or less than the one before; and its text.
#[derive(Clone, Copy, Drop)]
struct Numbers {
    first: u32,
    last: u32,
    by: u32,
    text: &'static str,
}

impl Part {
    fn numbers(self) -> Numbers {
        match self {
            Part::Once(text) => Numbers {
                first: 0,
                last: 0,
                by: 1,
                text,
            },
            Part::Each(first, last, text) => Numbers {
                first,
                last,
                by: 1,
                text,
            },
            Part::Every(first, last, by, text) => Numbers {
                first,
                last,
                by,
                text,
            },
        }
    }
}

/// The bytes of some parts, one after the other.
#[derive(Drop)]
struct Text<'a> {
    parts: &'a [Part],
    part: usize,
    /// The number of the part, if it has begun.
    number: Option<u32>,
    /// Where in the part's text the next byte stands.
    place: usize,
    /// A number that is written, and the power of ten of its next digit, 0 where all are written.
    written: u32,
    power: u32,
}

impl<'a> Text<'a> {
    fn new(parts: &'a [Part]) -> Text<'a> {
        Text {
            parts,
            part: 0,
            number: None,
            place: 0,
            written: 0,
            power: 0,
        }
    }

    /// The next byte, or none at the end.
    fn next(&mut self) -> Option<u8> {
        if self.power > 0 {
            return Some(self.digit());
        }
        let part = self.parts.get(self.part)?.numbers();
        let number = self.number.unwrap_or(part.first);
        let byte = *part.text.as_bytes().get(self.place)?;
        self.go_on(part, number);
        if byte < b'K' || byte > b'M' {
            return Some(byte);
        }
        self.written = number.saturating_add((byte - b'K') as u32);
        self.power = greatest_power(self.written);
        Some(self.digit())
    }

    /// One byte more of the part's text is taken; after its last one the text comes again for the next number.
    fn go_on(&mut self, part: Numbers, number: u32) {
        self.place = self.place.saturating_add(1);
        self.number = Some(number);
        if self.place < part.text.len() {
            return;
        }
        self.place = 0;
        if number == part.last {
            self.part = self.part.saturating_add(1);
            self.number = None;
        } else if number < part.last {
            self.number = Some(number.saturating_add(part.by));
        } else {
            self.number = Some(number.saturating_sub(part.by));
        }
    }

    /// The next digit of the number that is written.
    fn digit(&mut self) -> u8 {
        let digit = self.written.checked_div(self.power).unwrap_or(0) % 10;
        self.power /= 10;
        b'0' + digit as u8
    }

    /// Moves bytes into the front of `buf`, and says how many: as many as there are and fit.
    fn give(&mut self, buf: &mut [u8]) -> usize
        ensures { result ≤ length buf.new }
    {
        for i in 0..buf.len() {
            match self.next() {
                Some(byte) => buf[i] = byte,
                None => return i,
            }
        }
        buf.len()
    }
}

/// The greatest power of ten, of up to six digits, that is not above a number, or 1.
fn greatest_power(number: u32) -> u32 {
    for power in [100000u32, 10000, 1000, 100, 10] {
        if power <= number {
            return power;
        }
    }
    1
}

/// A source of a text, which takes no memory and never fails.
#[derive(Drop)]
struct Script<'a> {
    text: Text<'a>,
    reads: ReadCounts,
}

impl Source for Script<'_> {
    ghost left = { λ _. None };

    ghost faults = { λ _. 0 };

    ghost reads = { λ s. s.reads };

    fn read(&mut self, buf: &mut [u8]) -> Result<usize, Failed> {
        let count = self.text.give(buf);
        self.reads.count(buf.len(), count);
        Ok(count)
    }
}

/// How far what comes is as a text.
#[derive(Drop)]
struct Comparison<'a> {
    text: Text<'a>,
    /// How many bytes were as they are to be, up to the first one that was not.
    right: u64,
    differs: bool,
}

impl Comparison<'_> {
    /// Compares the next bytes, and keeps none of them.
    fn take(&mut self, bytes: &[u8]) {
        for byte in bytes {
            if self.text.next() != Some(*byte) {
                self.differs = true;
            }
            if !self.differs {
                self.right = self.right.saturating_add(1);
            }
        }
    }
}

/// A sink that compares what it is handed with a text. It never fails.
#[derive(Drop)]
struct Wanted<'a> {
    compared: Comparison<'a>,
    writes: WriteCounts,
}

impl Sink for Wanted<'_> {
    ghost written = { λ _. None };

    ghost faults = { λ _. 0 };

    ghost writes = { λ w. w.writes };

    fn write(&mut self, bytes: &[u8]) -> Result<usize, Failed> {
        self.compared.take(bytes);
        self.writes.count_answered();
        Ok(bytes.len())
    }
}

/// The status of `run`. Nothing is known of it in a proof: what is written is looked at.
pub fn status_of<'a, S: Source, K: Sink>(
    alloc: Global,
    words: &'a [&'a str],
    source: &mut S,
    sink: &mut K,
) -> Status {
    run(alloc, words, source, sink)
}

/// The program, run with these words, answers the script with what is wanted and with nothing else, and is done. How many of its
/// reads were answered.
pub fn answers<'a>(
    rt: &(impl Abort + AllocGlobal),
    words: &'a [&'a str],
    script: &[Part],
    wanted: &[Part],
) -> u64 {
    let mut source = Script {
        text: Text::new(script),
        reads: ReadCounts::new(),
    };
    let mut sink = Wanted {
        compared: Comparison {
            text: Text::new(wanted),
            right: 0,
            differs: false,
        },
        writes: WriteCounts::new(),
    };
    let ended = status_of(rt.alloc(), words, &mut source, &mut sink);
    assert!(rt;
        !sink.compared.differs,
        "after {} bytes, at {words:?}",
        sink.compared.right
    );
    assert!(rt;
        sink.compared.text.next().is_none(),
        "more is wanted at {words:?}"
    );
    assert!(rt; ended == Status::Done, "{ended:?} at {words:?}");
    source.reads.answered()
}

/// The program answers the script with what is wanted, and with nothing else.
pub fn plays(rt: &(impl Abort + AllocGlobal), script: &[Part], wanted: &[Part]) {
    let _reads = answers(rt, &["ccreplay", "replay"], script, wanted);
}
