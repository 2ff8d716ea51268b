//! What the tests of this crate share: what a replay of a script writes, and that it is a lawful transcript.

use cc_check::{CheckStop, Verdict, check};
use cc_names::Limits;
use cc_outside::{BytesSink, Sink, Source, SureSource};
use cc_replay::{Status, replay};
use std::alloc::Global;
use std::process::Abort;

/// The status of `replay`. Nothing is known of it in a proof: what is written is looked at.
fn status_of_replay<S: Source, K: Sink>(
    alloc: Global,
    limits: Limits,
    source: &mut S,
    sink: &mut K,
) -> Status {
    replay(alloc, limits, source, sink)
}

/// What `check` answers; none where the script is longer than the limit. Nothing is known of it in a proof: it is looked at.
fn verdict_of_check<S: Source>(
    alloc: Global,
    limits: Limits,
    script: &[u8],
    source: &mut S,
) -> Option<Result<Verdict, CheckStop>> {
    if script.len() > limits.bytes() as usize {
        return None;
    }
    Some(check(alloc, limits, script, source))
}

/// A script and what it makes the program write, by what it shows.
#[derive(Drop)]
pub struct Example<'a> {
    pub name: &'a str,
    /// How many natives may be made, at most 1000000.
    pub natives: u32,
    /// How many plain objects, weak maps and proxies may be made, at most 1000000.
    pub scripts: u32,
    /// How many bytes may be read.
    pub bytes: u32,
    pub input: &'a [u8],
    pub output: &'a [u8],
    pub status: Status,
}

impl Example<'_> {
    /// Replays the script within the limits, with ample room to write, and looks at what is written and at the status.
    fn is_answered(&self, rt: &(impl Abort + AllocGlobal)) {
        let limits = Limits::new(
            self.natives.min(Limits::MOST),
            self.scripts.min(Limits::MOST),
            self.bytes,
        );
        let mut source = SureSource::new(self.input.to_vec(rt.alloc()).expect(rt, "memory"));
        let room = self.output.len().saturating_add(4096);
        let mut sink = BytesSink::new(rt.alloc(), room, Vec::new(rt.alloc())).expect(rt, "memory");
        let status = status_of_replay(rt.alloc(), limits, &mut source, &mut sink);
        assert_eq!(rt; sink.written(), self.output, "at {}", self.name);
        assert_eq!(rt; status, self.status, "at {}", self.name);
    }

    /// Checks what the script makes the program write. It is lawful where the whole script is answered.
    fn is_lawful(&self, rt: &(impl Abort + AllocGlobal)) {
        let limits = Limits::new(
            self.natives.min(Limits::MOST),
            self.scripts.min(Limits::MOST),
            u32::MAX,
        );
        let mut source = SureSource::new(self.output.to_vec(rt.alloc()).expect(rt, "memory"));
        let answer = verdict_of_check(rt.alloc(), limits, self.input, &mut source);
        assert_eq!(rt; answer, Some(Ok(Verdict::Lawful)), "at {}", self.name);
    }
}

/// Replays each script, looks at what it makes the program write, and checks it.
pub fn are_answered(rt: &(impl Abort + AllocGlobal), examples: &[Example<'_>]) {
    for example in examples {
        example.is_answered(rt);
        if example.status == Status::Done {
            example.is_lawful(rt);
        }
    }
}

/// The example of a row: its name, its script and what this makes the program write, parted by bars. The limits are the widest.
fn example_of(row: &str) -> Option<Example<'_>> {
    let (name, texts) = row.split_once('|')?;
    let (input, output) = texts.split_once('|')?;
    Some(Example {
        name,
        natives: Limits::MOST,
        scripts: Limits::MOST,
        bytes: u32::MAX,
        input: input.as_bytes(),
        output: output.as_bytes(),
        status: Status::Done,
    })
}

/// The same for each row of a text, which semicolons part.
pub fn rows_are_answered(rt: &(impl Abort + AllocGlobal), rows: &str) {
    for row in rows.split(';') {
        let example = example_of(row).expect(rt, "a row has three fields");
        example.is_answered(rt);
        example.is_lawful(rt);
    }
}
