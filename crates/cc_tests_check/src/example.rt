//! What the tests of this crate share: what a check of a transcript comes to, and what is said of where it
//! parts from every lawful one.

use cc_check::{CheckStop, Verdict, check, describe, find_parting};
use cc_names::Limits;
use cc_outside::{Source, SureSource};
use std::alloc::Global;
use std::process::Abort;

/// What `check` answers; none where the script is longer than the limit. Nothing is known of it in a proof: it is looked at.
fn verdict_of_check<S: Source>(
    alloc: Global,
    limits: Limits,
    script: &[u8],
    source: &mut S,
) -> Option<Result<Verdict, CheckStop>> {
    if script.len() > limits.bytes() as usize {
        return None;
    }
    Some(check(alloc, limits, script, source))
}

/// What is said of where `find_parting` finds that the transcript parts; none where the script is longer than the limit, and where
/// nothing is found. Nothing is known of it in a proof: it is looked at.
fn told_of<S: Source>(
    alloc: Global,
    limits: Limits,
    script: &[u8],
    source: &mut S,
) -> Option<Vec<u8>> {
    if script.len() > limits.bytes() as usize {
        return None;
    }
    let parting = find_parting(alloc, limits, script, source).ok()?;
    describe(alloc, &parting, script).ok()
}

/// A script and a transcript, by what they show, the verdict, and what is said of where the transcript parts from every lawful one.
pub struct Example {
    pub name: &'static str,
    /// How many natives may be made, at most 1000000.
    pub natives: u32,
    /// How many plain objects, weak maps and proxies may be made, at most 1000000.
    pub scripts: u32,
    /// How many bytes may be read.
    pub bytes: u32,
    pub script: &'static [u8],
    pub transcript: &'static [u8],
    pub verdict: Verdict,
    /// One line, with its line feed.
    pub told: &'static [u8],
}

impl Example {
    /// Checks the transcript, and looks at the verdict.
    fn is_judged(&self, rt: &(impl Abort + AllocGlobal)) {
        let limits = Limits::new(
            self.natives.min(Limits::MOST),
            self.scripts.min(Limits::MOST),
            self.bytes,
        );
        let mut source = SureSource::new(self.transcript.to_vec(rt.alloc()).expect(rt, "memory"));
        let answer = verdict_of_check(rt.alloc(), limits, self.script, &mut source);
        assert_eq!(rt; answer, Some(Ok(self.verdict)), "at {}", self.name);
        assert!(rt; source.left().is_empty(), "at {}", self.name);
        let mut again = SureSource::new(self.transcript.to_vec(rt.alloc()).expect(rt, "memory"));
        let told = told_of(rt.alloc(), limits, self.script, &mut again).expect(rt, "a parting");
        assert_eq!(rt; told.as_slice(), self.told, "at {}", self.name);
        assert!(rt; again.left().is_empty(), "at {}", self.name);
    }
}

/// Checks each transcript, and looks at the verdict.
pub fn are_judged(rt: &(impl Abort + AllocGlobal), examples: &[Example]) {
    for example in examples {
        example.is_judged(rt);
    }
}
