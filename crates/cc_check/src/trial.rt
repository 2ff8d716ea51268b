//! A trial of a transcript, line by line.

ghost use Rattle.std.specs.Prelude.{◌≡◌, ◌+◌, ◌<◌, ◌≤◌, ◌^◌, ℕ, List, [], length, IfOk, OnOk};
ghost use Rattle.cc_names.specs.Allowance.{Allowance};
ghost use Rattle.cc_model.specs.Lines.{lines_of};
ghost use Rattle.cc_verdict.specs.Verdicts.{IsLawfulTranscript};
ghost use Rattle.cc_check.specs.declared.parting.Blame.{Blame as TheBlame};
ghost use Rattle.cc_check.specs.Parted.{IsEarly, PartsFor};
ghost use Rattle.cc_check.specs.Tried.{bytes_of, IsReady, IsTried, Tries};

use crate::cause::Cause;
use crate::heard::Heard;
use crate::judge::Judge;
use crate::parting::{Blame, Parting};
use crate::script::Script;
use crate::verdict::Verdict;
use cc_names::{Limits, NoMemory};
use cc_verdict::{
    all_that_is_reached_is_listed, other_ends_lead_on, transcripts_are_lines,
    transcripts_part_line_by_line,
};
use std::alloc::Global;

/// A trial: the judge, the lines of the script that are left, whether no line has parted so far, and else why one has, how many lines came
/// before it, and how many bytes those have, each with a line feed.
#[derive(Drop)]
pub(crate) struct Trial<'a> {
    judge: Judge,
    script: Script<'a>,
    is_lawful: bool,
    cause: Option<Cause>,
    lines: u64,
    bytes: u64,
}

impl<'a> Trial<'a> {
    /// No line was heard yet.
    pub(crate) fn new(
        alloc: Global,
        limits: Limits,
        script: &'a [u8],
    ) -> Result<Trial<'a>, NoMemory>
        ensures ready { IfOk result IsReady }
        ensures tried { IfOk result (λ t. IsTried limits script.now t []) }
        ensures bytes { IfOk result (λ t. t.bytes ≡ 0) }
        ensures lines { IfOk result (λ t. t.lines ≡ 0) }
    {
        all_that_is_reached_is_listed();
        other_ends_lead_on();
        transcripts_part_line_by_line();
        Ok(Trial {
            judge: Judge::new(alloc, limits)?,
            script: Script::new(script),
            is_lawful: true,
            cause: None,
            lines: 0,
            bytes: 0,
        })
    }

    /// Hears the next line. After one that may not come none is judged any more. After `NoMemory` the trial is only let go.
    pub(crate) fn hear(&mut self, heard: Heard<'_>) -> Result<(), NoMemory>
        requires ready { IsReady self.old }
        requires room { self.old.bytes + bytes_of heard < 2 ^ 64 }
        requires line { self.old.lines + 1 < 2 ^ 64 }
        ensures ready { OnOk result (IsReady self.new) }
        ensures tried { OnOk result (Tries self.old self.new heard.entry) }
        ensures bytes { OnOk result (self.new.bytes ≤ self.old.bytes + bytes_of heard.entry) }
        ensures lines { OnOk result (self.new.lines ≤ self.old.lines + 1) }
    {
        transcripts_part_line_by_line();
        if !self.is_lawful {
            return Ok(());
        }
        if let Some(cause) = self.judge.hear(&mut self.script, heard)? {
            self.is_lawful = false;
            self.cause = Some(cause);
            return Ok(());
        }
        self.bytes += heard.bytes();
        self.lines += 1;
        Ok(())
    }

    /// The verdict on a transcript of `taken` bytes, each line of which was heard. It is lawful where the judge lets it end here,
    /// and its last line too ends with a line feed.
    pub(crate) fn verdict(&mut self, taken: u64) -> Verdict
        ensures lawful { result ≡ Verdict.Lawful → (limits : Allowance) (script text : List ℕ) → length text ≡ taken →
            IsTried limits script self.old (lines_of text) → IsLawfulTranscript limits script text }
        ensures unlawful { result ≡ Verdict.Unlawful → (limits : Allowance) (script text : List ℕ) → length text ≡ taken →
            IsTried limits script self.old (lines_of text) → ¬ (IsLawfulTranscript limits script text) }
    {
        transcripts_are_lines();
        if self.is_lawful && self.bytes == taken && self.judge.may_end(&mut self.script) {
            Verdict::Lawful
        } else {
            Verdict::Unlawful
        }
    }

    /// Where a transcript of `taken` bytes, each line of which was heard, parts from every lawful one.
    pub(crate) fn parting(&mut self, taken: u64) -> Parting
        requires line { self.old.lines + 1 < 2 ^ 64 }
        ensures lawful { result ≡ Parting.Lawful → (limits : Allowance) (script text : List ℕ) → length text ≡ taken →
            IsTried limits script self.old (lines_of text) → IsLawfulTranscript limits script text }
        ensures line { (blame : TheBlame) → result ≡ Parting.Line blame → (limits : Allowance) (script : List ℕ) (lines : List (List ℕ)) →
            IsTried limits script self.old lines → PartsFor limits script lines blame }
        ensures end { result ≡ Parting.End → (limits : Allowance) (script text : List ℕ) → length text ≡ taken →
            IsTried limits script self.old (lines_of text) → IsEarly limits script text }
    {
        if let Some(cause) = self.cause.take() {
            return Parting::Line(Blame {
                line: self.lines + 1,
                asked: self.script.asked(),
                cause,
            });
        }
        match self.verdict(taken) {
            Verdict::Lawful => Parting::Lawful,
            Verdict::Unlawful => Parting::End,
        }
    }
}
