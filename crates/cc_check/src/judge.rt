//! The judge: hears the lines of a transcript one after the other.
ghost use Rattle.std.specs.Prelude.{◌≡◌, ◌≢◌, ◌↔◌, ℕ, List, [], ◌∷◌, false, true, None, Ok, IfOk, IfSome, IsTrue, OnOk};
ghost use Rattle.cc_names.specs.Allowance.{Allowance};
ghost use Rattle.cc_verdict.specs.Following.{first_place};
ghost use Rattle.cc_verdict.specs.GoingOn.{CanAnswer, CanGoOn, ReadNone};
ghost use Rattle.cc_verdict.specs.Positions.{GoesOn, reciting};
ghost use Rattle.cc_check.specs.Causes.{IsPart};
ghost use Rattle.cc_check.specs.Judging.{GoesAlong, IsRefusedAt, no_memory_line};
ghost use Rattle.cc_check.specs.Standing.{IsHeard, IsKept, asks_left, place_of, position_of};

use crate::answer::Answer;
use crate::asking::{census_is_next, next_asked};
use crate::cause::Cause;
use crate::ended::Ended;
use crate::heard::Heard;
use crate::known::Known;
use crate::row::Row;
use crate::script::Script;
use cc_listed::Listed;
use cc_model::Item;
use cc_names::{Limits, NoMemory};
use cc_object_graph::ObjectGraph;
use cc_verdict::{
    all_that_is_reached_is_listed, answers_are_heard, answers_are_heard_line_by_line,
    answers_are_recited_line_by_line, dead_ends_lead_nowhere, exact_answers_are_recited,
    lines_that_ask_nothing_have_no_answer, other_ends_lead_on, reasons_are_recited,
};
use std::alloc::Global;

/// Where a check stands: the graph that the script made so far, the names that a census would list, how much of the row was asked
/// last, and the answer that the next line goes on with.
///
/// An answer that can be but one way is kept as the items that are left of it, the next one last. Of another one it is kept
/// what was told so far; the graph is then the one after its command, and the row the one before it. The names that have ended
/// decide what a weak register gives. Whether one was read so far is kept: what it gave may lead to objects that were freed.
#[derive(Drop)]
pub(crate) struct Judge {
    pub(crate) alloc: Global,
    pub(crate) graph: ObjectGraph,
    pub(crate) listed: Listed,
    pub(crate) ended: Ended,
    pub(crate) has_read: bool,
    pub(crate) row: Row,
    pub(crate) recital: Vec<Item>,
    pub(crate) answer: Option<Answer>,
    pub(crate) known: Known,
}

impl Judge {
    /// Nothing was asked yet.
    pub(crate) fn new(alloc: Global, limits: Limits) -> Result<Judge, NoMemory>
        ensures start { IfOk result (λ j. position_of j ≡ reciting [] (first_place limits)) }
        ensures kept { IfOk result (λ j. IsKept j) }
        ensures unread { IfOk result (λ j. j.has_read ≡ false) }
    {
        all_that_is_reached_is_listed();
        Ok(Judge {
            alloc,
            graph: ObjectGraph::new(alloc, limits)?,
            listed: Listed::new(alloc),
            ended: Ended::new(alloc),
            has_read: false,
            row: Row::NothingYet,
            recital: Vec::new(alloc),
            answer: None,
            known: Known::new(alloc),
        })
    }

    /// Hears the next line of the transcript. None where a lawful transcript goes on with it, and else why none does.
    /// After a cause and after `NoMemory` the judge is only let go.
    pub(crate) fn hear(
        &mut self,
        script: &mut Script<'_>,
        heard: Heard<'_>,
    ) -> Result<Option<Cause>, NoMemory>
        requires kept { IsKept self.old }
        requires can { CanGoOn (position_of self.old) (asks_left script.old) }
        ensures kept { result ≡ Ok None → IsKept self.new }
        ensures can { result ≡ Ok None → CanGoOn (position_of self.new) (asks_left script.new) }
        ensures yes { result ≡ Ok None → (line : List ℕ) (lines : List (List ℕ)) → IsHeard heard.entry line →
            GoesOn (position_of self.old) (asks_left script.old) (line ∷ lines) ↔ GoesOn (position_of self.new) (asks_left script.new) lines }
        ensures no { IfOk result (λ o. IfSome o (λ c. (line : List ℕ) (lines : List (List ℕ)) → IsHeard heard.entry line →
            ¬ (GoesOn (position_of self.old) (asks_left script.old) (line ∷ lines)))) }
        ensures cause { IfOk result (λ o. IfSome o (IsPart (position_of self.old) (asks_left script.old) heard.entry (asks_left script.new))) }
        ensures goes_on { result ≡ Ok None → self.new.has_read ≡ false → ReadNone (asks_left script.new) →
            (lines : List (List ℕ)) × GoesOn (position_of self.new) (asks_left script.new) lines }
        ensures reads { result ≡ Ok None → self.old.has_read ≡ false → ReadNone (asks_left script.old) → self.new.has_read ≡ false }
        ensures along { OnOk result (GoesAlong script.old script.new) }
    {
        dead_ends_lead_nowhere();
        other_ends_lead_on();
        if !self.accept(script, heard)? {
            return Ok(Some(self.cause(*script, heard)?));
        }
        if self.can_go_on(*script)? {
            return Ok(None);
        }
        Ok(Some(self.dead_end(*script)?))
    }

    /// Whether anything can come behind what was heard.
    fn can_go_on(&mut self, script: Script<'_>) -> Result<bool, NoMemory>
        requires kept { IsKept self.old }
        ensures kept { OnOk result (IsKept self.new) }
        ensures same { OnOk result (position_of self.new ≡ position_of self.old) }
        ensures reads { OnOk result (self.new.has_read ≡ self.old.has_read) }
        ensures can { IfOk result (λ b. IsTrue b ↔ CanGoOn (position_of self.old) (asks_left script.entry)) }
    {
        if let Some(answer) = self.answer {
            return Ok(answer.can_go_on());
        }
        match self.row {
            Row::AfterAll => self.can_answer(script),
            _ => Ok(true),
        }
    }

    /// Whether the next answer can be given: a census that must list exactly the reached objects does.
    fn can_answer(&mut self, script: Script<'_>) -> Result<bool, NoMemory>
        requires kept { IsKept self.old }
        requires answer { self.old.answer ≡ None }
        ensures kept { OnOk result (IsKept self.new) }
        ensures same { OnOk result (position_of self.new ≡ position_of self.old) }
        ensures reads { OnOk result (self.new.has_read ≡ self.old.has_read) }
        ensures can { IfOk result (λ b. IsTrue b ↔ CanAnswer (place_of self.old) (asks_left script.entry)) }
    {
        if !census_is_next(script) {
            return Ok(true);
        }
        let names = self.listed.census(self.alloc)?;
        self.known
            .is_quiet(self.row, &self.graph, &self.listed, names.as_slice())
    }

    /// Hears the next line, and answers whether it may come there, where anything may. After no the judge stands in the answer that
    /// the line is none of.
    fn accept(&mut self, script: &mut Script<'_>, heard: Heard<'_>) -> Result<bool, NoMemory>
        requires kept { IsKept self.old }
        requires can { CanGoOn (position_of self.old) (asks_left script.old) }
        ensures kept { OnOk result (IsKept self.new) }
        ensures yes { result ≡ Ok true → (line : List ℕ) (lines : List (List ℕ)) → IsHeard heard.entry line →
            GoesOn (position_of self.old) (asks_left script.old) (line ∷ lines) ↔ GoesOn (position_of self.new) (asks_left script.new) lines }
        ensures no { result ≡ Ok false → (line : List ℕ) (lines : List (List ℕ)) → IsHeard heard.entry line →
            ¬ (GoesOn (position_of self.old) (asks_left script.old) (line ∷ lines)) }
        ensures stands { result ≡ Ok false → (line : List ℕ) (lines : List (List ℕ)) → line ≢ no_memory_line →
            GoesOn (position_of self.old) (asks_left script.old) (line ∷ lines) ↔ GoesOn (position_of self.new) (asks_left script.new) (line ∷ lines) }
        ensures refused { result ≡ Ok false → (line : List ℕ) → IsHeard heard.entry line →
            IsRefusedAt (position_of self.new) (asks_left script.new) line }
        ensures reads { OnOk result (self.old.has_read ≡ false → ReadNone (asks_left script.old) → self.new.has_read ≡ false) }
        ensures along { OnOk result (GoesAlong script.old script.new) }
    {
        lines_that_ask_nothing_have_no_answer();
        answers_are_recited_line_by_line();
        if let Some(answer) = self.answer {
            return self.hear_within(answer, heard);
        }
        if !self.recital.is_empty() {
            return Ok(self.recite(heard));
        }
        match next_asked(script) {
            Some(asked) => self.begin(asked, heard),
            None => Ok(false),
        }
    }

    /// Whether the transcript may end here: no answer is begun, and no line of the script is left that has an answer.
    pub(crate) fn may_end(&self, script: &mut Script<'_>) -> bool
        ensures { IsTrue result ↔ GoesOn (position_of self.now) (asks_left script.old) [] }
    {
        lines_that_ask_nothing_have_no_answer();
        exact_answers_are_recited();
        reasons_are_recited();
        answers_are_heard();
        answers_are_heard_line_by_line();
        answers_are_recited_line_by_line();
        self.answer.is_none() && self.recital.is_empty() && next_asked(script).is_none()
    }
}
