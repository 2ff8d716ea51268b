//! Why no lawful transcript goes on with a line: found once, where a judge said no.
ghost use Rattle.std.specs.Prelude.{◌≡◌, ◌∷◌, ℕ, List, [], IfNone, IfOk, IfSome, IsTrue, Some};
ghost use Rattle.cc_lists.specs.Members.{Among};
ghost use Rattle.cc_names.specs.declared.name.Name.{Name as TheName};
ghost use Rattle.cc_model.specs.Asks.{Ask};
ghost use Rattle.cc_model.specs.Derivations.{named};
ghost use Rattle.cc_model.specs.Texts.{text_of_event};
ghost use Rattle.cc_verdict.specs.GoingOn.{CanGoOn};
ghost use Rattle.cc_verdict.specs.Hearing.{MayCome, may_come};
ghost use Rattle.cc_verdict.specs.Positions.{within};
ghost use Rattle.cc_check.specs.Causes.{IsCause, IsDeadEnd, names_in};
ghost use Rattle.cc_check.specs.Judging.{IsRefusedAt};
ghost use Rattle.cc_check.specs.Standing.{IsHeard, IsKept, asks_left, hearing_in, position_of, told_of};

use crate::answer::Answer;
use crate::cause::Cause;
use crate::heard::Heard;
use crate::judge::Judge;
use crate::script::Script;
use cc_listed::Listed;
use cc_model::Event;
use cc_names::{Name, NoMemory};
use cc_search::Reach;

impl Judge {
    /// Why a line may not come where the judge stands. The judge is only let go then.
    pub(crate) fn cause(&mut self, script: Script<'_>, heard: Heard<'_>) -> Result<Cause, NoMemory>
        requires kept { IsKept self.old }
        requires refused { (line : List ℕ) → IsHeard heard line → IsRefusedAt (position_of self.old) (asks_left script) line }
        ensures { IfOk result (λ c. (line : List ℕ) → IsHeard heard.entry line → IsCause c (position_of self.old) (asks_left script.entry) line) }
    {
        if !heard.may_be_item() {
            return Ok(Cause::NoItem);
        }
        if let Some(answer) = self.answer {
            return self.cause_within(answer, heard);
        }
        match self.recital.pop() {
            Some(item) => Ok(Cause::Item(item)),
            None => Ok(Cause::Over),
        }
    }

    /// Why a line may not come within an answer that is heard event by event.
    fn cause_within(&mut self, answer: Answer, heard: Heard<'_>) -> Result<Cause, NoMemory>
        requires kept { IsKept self.old }
        requires answer { self.old.answer ≡ Some answer }
        requires refused { (line : List ℕ) → IsHeard heard line → IsRefusedAt (within (hearing_in self.old answer)) [] line }
        ensures { IfOk result (λ c. (asks : List Ask) (line : List ℕ) → IsHeard heard.entry line →
            IsCause c (within (hearing_in self.old answer)) asks line) }
    {
        match heard.event() {
            Some(event) => self.cause_of_event(answer, event),
            None => Ok(Cause::Reply(answer.reply_due())),
        }
    }

    /// Why an event may not come.
    fn cause_of_event(&mut self, answer: Answer, event: Event) -> Result<Cause, NoMemory>
        requires kept { IsKept self.old }
        requires answer { self.old.answer ≡ Some answer }
        requires refused { ¬ (MayCome (hearing_in self.old answer) event) }
        ensures { IfOk result (λ c. (asks : List Ask) (line : List ℕ) → line ≡ text_of_event event →
            IsCause c (within (hearing_in self.old answer)) asks line) }
    {
        if !answer.may_have(event) {
            return Ok(Cause::Forbidden(event));
        }
        match event {
            Event::Abandoned => Ok(Cause::Misplaced(event)),
            Event::Freed(name) => {
                if !answer.may_go_on() {
                    return Ok(Cause::Misplaced(event));
                }
                self.cause_of_name(answer, event, name)
            }
            Event::Unlinked(name) => {
                if !answer.may_go_on() {
                    return Ok(Cause::Misplaced(event));
                }
                if !answer.has_run_for(name) {
                    return Ok(Cause::OutOfOrder(event));
                }
                self.cause_of_name(answer, event, name)
            }
        }
    }

    /// Why an object may not be freed or unlinked where others may: it is not listed, or reached.
    fn cause_of_name(&mut self, answer: Answer, event: Event, name: Name) -> Result<Cause, NoMemory>
        requires kept { IsKept self.old }
        requires may { IsTrue (may_come answer.command (told_of answer self.old.listed self.old.ended) event) }
        requires of { names_in event ≡ name ∷ [] }
        requires refused { ¬ (MayCome (hearing_in self.old answer) event) }
        ensures { IfOk result (λ c. (asks : List Ask) (line : List ℕ) → line ≡ text_of_event event →
            IsCause c (within (hearing_in self.old answer)) asks line) }
    {
        if !self.listed.has(&name) {
            return Ok(Cause::Unlisted(event));
        }
        self.known.find(&self.graph)?;
        let steps = self.known.reach.path_to(self.alloc, &name)?;
        Ok(Cause::Reached(event, steps))
    }

    /// Why no line may come behind those that came. The judge is only let go then.
    pub(crate) fn dead_end(&mut self, script: Script<'_>) -> Result<Cause, NoMemory>
        requires kept { IsKept self.old }
        requires dead { ¬ (CanGoOn (position_of self.old) (asks_left script)) }
        ensures { IfOk result (λ c. IsDeadEnd c (position_of self.old) (asks_left script.entry)) }
    {
        if let Some(answer) = self.answer {
            return Ok(Cause::Refused(answer.reply));
        }
        let names = self.listed.census(self.alloc)?;
        self.known.find(&self.graph)?;
        match first_unfound(&self.known.reach, names.as_slice()) {
            Some(name) => Ok(Cause::Kept(name)),
            None => Ok(Cause::Lost(first_unlisted(&self.known.reach, &self.listed))),
        }
    }
}

/// The first of the objects that were found that is not listed, where there is one.
fn first_unlisted(reach: &Reach, listed: &Listed) -> Name
    requires some { ¬ ((x : TheName) → Among x (named reach.now) → Among x listed.now) }
    ensures found { Among result (named reach.now) }
    ensures unlisted { ¬ (Among result listed.now) }
{
    for i in 0..reach.len() {
        let found = reach.name(i);
        if !listed.has(&found) {
            return found;
        }
    }
    unreachable!()
}

/// The first of some objects that was not found, if there is one.
fn first_unfound(reach: &Reach, names: &[Name]) -> Option<Name>
    ensures some { IfSome result (λ x. Among x names.now × (¬ (Among x (named reach.now)))) }
    ensures none { IfNone result ((x : TheName) → Among x names.now → Among x (named reach.now)) }
{
    for name in names {
        if !reach.has(name) {
            return Some(*name);
        }
    }
    None
}
