//! The next line of an answer that is heard event by event.
ghost use Rattle.std.specs.Prelude.{◌≡◌, [], false, true, IfOk, IsTrue, None, OnOk, Some};
ghost use Rattle.cc_lists.specs.Members.{has};
ghost use Rattle.cc_names.specs.declared.name.Name.{Name as TheName};
ghost use Rattle.cc_names.specs.Names.{same_name};
ghost use Rattle.cc_model.specs.declared.item.Reply.TheVariants as replies;
ghost use Rattle.cc_model.specs.Listed.{after_event, after_reply};
ghost use Rattle.cc_verdict.specs.GoingOn.{CanGoOn};
ghost use Rattle.cc_verdict.specs.Hearing.{MayCome, MayEnd, place_ended, with_told};
ghost use Rattle.cc_verdict.specs.Positions.{reciting, within};
ghost use Rattle.cc_check.specs.Judging.{IsJudged, MayGoOn};
ghost use Rattle.cc_check.specs.Standing.{IsKept, hearing_in, makes, position_of};

use crate::answer::Answer;
use crate::asked::Asked;
use crate::commands::lists;
use crate::heard::Heard;
use crate::judge::Judge;
use crate::numbers::{events_have_small_numbers, replies_have_small_numbers};
use cc_listed::Listed;
use cc_model::{Command, Event, Reply};
use cc_names::NoMemory;
use cc_verdict::{
    all_that_is_reached_is_listed, answers_are_heard_line_by_line,
    answers_are_recited_line_by_line, lines_tell_items_apart,
};

impl Judge {
    /// Hears the next line of an answer: an event that may come, or a reply that may end it.
    pub(crate) fn hear_within(&mut self, answer: Answer, heard: Heard<'_>) -> Result<bool, NoMemory>
        requires kept { IsKept self.old }
        requires answer { self.old.answer ≡ Some answer }
        requires can { CanGoOn (within (hearing_in self.old answer)) [] }
        ensures judged { IfOk result (IsJudged heard.entry (MayGoOn (hearing_in self.old answer)) self.new) }
        ensures reads { OnOk result (self.new.has_read ≡ self.old.has_read) }
    {
        answers_are_heard_line_by_line();
        answers_are_recited_line_by_line();
        lines_tell_items_apart();
        if let Some(event) = heard.event() {
            events_have_small_numbers(event);
            return self.hear_event(answer, event);
        }
        match answer.ended_by(heard) {
            Some(reply) => {
                replies_have_small_numbers(reply);
                self.end(answer, reply)?;
                Ok(true)
            }
            None => Ok(false),
        }
    }

    /// Whether an event may come next; the answer goes on after it.
    fn hear_event(&mut self, answer: Answer, event: Event) -> Result<bool, NoMemory>
        requires kept { IsKept self.old }
        requires answer { self.old.answer ≡ Some answer }
        ensures kept { OnOk result (IsKept self.new) }
        ensures yes { IfOk result (λ b. b ≡ true → MayCome (hearing_in self.old answer) event) }
        ensures place { IfOk result (λ b. b ≡ true → position_of self.new ≡ within (with_told (hearing_in self.old answer) event)) }
        ensures no { IfOk result (λ b. b ≡ false → ¬ (MayCome (hearing_in self.old answer) event)) }
        ensures stays { IfOk result (λ b. b ≡ false → position_of self.new ≡ within (hearing_in self.old answer)) }
        ensures reads { OnOk result (self.new.has_read ≡ self.old.has_read) }
    {
        all_that_is_reached_is_listed();
        if !answer.may_come(event) {
            return Ok(false);
        }
        if !self.known.is_of_garbage(&self.graph, &self.listed, event)? {
            return Ok(false);
        }
        take_out(&mut self.listed, event);
        self.ended.add(event)?;
        self.answer = Some(answer.after(event));
        Ok(true)
    }

    /// Ends the answer with a reply that may end it.
    fn end(&mut self, answer: Answer, reply: Reply) -> Result<(), NoMemory>
        requires kept { IsKept self.old }
        requires answer { self.old.answer ≡ Some answer }
        requires may_end { MayEnd (hearing_in self.old answer) reply }
        ensures kept { OnOk result (IsKept self.new) }
        ensures place { OnOk result (position_of self.new ≡ reciting [] (place_ended (hearing_in self.old answer) reply)) }
        ensures reads { OnOk result (self.new.has_read ≡ self.old.has_read) }
    {
        all_that_is_reached_is_listed();
        self.row = self.row.after(Asked::Taken(answer.command), reply);
        self.answer = None;
        put_in(&mut self.listed, answer.command, reply)?;
        Ok(())
    }
}

/// Takes out what an event says is freed.
fn take_out(listed: &mut Listed, event: Event)
    ensures { listed.new ≡ after_event listed.old event }
{
    if let Event::Freed(name) = event {
        listed.remove(&name);
    }
}

/// Puts in what a reply names, where a census lists it from then on.
fn put_in(listed: &mut Listed, command: Command, reply: Reply) -> Result<(), NoMemory>
    requires { (x : TheName) → reply ≡ replies.Named x → makes command ≡ true → has same_name listed.old x ≡ false }
    ensures { OnOk result (listed.new ≡ after_reply listed.old command (Some reply)) }
{
    let Reply::Named(name) = reply else {
        return Ok(());
    };
    if lists(command) && !listed.has(&name) {
        listed.push(name)?;
    }
    Ok(())
}
