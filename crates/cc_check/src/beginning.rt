//! The first line of an answer.
ghost use Rattle.std.specs.Prelude.{◌≡◌, ◌↔◌, ◌<◌, ℕ, List, [], false, length, reverse, true, IfOk, IsTrue, None, OnOk, Some};
ghost use Rattle.cc_laws_run.specs.Running.{ask_in_range};
ghost use Rattle.cc_names.specs.declared.name.Name.{Name as TheName};
ghost use Rattle.cc_model.specs.declared.command.Command.TheVariants as command;
ghost use Rattle.cc_model.specs.declared.item.Refusal.TheVariants as refusals;
ghost use Rattle.cc_model.specs.declared.item.Reply.TheVariants as replies;
ghost use Rattle.cc_model.specs.Answers.{replying};
ghost use Rattle.cc_model.specs.Asks.{taken};
ghost use Rattle.cc_model.specs.Checks.{refusal_of};
ghost use Rattle.cc_model.specs.Derivations.{done_or_nothing};
ghost use Rattle.cc_model.specs.Graph.{objects_of};
ghost use Rattle.cc_model.specs.Lawful.{may_want_memory, runs_units, state_of};
ghost use Rattle.cc_model.specs.Mutating.{reads_weakly};
ghost use Rattle.cc_model.specs.Quiet.{CensusIsQuiet, row_after};
ghost use Rattle.cc_model.specs.Ranges.{in_range};
ghost use Rattle.cc_model.specs.Texts.{text_of_reply};
ghost use Rattle.cc_verdict.specs.Following.{place_after};
ghost use Rattle.cc_verdict.specs.Hearing.{hearing, is_heard};
ghost use Rattle.cc_verdict.specs.Positions.{reciting};
ghost use Rattle.cc_check.specs.Judging.{IsBetween, IsJudged, IsRefusal, MayAnswer, MayRecite, asks_nothing};
ghost use Rattle.cc_check.specs.Standing.{IsHeard, IsKept, ask_meant, ask_reads, hearing_in, place_of, position_of, row_meant};

use crate::answer::Answer;
use crate::asked::Asked;
use crate::commands::{has_read_after, may_want_memory, runs_units};
use crate::heard::Heard;
use crate::judge::Judge;
use crate::reciting::{explain, list};
use crate::row::Row;
use crate::stepping::step;
use cc_model::{Command, Item, Refusal, Reply};
use cc_names::{Name, NoMemory, narrow_key};
use cc_verdict::{
    all_that_is_reached_is_listed, answers_are_heard, answers_are_recited_line_by_line,
    exact_answers_are_recited, lines_tell_items_apart, reasons_are_recited,
};

impl Judge {
    /// Begins the answer to what was asked, and hears its first line.
    pub(crate) fn begin(&mut self, asked: Asked, heard: Heard<'_>) -> Result<bool, NoMemory>
        requires between { IsBetween self.old }
        requires in_range { IsTrue (ask_in_range (ask_meant asked)) }
        requires answered { asks_nothing (ask_meant asked) ≡ false }
        requires quiet { CensusIsQuiet (row_meant self.old.row) (state_of self.old.graph self.old.listed self.old.ended) (ask_meant asked) }
        ensures judged { IfOk result (IsJudged heard.entry (MayAnswer (place_of self.old) (ask_meant asked)) self.new) }
        ensures reads { OnOk result (self.old.has_read ≡ false → ask_reads (ask_meant asked) ≡ false → self.new.has_read ≡ false) }
    {
        match asked {
            Asked::Long => self.refuse(asked, Refusal::Long, heard),
            Asked::Bad => self.refuse(asked, Refusal::Line, heard),
            Asked::Taken(Command::Census) => self.begin_census(heard),
            Asked::Taken(Command::Why(name)) => self.begin_reasons(name, heard),
            Asked::Taken(command) => self.begin_command(command, heard),
        }
    }

    /// Refuses a line that is too long or not in the grammar.
    fn refuse(&mut self, asked: Asked, refusal: Refusal, heard: Heard<'_>) -> Result<bool, NoMemory>
        requires between { IsBetween self.old }
        requires refused { IsRefusal (ask_meant asked) refusal }
        ensures judged { IfOk result (IsJudged heard.entry (MayAnswer (place_of self.old) (ask_meant asked)) self.new) }
        ensures reads { OnOk result (self.new.has_read ≡ self.old.has_read) }
    {
        exact_answers_are_recited();
        let reply = Reply::Refused(refusal);
        list(&mut self.recital, Vec::new(self.alloc), reply)?;
        let row = self.row;
        self.row = row.after(asked, reply);
        Ok(self.recite(heard))
    }

    /// Begins a census. Where it must list exactly the reached objects, it does.
    fn begin_census(&mut self, heard: Heard<'_>) -> Result<bool, NoMemory>
        requires between { IsBetween self.old }
        requires quiet { CensusIsQuiet (row_meant self.old.row) (state_of self.old.graph self.old.listed self.old.ended) (taken command.Census) }
        ensures judged { IfOk result (IsJudged heard.entry (MayAnswer (place_of self.old) (taken command.Census)) self.new) }
        ensures reads { OnOk result (self.new.has_read ≡ self.old.has_read) }
    {
        exact_answers_are_recited();
        let names = self.listed.census(self.alloc)?;
        let count = narrow_key(self.listed.len())?;
        list(&mut self.recital, names, Reply::Census(count))?;
        self.row = Row::NothingYet;
        Ok(self.recite(heard))
    }

    /// Begins to say why an object is reached. Want of memory may come in its place.
    fn begin_reasons(&mut self, name: Name, heard: Heard<'_>) -> Result<bool, NoMemory>
        requires between { IsBetween self.old }
        ensures judged { IfOk result (IsJudged heard.entry (MayAnswer (place_of self.old) (taken (command.Why name))) self.new) }
        ensures reads { OnOk result (self.new.has_read ≡ self.old.has_read) }
    {
        reasons_are_recited();
        answers_are_recited_line_by_line();
        let refusal = Reply::Refused(Refusal::NoMemory);
        if self.hear_reply(Asked::Taken(Command::Why(name)), refusal, heard) {
            return Ok(true);
        }
        self.known.find(&self.graph)?;
        let steps = self.known.reach.path_to(self.alloc, &name)?;
        let reply = done_or_nothing(self.known.reach.has(&name));
        explain(&mut self.recital, steps, reply)?;
        Ok(self.recite(heard))
    }

    /// Begins the answer to another command. Want of memory may come in its place, where the command may want memory.
    fn begin_command(&mut self, command: Command, heard: Heard<'_>) -> Result<bool, NoMemory>
        requires between { IsBetween self.old }
        requires in_range { IsTrue (in_range command) }
        requires is_heard { IsTrue (is_heard command) }
        ensures judged { IfOk result (IsJudged heard.entry (MayAnswer (place_of self.old) (taken command)) self.new) }
        ensures reads { OnOk result (self.old.has_read ≡ false → reads_weakly command ≡ false → self.new.has_read ≡ false) }
    {
        answers_are_heard();
        answers_are_recited_line_by_line();
        lines_tell_items_apart();
        if heard.is(&Item::Reply(Reply::Refused(Refusal::NoMemory))) {
            if self.want_memory(command) {
                return Ok(true);
            }
            self.step(command)?;
            return Ok(false);
        }
        let answer = self.step(command)?;
        self.hear_within(answer, heard)
    }

    /// Answers a command with want of memory alone, where it may be; and else does nothing.
    fn want_memory(&mut self, command: Command) -> bool
        requires between { IsBetween self.old }
        ensures kept { result ≡ true → IsKept self.new }
        ensures reads { self.new.has_read ≡ self.old.has_read }
        ensures place { result ≡ true →
            position_of self.new ≡ reciting [] (place_after (place_of self.old) (taken command) (replying [] (replies.Refused refusals.NoMemory))) }
        ensures same { result ≡ false → self.new ≡ self.old }
        ensures may { IsTrue result ↔ ((may_want_memory (place_of self.old).state command ≡ true)
            × (refusal_of (objects_of self.old.graph) command ≡ None) × (runs_units command ≡ false)) }
    {
        if !self.may_want_memory(command) {
            return false;
        }
        let row = self.row;
        self.row = row.after(Asked::Taken(command), Reply::Refused(Refusal::NoMemory));
        true
    }

    /// Whether want of memory alone may answer a command.
    fn may_want_memory(&self, command: Command) -> bool
        ensures { IsTrue result ↔ ((may_want_memory (place_of self.now).state command ≡ true)
            × (refusal_of (objects_of self.now.graph) command ≡ None) × (runs_units command ≡ false)) }
    {
        may_want_memory(&self.graph, &self.listed, command)
            && self.graph.refusal(&command).is_none()
            && !runs_units(command)
    }

    /// Does a command in the graph, and begins the answer to it.
    fn step(&mut self, command: Command) -> Result<Answer, NoMemory>
        requires between { IsBetween self.old }
        requires in_range { IsTrue (in_range command) }
        requires is_heard { IsTrue (is_heard command) }
        ensures kept { OnOk result (IsKept self.new) }
        ensures answer { IfOk result (λ a. self.new.answer ≡ Some a) }
        ensures hearing { IfOk result (λ a. hearing_in self.new a ≡ hearing (place_of self.old) command) }
        ensures reads { OnOk result (self.old.has_read ≡ false → reads_weakly command ≡ false → self.new.has_read ≡ false) }
    {
        all_that_is_reached_is_listed();
        let reply = step(&mut self.graph, &self.ended, command)?;
        self.known.go_on(command);
        self.has_read = has_read_after(self.has_read, command);
        let answer = Answer::new(command, reply);
        self.answer = Some(answer);
        Ok(answer)
    }

    /// Hears a reply that is the whole answer and changes neither the graph nor what is listed.
    fn hear_reply(&mut self, asked: Asked, reply: Reply, heard: Heard<'_>) -> bool
        requires between { IsBetween self.old }
        ensures between { IsBetween self.new }
        ensures reads { self.new.has_read ≡ self.old.has_read }
        ensures place { place_of self.new ≡ record (place_of self.old) { row = row_after (row_meant self.old.row) (ask_meant asked) (replying [] reply) } }
        ensures heard { (line : List ℕ) → IsHeard heard.entry line → IsTrue result ↔ (line ≡ text_of_reply reply) }
    {
        let row = self.row;
        self.row = row.after(asked, reply);
        heard.is(&Item::Reply(reply))
    }

    /// Hears the next item of an answer that is recited.
    pub(crate) fn recite(&mut self, heard: Heard<'_>) -> bool
        requires kept { IsKept self.old }
        requires answer { self.old.answer ≡ None }
        requires left { 0 < length self.old.recital.items }
        ensures judged { IsJudged heard.entry (MayRecite (reverse self.old.recital.items) (place_of self.old)) self.new result }
        ensures reads { self.new.has_read ≡ self.old.has_read }
    {
        answers_are_recited_line_by_line();
        let last = self.recital.len() - 1;
        if !heard.is(&self.recital[last]) {
            return false;
        }
        self.recital.truncate(last);
        true
    }
}

/// The reply to `why`, where steps lead to the object and where none do.
fn done_or_nothing(is_found: bool) -> Reply
    ensures { result ≡ done_or_nothing is_found }
{
    if is_found {
        Reply::Done
    } else {
        Reply::Nothing
    }
}
