//! An answer that is heard event by event.

ghost use Rattle.std.specs.Prelude.{◌≡◌, ◌↔◌, List, IfNone, IfSome, IsTrue, if◌then◌else◌, nat_le, ℕ};
ghost use Rattle.cc_names.specs.declared.name.Name.{Name};
ghost use Rattle.cc_names.specs.Names.{number_of};
ghost use Rattle.cc_model.specs.declared.item.Refusal.TheVariants as refusals;
ghost use Rattle.cc_model.specs.declared.item.Reply.{Reply as TheReply};
ghost use Rattle.cc_model.specs.declared.item.Reply.TheVariants as replies;
ghost use Rattle.cc_model.specs.Asks.{Ask};
ghost use Rattle.cc_model.specs.Graph.{Graph};
ghost use Rattle.cc_model.specs.Lawful.{is_refused, runs_allowed};
ghost use Rattle.cc_model.specs.Texts.{text_of_reply};
ghost use Rattle.cc_verdict.specs.Hearing.{EndsAbandoned, EndsAsTheGraph, MayEnd, may_come, may_go_on, nothing_told, runs_begun, runs_with, told_after};
ghost use Rattle.cc_verdict.specs.GoingOn.{CanGoOn};
ghost use Rattle.cc_verdict.specs.Positions.{within};
ghost use Rattle.cc_check.specs.declared.row.Row.{Row};
ghost use Rattle.cc_check.specs.Causes.{may_have};
ghost use Rattle.cc_check.specs.Judging.{reply_due};
ghost use Rattle.cc_check.specs.Standing.{IsHeard, hearing_of, told_of};

use crate::commands::{is_gc, may_free, may_unlink, runs_allowed, runs_units};
use crate::heard::Heard;
use cc_model::{Command, Event, Item, Refusal, Reply};
use cc_names::Name;

/// An answer that is heard: to which command, with which reply by the graph, and what was told of it so far.
#[derive(Clone, Copy, Drop)]
pub(crate) struct Answer {
    pub(crate) command: Command,
    pub(crate) reply: Reply,
    // the number of the native that was unlinked last, and how many rising runs these numbers make
    pub(crate) last: Option<u32>,
    pub(crate) runs: u32,
    // whether there was an event at all, and an abandonment
    pub(crate) any: bool,
    pub(crate) abandoned: bool,
}

impl Answer {
    /// Nothing was told yet.
    pub(crate) fn new(command: Command, reply: Reply) -> Answer
        ensures command { result.command ≡ command }
        ensures reply { result.reply ≡ reply }
        ensures told { (names ended : List Name) → told_of result names ended ≡ nothing_told names ended }
    {
        Answer {
            command,
            reply,
            last: None,
            runs: 0,
            any: false,
            abandoned: false,
        }
    }

    /// Whether an event is of a kind that may come next. Whether its object is garbage is not asked here.
    pub(crate) fn may_come(self, event: Event) -> bool
        ensures { (names ended : List Name) → result ≡ may_come self.command (told_of self names ended) event }
    {
        match event {
            Event::Freed(name) => may_free(self.command, name) && self.may_go_on(),
            Event::Unlinked(name) => {
                may_unlink(self.command, name) && self.may_go_on() && self.has_run_for(name)
            }
            Event::Abandoned => {
                if is_gc(self.command) {
                    !self.any
                } else {
                    runs_units(self.command) && !self.abandoned
                }
            }
        }
    }

    /// The answer after an event that may come.
    pub(crate) fn after(self, event: Event) -> Answer
        requires { (names ended : List Name) → IsTrue (may_come self.command (told_of self names ended) event) }
        ensures command { result.command ≡ self.command }
        ensures reply { result.reply ≡ self.reply }
        ensures told { (names ended : List Name) →
            told_of result (told_after (told_of self names ended) event).names (told_after (told_of self names ended) event).ended
            ≡ told_after (told_of self names ended) event }
    {
        let mut after = self;
        after.any = true;
        match event {
            Event::Freed(_) => {}
            Event::Unlinked(name) => {
                if self.begins_run(name) {
                    after.runs = self.runs + 1;
                }
                after.last = Some(number_of(name));
            }
            Event::Abandoned => after.abandoned = true,
        }
        after
    }

    /// The reply that ends the answer, where the line is its: that of the graph, or want of memory for a collection that was
    /// abandoned.
    pub(crate) fn ended_by(self, heard: Heard<'_>) -> Option<Reply>
        ensures line { IfSome result (λ r. (line : List ℕ) → IsHeard heard.entry line → line ≡ text_of_reply r) }
        ensures may_end { IfSome result (λ r. (g : Graph) (names ended : List Name) (row : Row) → MayEnd (hearing_of self g names ended row) r) }
        ensures none { IfNone result ((g : Graph) (names ended : List Name) (row : Row) (line : List ℕ) (r : TheReply) → IsHeard heard.entry line →
            line ≡ text_of_reply r → ¬ (MayEnd (hearing_of self g names ended row) r)) }
    {
        if self.ends_as_the_graph() && heard.is(&Item::Reply(self.reply)) {
            return Some(self.reply);
        }
        let refusal = Reply::Refused(Refusal::NoMemory);
        if self.ends_abandoned() && heard.is(&Item::Reply(refusal)) {
            return Some(refusal);
        }
        None
    }

    /// Whether the answer can still end: one with events is no refusal by the graph.
    pub(crate) fn can_go_on(self) -> bool
        ensures { (g : Graph) (names ended : List Name) (row : Row) (asks : List Ask) → IsTrue result ↔
            CanGoOn (within (hearing_of self g names ended row)) asks }
    {
        !(is_refused(self.reply) && !runs_units(self.command)) || !self.any
    }

    /// Whether the command may have an event at all.
    pub(crate) fn may_have(self, event: Event) -> bool
        ensures { result ≡ may_have self.command event }
    {
        match event {
            Event::Freed(name) => may_free(self.command, name),
            Event::Unlinked(name) => may_unlink(self.command, name),
            Event::Abandoned => is_gc(self.command) || runs_units(self.command),
        }
    }

    /// The one reply that can end it: want of memory where it was abandoned, and else that of the graph.
    pub(crate) fn reply_due(self) -> Reply
        ensures { (g : Graph) (names ended : List Name) (row : Row) → result ≡ reply_due (hearing_of self g names ended row) }
    {
        if runs_units(self.command) && self.abandoned {
            Reply::Refused(Refusal::NoMemory)
        } else {
            self.reply
        }
    }

    /// Whether anything may follow what was told: nothing follows an abandonment, but under a script collection.
    pub(crate) fn may_go_on(self) -> bool
        ensures { (names ended : List Name) → result ≡ may_go_on self.command (told_of self names ended) }
    {
        is_gc(self.command) || !self.abandoned
    }

    /// Whether the number of a native that is unlinked next begins a rising run.
    fn begins_run(self, name: Name) -> bool
        ensures { runs_begun self.last (number_of name) ≡ (if result then 1 else 0) }
    {
        match self.last {
            Some(last) => number_of(name) <= last,
            None => true,
        }
    }

    /// Whether the command allows as many rising runs as there are with a native that is unlinked next.
    pub(crate) fn has_run_for(self, name: Name) -> bool
        ensures { (names ended : List Name) → result ≡ nat_le (runs_with (told_of self names ended) name) (runs_allowed self.command) }
    {
        let allowed = runs_allowed(self.command);
        if self.begins_run(name) {
            self.runs < allowed
        } else {
            self.runs <= allowed
        }
    }

    /// Whether the reply of the graph may end it.
    fn ends_as_the_graph(self) -> bool
        ensures { (g : Graph) (names ended : List Name) (row : Row) → IsTrue result ↔ EndsAsTheGraph (hearing_of self g names ended row) self.reply }
    {
        let is_quiet = !(is_refused(self.reply) && self.any);
        let is_whole = !(runs_units(self.command) && self.abandoned);
        is_quiet && is_whole
    }

    /// Whether want of memory may end it.
    fn ends_abandoned(self) -> bool
        ensures { (g : Graph) (names ended : List Name) (row : Row) → IsTrue result ↔
            EndsAbandoned (hearing_of self g names ended row) (replies.Refused refusals.NoMemory) }
    {
        runs_units(self.command) && self.abandoned
    }
}

/// Whether a reply refuses its command.
fn is_refused(reply: Reply) -> bool
    ensures { result ≡ is_refused reply }
{
    match reply {
        Reply::Refused(_) => true,
        _ => false,
    }
}

/// The number in a name.
fn number_of(name: Name) -> u32
    ensures { result ≡ number_of name }
{
    match name {
        Name::Native(k) | Name::Reflector(k) => k.0,
        Name::Script(k) => k.0,
    }
}
