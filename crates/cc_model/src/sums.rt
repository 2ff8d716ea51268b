//! The ten numbers of a summary.

ghost use Rattle.std.specs.Prelude.{◌≡◌};
ghost use Rattle.cc_lists.specs.Faults.{raised};
ghost use Rattle.cc_model.specs.Summed.{none_summed, with_event, with_refusal, with_reply};

use crate::item::{Event, Refusal, Reply};

/// The ten numbers of a summary over some items. A count that stands at 18446744073709551615 stays there.
#[derive(Clone, Copy, Debug, PartialEq, Eq, Drop)]
pub struct Sums {
    /// Replies, which are one for each command that was answered.
    pub commands: u64,
    /// Replies `= ok`.
    pub ok: u64,
    /// Replies with a name.
    pub named: u64,
    /// Replies `= none`.
    pub none: u64,
    /// Refusals, `! nomem` aside.
    pub refused: u64,
    /// Refusals `! nomem`.
    pub nomem: u64,
    /// Collections that were given up.
    pub abandoned: u64,
    /// Natives that were unlinked.
    pub unlinked: u64,
    /// Objects that were freed.
    pub freed: u64,
    /// The number in the last reply to a census; 0 before the first.
    pub census: u64,
}

/// One more; the greatest count stays.
fn raise(count: &mut u64)
    ensures { count.new ≡ raised count.old 1 }
{
    *count = count.saturating_add(1);
}

impl Sums {
    /// Ten zeros.
    pub(crate) fn new() -> Sums
        ensures { result ≡ none_summed }
    {
        Sums {
            commands: 0,
            ok: 0,
            named: 0,
            none: 0,
            refused: 0,
            nomem: 0,
            abandoned: 0,
            unlinked: 0,
            freed: 0,
            census: 0,
        }
    }

    /// Counts an event.
    pub(crate) fn count_event(&mut self, event: Event)
        ensures { self.new ≡ with_event event self.old }
    {
        match event {
            Event::Unlinked(_) => raise(&mut self.unlinked),
            Event::Freed(_) => raise(&mut self.freed),
            Event::Abandoned => raise(&mut self.abandoned),
        }
    }

    /// Counts a refusal.
    fn count_refusal(&mut self, refusal: Refusal)
        ensures { self.new ≡ with_refusal refusal self.old }
    {
        match refusal {
            Refusal::NoMemory => raise(&mut self.nomem),
            _ => raise(&mut self.refused),
        }
    }

    /// Counts a reply, and the command that it answers.
    pub(crate) fn count_reply(&mut self, reply: Reply)
        ensures { self.new ≡ with_reply reply (record self.old { commands = raised self.old.commands 1 }) }
    {
        raise(&mut self.commands);
        match reply {
            Reply::Named(_) => raise(&mut self.named),
            Reply::Nothing => raise(&mut self.none),
            Reply::Done => raise(&mut self.ok),
            Reply::Census(count) => self.census = u64::from(count),
            Reply::Refused(refusal) => self.count_refusal(refusal),
        }
    }
}
