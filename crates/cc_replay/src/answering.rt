//! Lines read, and each answered before the next is read.

ghost use Rattle.std.specs.Prelude.{◌≡◌, ◌≢◌, ◌<◌, ◌≤◌, ◌+◌, ℕ, List, [], ◌∷◌, ◌++◌, length, Option, Some, None, OnErr, Ok, Err, OnOk, IfOk, IfSome, false, true, IsTrue};
ghost use Rattle.cc_lists.specs.Faults.{raised, Rose};
ghost use Rattle.cc_reader.specs.HasRead.{ReadsOn};
ghost use Rattle.cc_reader.specs.Pending.{nothing_read, weight};
ghost use Rattle.cc_reader.specs.Given.{HasGiven, IsBroken, IsOver, AreAllGiven, AreFirst};
ghost use Rattle.cc_model.specs.declared.command.Command.TheVariants as command;
ghost use Rattle.cc_model.specs.Ranges.{in_range};
ghost use Rattle.cc_model.specs.Asks.{asks_of, taken};
ghost use Rattle.cc_model.specs.Heap.{empty_heap};
ghost use Rattle.cc_replay.specs.Answered.{IsAnswered};
ghost use Rattle.cc_collector.specs.Kept.{Kept, RunsIn};
ghost use Rattle.cc_names.specs.Sizes.{weak_length};
ghost use Rattle.cc_model.specs.Slots.{empty_slots};
ghost use Rattle.cc_weakrefs.specs.declared.noted.Noted.{Noted};
ghost use Rattle.cc_weakrefs.specs.Noting.{HoldKeys, names_noted};
ghost use Rattle.cc_replay.specs.Beside.{KeepsNoted, machine_beside};
ghost use Rattle.cc_heaps.specs.Few.{AreFew};
ghost use Rattle.cc_heaps.specs.Keyed.{IsInOrder};
ghost use Rattle.cc_heaps.specs.Standing.{KeepsSuspected};
ghost use Rattle.cc_model.specs.Mutating.{is_applied};
ghost use Rattle.cc_replay.specs.Answering.{Answers, EndsBy, GivesLine, LineIsAnswered, moment};
ghost use Rattle.cc_replay.specs.Transcripts.{ends, Counts, IsDone, StopsAtFault, StopsAtLimit, StopsAtWrite};

use crate::outlet::Reports;
use crate::status::Status;
use cc_collector::{Collector, Steps};
use cc_heaps::Heaps;
use cc_model::{Command, Dialect, Item, Notices, Refusal, Reply};
use cc_mutator::apply;
use cc_names::{Name, NoMemory};
use cc_outside::Source;
use cc_paths::why;
use cc_reader::{Line, Lines, ReadStop, parse};
use cc_skip::forget;
use cc_weakrefs::WeakRegs;
use std::alloc::Global;
use std::marker::Brand;
use std::sync::ledger::{Blank, Ledger};

/// Answers `census`: lists what is there, and tells how many there are.
fn answer_census<N: Notices>(heaps: &Heaps, out: &mut N)
    requires order { IsInOrder [] heaps.now }
    ensures { (c : Kept) (weak : List (Option Noted)) → IsAnswered (machine_beside heaps.now c weak) (machine_beside heaps.now c weak)
        (taken command.Census) (N.telling out.old) (N.telling out.new) }
{
    let count = heaps.census(out);
    out.tell(Item::Reply(Reply::Census(count)));
}

/// Answers `slice`. Nobody asks for its steps.
fn answer_slice<L: Ledger, N: Notices>(
    units: u32,
    heaps: &mut Heaps,
    collector: &mut Collector,
    out: &mut N,
    blank: Blank,
)
    requires runs { RunsIn heaps.old collector.old }
    requires name { blank.name ≡ L.name }
    requires parts { blank.parts ≡ L.parts }
    requires some { 0 < L.parts }
    ensures answered { (weak : List (Option Noted)) → IsAnswered (machine_beside heaps.old collector.old weak) (machine_beside heaps.new collector.new weak)
        (taken (command.Slice units)) (N.telling out.old) (N.telling out.new) }
    ensures noted { KeepsNoted heaps.old heaps.new }
    ensures runs { RunsIn heaps.new collector.new }
{
    let mut steps = Steps::<L>::new(blank);
    match collector.slice(heaps, units, out, &mut steps) {
        Ok(_) => out.tell(Item::Reply(Reply::Done)),
        Err(NoMemory) => out.tell(Item::Reply(Reply::Refused(Refusal::NoMemory))),
    }
}

/// Answers `collect`.
fn answer_collect<N: Notices>(heaps: &mut Heaps, collector: &mut Collector, out: &mut N)
    requires runs { RunsIn heaps.old collector.old }
    ensures answered { (weak : List (Option Noted)) → IsAnswered (machine_beside heaps.old collector.old weak) (machine_beside heaps.new collector.new weak)
        (taken command.Collect) (N.telling out.old) (N.telling out.new) }
    ensures noted { KeepsNoted heaps.old heaps.new }
    ensures runs { RunsIn heaps.new collector.new }
{
    match collector.whole(heaps, out) {
        Ok(()) => out.tell(Item::Reply(Reply::Done)),
        Err(NoMemory) => out.tell(Item::Reply(Reply::Refused(Refusal::NoMemory))),
    }
}

/// Answers `gc`.
fn answer_gc<N: Notices>(heaps: &mut Heaps, collector: &mut Collector, out: &mut N)
    requires runs { RunsIn heaps.old collector.old }
    ensures answered { (weak : List (Option Noted)) → IsAnswered (machine_beside heaps.old collector.old weak) (machine_beside heaps.new collector.new weak)
        (taken command.Gc) (N.telling out.old) (N.telling out.new) }
    ensures noted { KeepsNoted heaps.old heaps.new }
    ensures runs { RunsIn heaps.new collector.new }
{
    collector.gc(heaps, out);
    out.tell(Item::Reply(Reply::Done));
}

/// Answers `mark`, which is never refused. Nobody asks for its steps.
fn answer_mark<L: Ledger, N: Notices>(
    units: u32,
    heaps: &mut Heaps,
    collector: &mut Collector,
    out: &mut N,
    blank: Blank,
)
    requires runs { RunsIn heaps.old collector.old }
    requires name { blank.name ≡ L.name }
    requires parts { blank.parts ≡ L.parts }
    requires some { 0 < L.parts }
    ensures answered { (weak : List (Option Noted)) → IsAnswered (machine_beside heaps.old collector.old weak) (machine_beside heaps.new collector.new weak)
        (taken (command.Mark units)) (N.telling out.old) (N.telling out.new) }
    ensures noted { KeepsNoted heaps.old heaps.new }
    ensures runs { RunsIn heaps.new collector.new }
{
    let mut steps = Steps::<L>::new(blank);
    collector.mark(heaps, units, out, &mut steps);
    out.tell(Item::Reply(Reply::Done));
}

/// Answers a command of the mutator: what it deletes is told, and then its reply. It forgets no native that nothing
/// reaches, whatever the candidates of a running collection are.
fn answer_mutator<N: Notices>(
    command: &Command,
    heaps: &mut Heaps,
    weak: &mut WeakRegs,
    collector: &Collector,
    out: &mut N,
)
    requires applied { IsTrue (is_applied command.now) }
    requires in_range { IsTrue (in_range command.now) }
    requires runs { RunsIn heaps.old collector.now }
    requires keys { HoldKeys weak.old heaps.old }
    ensures answered { IsAnswered (machine_beside heaps.old collector.now weak.old) (machine_beside heaps.new collector.now weak.new)
        (taken command.now) (N.telling out.old) (N.telling out.new) }
    ensures keys { HoldKeys weak.new heaps.new }
    ensures remembers { KeepsSuspected heaps.old.heap heaps.new.heap }
    ensures runs { RunsIn heaps.new collector.now }
{
    let reply = apply(heaps, weak, command, out);
    out.tell(Item::Reply(reply));
}

/// Answers `forget`: suspects that the registers reach over edges lose their mark. It forgets no native that nothing reaches,
/// whatever the candidates of a running collection are.
fn answer_forget<N: Notices>(heaps: &mut Heaps, collector: &Collector, out: &mut N)
    requires runs { RunsIn heaps.old collector.now }
    ensures answered { (weak : List (Option Noted)) → IsAnswered (machine_beside heaps.old collector.now weak) (machine_beside heaps.new collector.now weak)
        (taken command.Forget) (N.telling out.old) (N.telling out.new) }
    ensures noted { KeepsNoted heaps.old heaps.new }
    ensures remembers { KeepsSuspected heaps.old.heap heaps.new.heap }
    ensures runs { RunsIn heaps.new collector.now }
{
    forget(heaps);
    out.tell(Item::Reply(Reply::Done));
}

/// Answers `why`: tells how the registers reach the object, or that none does.
fn answer_why<N: Notices>(alloc: Global, name: &Name, heaps: &Heaps, out: &mut N)
    requires order { IsInOrder [] heaps.now }
    ensures { (c : Kept) (weak : List (Option Noted)) → IsAnswered (machine_beside heaps.now c weak) (machine_beside heaps.now c weak)
        (taken (command.Why name.now)) (N.telling out.old) (N.telling out.new) }
{
    match why(alloc, heaps, name, out) {
        Ok(true) => out.tell(Item::Reply(Reply::Done)),
        Ok(false) => out.tell(Item::Reply(Reply::Nothing)),
        Err(NoMemory) => out.tell(Item::Reply(Reply::Refused(Refusal::NoMemory))),
    }
}

/// Answers a command that the grammar gives.
fn answer_command<N: Notices>(
    alloc: Global,
    command: Command,
    heaps: &mut Heaps,
    weak: &mut WeakRegs,
    collector: &mut Collector,
    out: &mut N,
)
    requires in_range { IsTrue (in_range command) }
    requires runs { RunsIn heaps.old collector.old }
    requires keys { HoldKeys weak.old heaps.old }
    ensures answered { IsAnswered (machine_beside heaps.old collector.old weak.old) (machine_beside heaps.new collector.new weak.new)
        (taken command) (N.telling out.old) (N.telling out.new) }
    ensures keys { HoldKeys weak.new heaps.new }
    ensures counts { AreFew heaps.new.heap }
    ensures runs { RunsIn heaps.new collector.new }
{
    match command {
        Command::Nothing => {}
        Command::Version2 => out.tell(Item::Reply(Reply::Done)),
        Command::Forget => answer_forget(heaps, collector, out),
        Command::Why(name) => answer_why(alloc, &name, heaps, out),
        Command::Census => answer_census(heaps, out),
        Command::Slice(units) => {
            answer_slice::<Brand, N>(units, heaps, collector, out, Blank::new(1))
        }
        Command::Collect => answer_collect(heaps, collector, out),
        Command::Gc => answer_gc(heaps, collector, out),
        Command::Mark(units) => {
            answer_mark::<Brand, N>(units, heaps, collector, out, Blank::new(1))
        }
        _ => answer_mutator(&command, heaps, weak, collector, out),
    }
}

/// Answers a line of at most 120 bytes, which decides how the next is read.
fn answer_text<N: Notices>(
    alloc: Global,
    text: &[u8],
    dialect: &mut Dialect,
    heaps: &mut Heaps,
    weak: &mut WeakRegs,
    collector: &mut Collector,
    out: &mut N,
)
    requires short { length text.now ≤ 120 }
    requires runs { RunsIn heaps.old collector.old }
    requires keys { HoldKeys weak.old heaps.old }
    ensures keys { HoldKeys weak.new heaps.new }
    ensures answered { LineIsAnswered dialect.old dialect.new (machine_beside heaps.old collector.old weak.old)
        (machine_beside heaps.new collector.new weak.new)
        text.now (N.telling out.old) (N.telling out.new) }
    ensures runs { RunsIn heaps.new collector.new }
{
    let asked = parse(text, *dialect);
    *dialect = dialect.after(asked);
    match asked {
        Some(command) => answer_command(alloc, command, heaps, weak, collector, out),
        None => out.tell(Item::Reply(Reply::Refused(Refusal::Line))),
    }
}

/// What came next in the source.
#[derive(Clone, Copy, Debug, PartialEq, Eq, Drop)]
enum Next {
    /// A line, which is answered.
    Answered,
    /// Nothing: the source is at its end.
    End,
}

/// Reads the next line and answers it.
fn answer_next<S: Source, N: Notices>(
    alloc: Global,
    lines: &mut Lines<'_, S>,
    dialect: &mut Dialect,
    heaps: &mut Heaps,
    weak: &mut WeakRegs,
    collector: &mut Collector,
    out: &mut N,
) -> Result<Next, ReadStop>
    requires going { lines.old.stopped ≡ false }
    requires runs { RunsIn heaps.old collector.old }
    requires keys { HoldKeys weak.old heaps.old }
    ensures keys { HoldKeys weak.new heaps.new }
    ensures answered { result ≡ Ok Next.Answered → (line : List ℕ)
        × GivesLine (S.left lines.old.source.now) (S.left lines.new.source.now) lines.old.window lines.new.window line
        × LineIsAnswered dialect.old dialect.new (machine_beside heaps.old collector.old weak.old) (machine_beside heaps.new collector.new weak.new) line
        (N.telling out.old) (N.telling out.new) }
    ensures going_on { result ≡ Ok Next.Answered → lines.new.stopped ≡ false }
    ensures falls { result ≡ Ok Next.Answered → weight lines.new.window < weight lines.old.window }
    ensures whole { result ≡ Ok Next.End → (start : Option (List ℕ)) (given : List (List ℕ)) →
        HasGiven start (S.left lines.old.source.now) lines.old.window given →
        AreAllGiven start (S.left lines.new.source.now) lines.new.window given }
    ensures fault { result ≡ Err ReadStop.Fault → (start : Option (List ℕ)) (given : List (List ℕ)) →
        HasGiven start (S.left lines.old.source.now) lines.old.window given →
        IsBroken start (S.left lines.new.source.now) lines.new.window given }
    ensures over { result ≡ Err ReadStop.Limit → (start : Option (List ℕ)) (given : List (List ℕ)) →
        HasGiven start (S.left lines.old.source.now) lines.old.window given →
        IsOver start (S.left lines.new.source.now) lines.new.window given }
    ensures quiet { result ≡ Ok Next.End → (dialect.new ≡ dialect.old) × (heaps.new ≡ heaps.old) × (weak.new ≡ weak.old) × (collector.new ≡ collector.old) ×
        (N.telling out.new ≡ N.telling out.old) }
    ensures still { OnErr result ((dialect.new ≡ dialect.old) × (heaps.new ≡ heaps.old) × (weak.new ≡ weak.old) × (collector.new ≡ collector.old) ×
        (N.telling out.new ≡ N.telling out.old)) }
    ensures runs { RunsIn heaps.new collector.new }
    ensures limit { lines.new.window.limit ≡ lines.old.window.limit }
    ensures reads { ReadsOn (S.reads lines.old.source.now) (S.reads lines.new.source.now) lines.old.window lines.new.window }
    ensures same { lines.new.source.ghost_name ≡ lines.old.source.ghost_name }
    ensures calm { OnOk result (S.faults lines.new.source.now ≡ S.faults lines.old.source.now) }
    ensures rose { result ≡ Err ReadStop.Fault → Rose (S.faults lines.old.source.now) (S.faults lines.new.source.now) }
    ensures unfaulted { result ≡ Err ReadStop.Limit → S.faults lines.new.source.now ≡ S.faults lines.old.source.now }
{
    match lines.next()? {
        Line::End => Ok(Next::End),
        Line::TooLong => {
            *dialect = dialect.after(None);
            out.tell(Item::Reply(Reply::Refused(Refusal::Long)));
            Ok(Next::Answered)
        }
        Line::Text => {
            answer_text(alloc, lines.text(), dialect, heaps, weak, collector, out);
            Ok(Next::Answered)
        }
    }
}

/// How a run ends by what came next. None where it goes on.
fn ended_by(next: Result<Next, ReadStop>) -> Option<Status>
    ensures ending { IfSome result (λ status. EndsBy next status) }
    ensures going { result ≡ None → next ≡ Ok Next.Answered }
{
    match next {
        Err(ReadStop::Fault) => Some(Status::ReadFault),
        Err(ReadStop::Limit) => Some(Status::Limit),
        Ok(Next::End) => Some(Status::Done),
        Ok(Next::Answered) => None,
    }
}

/// Answers each line that is left, to the end of the source, or until a read fails, a write fails or the limit on bytes
/// is passed.
fn answer_all<S: Source, N: Reports>(
    alloc: Global,
    lines: &mut Lines<'_, S>,
    dialect: &mut Dialect,
    heaps: &mut Heaps,
    weak: &mut WeakRegs,
    collector: &mut Collector,
    out: &mut N,
) -> Status
    requires going { lines.old.stopped ≡ false }
    requires runs { RunsIn heaps.old collector.old }
    requires keys { HoldKeys weak.old heaps.old }
    requires whole { (N.telling out.old).broken ≡ false }
    ensures done { result ≡ Status.Done → Answers AreAllGiven
        (moment (S.left lines.old.source.now) lines.old.window dialect.old (machine_beside heaps.old collector.old weak.old) (N.telling out.old))
        (moment (S.left lines.new.source.now) lines.new.window dialect.new (machine_beside heaps.new collector.new weak.new) (N.telling out.new)) }
    ensures fault { result ≡ Status.ReadFault → Answers IsBroken
        (moment (S.left lines.old.source.now) lines.old.window dialect.old (machine_beside heaps.old collector.old weak.old) (N.telling out.old))
        (moment (S.left lines.new.source.now) lines.new.window dialect.new (machine_beside heaps.new collector.new weak.new) (N.telling out.new)) }
    ensures over { result ≡ Status.Limit → Answers IsOver
        (moment (S.left lines.old.source.now) lines.old.window dialect.old (machine_beside heaps.old collector.old weak.old) (N.telling out.old))
        (moment (S.left lines.new.source.now) lines.new.window dialect.new (machine_beside heaps.new collector.new weak.new) (N.telling out.new)) }
    ensures first { result ≡ Status.WriteFault → Answers AreFirst
        (moment (S.left lines.old.source.now) lines.old.window dialect.old (machine_beside heaps.old collector.old weak.old) (N.telling out.old))
        (moment (S.left lines.new.source.now) lines.new.window dialect.new (machine_beside heaps.new collector.new weak.new) (N.telling out.new)) }

    ensures limit { lines.new.window.limit ≡ lines.old.window.limit }
    ensures reads { ReadsOn (S.reads lines.old.source.now) (S.reads lines.new.source.now) lines.old.window lines.new.window }
    ensures read { result ≡ Status.ReadFault → Rose (S.faults lines.old.source.now) (S.faults lines.new.source.now) }
    ensures calm { result ≢ Status.ReadFault → S.faults lines.new.source.now ≡ S.faults lines.old.source.now }
    ensures whole { result ≢ Status.WriteFault → (N.telling out.new).broken ≡ false }
    ensures written { result ≢ Status.WriteFault → (N.telling out.new).faults ≡ (N.telling out.old).faults }
    ensures broken { result ≡ Status.WriteFault → (N.telling out.new).broken ≡ true }
    ensures unwritten { result ≡ Status.WriteFault → Rose (N.telling out.old).faults (N.telling out.new).faults }
    ensures once { result ≡ Status.WriteFault → (N.telling out.new).faults ≡ raised (N.telling out.old).faults 1 }
    ensures others { (result ≢ Status.Usage) × (result ≢ Status.NoMemory) × (result ≢ Status.Unlawful) }
    ensures source { lines.new.source.ghost_name ≡ lines.old.source.ghost_name }
    ensures sink { (N.telling out.new).sink ≡ (N.telling out.old).sink }
{
    'lines: loop {
        if let Some(status) = ended_by(answer_next(
            alloc, lines, dialect, heaps, weak, collector, out,
        )) {
            return status;
        }
        if out.is_broken() {
            return Status::WriteFault;
        }
    }
}

/// Answers all lines of a source that was not yet read, from empty heaps and empty weak registers on. What is written is told of the bytes that
/// were taken.
pub(crate) fn answer_input<S: Source, N: Reports>(
    alloc: Global,
    lines: &mut Lines<'_, S>,
    heaps: &mut Heaps,
    weak: &mut WeakRegs,
    out: &mut N,
) -> Status
    requires going { lines.old.stopped ≡ false }
    requires start { lines.old.window ≡ nothing_read heaps.old.heap.limits.bytes }
    requires order { IsInOrder [] heaps.old }
    requires empty { heaps.old.heap ≡ empty_heap heaps.old.heap.limits }
    requires idle { heaps.old.marking ≡ None }
    requires unnoted { names_noted weak.old ≡ empty_slots weak_length }
    requires keys { HoldKeys weak.old heaps.old }
    requires whole { (N.telling out.old).broken ≡ false }
    ensures done { result ≡ Status.Done → IsDone heaps.old.heap.limits
        (ends S.left S.reads (λ n. (N.telling n).told) lines.old.source.now lines.new.source.now out.old out.new) }
    ensures counted { result ≡ Status.Done → (bytes : List ℕ) → S.left lines.old.source.now ≡ Some bytes →
        Counts heaps.old.heap.limits (asks_of bytes) (N.telling out.old).sums (N.telling out.new).sums }
    ensures fault { result ≡ Status.ReadFault → StopsAtFault heaps.old.heap.limits
        (ends S.left S.reads (λ n. (N.telling n).told) lines.old.source.now lines.new.source.now out.old out.new) }
    ensures over { result ≡ Status.Limit → StopsAtLimit heaps.old.heap.limits
        (ends S.left S.reads (λ n. (N.telling n).told) lines.old.source.now lines.new.source.now out.old out.new) }
    ensures front { result ≡ Status.WriteFault → StopsAtWrite heaps.old.heap.limits
        (ends S.left S.reads (λ n. (N.telling n).told) lines.old.source.now lines.new.source.now out.old out.new) }

    ensures reads { (S.reads lines.new.source.now).answered ≤ (S.reads lines.old.source.now).answered + heaps.old.heap.limits.bytes + 1 }
    ensures end_unread { result ≢ Status.Done → result ≢ Status.WriteFault →
        (S.reads lines.new.source.now).ended ≡ (S.reads lines.old.source.now).ended }

    ensures read { result ≡ Status.ReadFault → Rose (S.faults lines.old.source.now) (S.faults lines.new.source.now) }
    ensures calm { result ≢ Status.ReadFault → S.faults lines.new.source.now ≡ S.faults lines.old.source.now }
    ensures written { result ≢ Status.WriteFault → (N.telling out.new).faults ≡ (N.telling out.old).faults }
    ensures unwritten { result ≡ Status.WriteFault → Rose (N.telling out.old).faults (N.telling out.new).faults }
    ensures once { result ≡ Status.WriteFault → (N.telling out.new).faults ≡ raised (N.telling out.old).faults 1 }
    ensures broken { result ≡ Status.WriteFault → (N.telling out.new).broken ≡ true }

    ensures fault_always { S.faults lines.old.source.now < S.faults lines.new.source.now → result ≡ Status.ReadFault }
    ensures write_always { (N.telling out.old).faults < (N.telling out.new).faults → result ≡ Status.WriteFault }
    ensures over_always { (bytes : List ℕ) → S.left lines.old.source.now ≡ Some bytes → heaps.old.heap.limits.bytes < length bytes →
        ¬ (Rose (S.faults lines.old.source.now) (S.faults lines.new.source.now)) → ¬ (Rose (N.telling out.old).faults (N.telling out.new).faults) →
        result ≡ Status.Limit }
    ensures done_always { (bytes : List ℕ) → S.left lines.old.source.now ≡ Some bytes → length bytes ≤ heaps.old.heap.limits.bytes →
        ¬ (Rose (S.faults lines.old.source.now) (S.faults lines.new.source.now)) → ¬ (Rose (N.telling out.old).faults (N.telling out.new).faults) →
        result ≡ Status.Done }
    ensures others { (result ≢ Status.Usage) × (result ≢ Status.NoMemory) × (result ≢ Status.Unlawful) }
    ensures source { lines.new.source.ghost_name ≡ lines.old.source.ghost_name }
    ensures sink { (N.telling out.new).sink ≡ (N.telling out.old).sink }
{
    let mut dialect = Dialect::Start;
    let mut collector = Collector::new(alloc);
    answer_all(alloc, lines, &mut dialect, heaps, weak, &mut collector, out)
}
