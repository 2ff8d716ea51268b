//! A command of the mutator, checked and done on the heaps.
ghost use Rattle.std.specs.Prelude.{◌≡◌, ◌≢◌, IsTrue, true, ℕ, List, Some, None};
ghost use Rattle.cc_model.specs.declared.command.Command.TheVariants.{Drop, Get};
ghost use Rattle.cc_model.specs.declared.item.Refusal.{Refusal};
ghost use Rattle.cc_model.specs.declared.item.Refusal.TheVariants.{NoMemory as no_memory};
ghost use Rattle.cc_model.specs.declared.item.Reply.TheVariants.{Refused as refused};
ghost use Rattle.cc_model.specs.Checks.{refusal_of};
ghost use Rattle.cc_model.specs.Colours.{HasColourInvariant};
ghost use Rattle.cc_model.specs.Effects.{takes_memory};
ghost use Rattle.cc_model.specs.Heap.{objects_of};
ghost use Rattle.cc_model.specs.Lawful.{State, RepliesWith, graph_after};
ghost use Rattle.cc_model.specs.Mutating.{class_of, is_applied, is_deed};
ghost use Rattle.cc_model.specs.Ranges.{in_range, is_dropped, is_reg};
ghost use Rattle.cc_model.specs.Run.{weak_after};
ghost use Rattle.cc_model.specs.StandsFor.{StandsFor};
ghost use Rattle.cc_model.specs.View.{view};
ghost use Rattle.cc_model.specs.WellMade.{IsWellMade};
ghost use Rattle.cc_heaps.specs.Keyed.{IsInOrder};
ghost use Rattle.cc_heaps.specs.Few.{AreOwnedOnce};
ghost use Rattle.cc_heaps.specs.Keeping.{KeepsAll};
ghost use Rattle.cc_weakrefs.specs.Noting.{HoldKeys, names_noted};
ghost use Rattle.cc_mutator.specs.Applied.{IsCarriedOut, deed_by};
ghost use Rattle.cc_mutator.specs.Commands.{HasMarksAfter, IsApplied, IsTakenBeside, IsTakenUp};
ghost use Rattle.cc_mutator.specs.Listing.{AgreesFor, AreListedFor};

use crate::checks::HeapReads;
use crate::making::{make_map, make_native, make_plain, make_proxy, wrap};
use crate::natives::{copy_native, drop_native, get_native, move_slot, set, unwrap};
use crate::scripts::{
    copy_script, drop_script, expose, get_entry, get_script, preserve, put, set_entry, take,
};
use crate::weak::{dereference, name_noted, note};
use cc_heaps::Heaps;
use cc_model::{Command, Notices, Reply, refusal};
use cc_names::{Reg, RegNo};
use cc_weakrefs::WeakRegs;

/// Empties a register; of a weak one the heaps know nothing.
#[tactic(auto, unfolding(cc_model::specs::Deeds::deed_of, cc_model::specs::Checks::reply_if_taken))]
fn empty<N: Notices>(heaps: &mut Heaps, r: Reg, out: &mut N) -> Reply
    requires within { IsTrue (is_dropped r) }
    requires order { (owned : List ℕ) × IsInOrder owned heaps.old × AreOwnedOnce owned }
    ensures { IsTakenUp (Drop r) heaps.old heaps.new result (N.telling out.old) (N.telling out.new) }
{
    match r {
        Reg::N(k) => drop_native(heaps, k, out),
        Reg::S(k) => drop_script(heaps, k),
        Reg::W(_) => Reply::Done,
    }
}

/// Reads slot `i` of the native in a register into a register of either kind.
#[tactic(auto, unfolding(cc_model::specs::Deeds::deed_of, cc_model::specs::Checks::reply_if_taken))]
fn get<N: Notices>(heaps: &mut Heaps, d: Reg, s: RegNo, i: u32, out: &mut N) -> Reply
    requires within { IsTrue (is_reg d) }
    requires order { (owned : List ℕ) × IsInOrder owned heaps.old × AreOwnedOnce owned }
    requires taken { refusal_of (objects_of heaps.old.heap) (Get d s i) ≡ None }
    ensures { IsTakenUp (Get d s i) heaps.old heaps.new result (N.telling out.old) (N.telling out.new) }
{
    match d {
        Reg::N(k) => get_native(heaps, k, s, i, out),
        Reg::S(k) => get_script(heaps, k, s, i),
        Reg::W(_) => unreachable!(),
    }
}

/// Does to the heaps what a command does that is not refused, by the function of its kind.
#[tactic(auto, unfolding(cc_model::specs::Deeds::deed_of, cc_model::specs::Checks::reply_if_taken))]
fn carry_out<N: Notices>(heaps: &mut Heaps, command: &Command, out: &mut N) -> Reply
    requires deed { IsTrue (is_deed (class_of command.now)) }
    requires in_range { IsTrue (in_range command.now) }
    requires order { (owned : List ℕ) × IsInOrder owned heaps.old × AreOwnedOnce owned }
    requires colours { HasColourInvariant (view heaps.old.heap) }
    requires taken { refusal_of (objects_of heaps.old.heap) command.now ≡ None }
    ensures { IsTakenUp command.now heaps.old heaps.new result (N.telling out.old) (N.telling out.new) }
{
    match *command {
        Command::Native(d, slots) => make_native(heaps, d, slots, out),
        Command::Script(d, slots) => make_plain(heaps, d, slots),
        Command::WeakMap(d) => make_map(heaps, d),
        Command::Proxy(d, s) => make_proxy(heaps, d, s),
        Command::CopyNative(d, s) => copy_native(heaps, d, s, out),
        Command::CopyScript(d, s) => copy_script(heaps, d, s),
        Command::Drop(r) => empty(heaps, r, out),
        Command::Set(d, i, from) => set(heaps, d, i, from, out),
        Command::Get(d, s, i) => get(heaps, d, s, i, out),
        Command::Move(d, i, s, j) => move_slot(heaps, d, i, s, j, out),
        Command::Put(d, i, from) => put(heaps, d, i, from),
        Command::Take(d, s, i) => take(heaps, d, s, i),
        Command::Wrap(d, s) => wrap(heaps, d, s),
        Command::Unwrap(d, s) => unwrap(heaps, d, s, out),
        Command::Preserve(s) => preserve(heaps, s),
        Command::SetEntry(m, k, from) => set_entry(heaps, m, k, from),
        Command::GetEntry(d, m, k) => get_entry(heaps, d, m, k),
        Command::Expose(s, i) => expose(heaps, s, i),
        Command::Weak(w, s) => name_noted(heaps, w, s),
        _ => unreachable!(),
    }
}

/// Does a command that is not refused, beside the weak registers.
fn take_up<N: Notices>(
    heaps: &mut Heaps,
    weak: &mut WeakRegs,
    command: &Command,
    out: &mut N,
) -> Reply
    requires applied { IsTrue (is_applied command.now) }
    requires in_range { IsTrue (in_range command.now) }
    requires order { (owned : List ℕ) × IsInOrder owned heaps.old × AreOwnedOnce owned }
    requires colours { HasColourInvariant (view heaps.old.heap) }
    requires keys { HoldKeys weak.old heaps.old }
    requires taken { refusal_of (objects_of heaps.old.heap) command.now ≡ None }
    ensures taken { IsTakenBeside command.now weak.old heaps.old heaps.new result (N.telling out.old) (N.telling out.new) }
    ensures noted { names_noted weak.new ≡ weak_after (names_noted weak.old) (deed_by heaps.old.heap (names_noted weak.old) command.now) }
    ensures same { takes_memory heaps.old.heap command.now ≡ true → weak.new ≡ weak.old }
    ensures keys { HoldKeys weak.new heaps.old }
{
    if let Command::Deref(d, w) = *command {
        return dereference(heaps, weak, d, w, out);
    }
    note(heaps, weak, command);
    carry_out(heaps, command, out)
}

/// Checks a command, and does it where it is not refused.
fn answer<N: Notices>(
    heaps: &mut Heaps,
    weak: &mut WeakRegs,
    command: &Command,
    out: &mut N,
) -> Reply
    requires applied { IsTrue (is_applied command.now) }
    requires in_range { IsTrue (in_range command.now) }
    requires order { (owned : List ℕ) × IsInOrder owned heaps.old × AreOwnedOnce owned }
    requires colours { HasColourInvariant (view heaps.old.heap) }
    requires keys { HoldKeys weak.old heaps.old }
    ensures { IsApplied command.now heaps.old heaps.new weak.old weak.new result (N.telling out.old) (N.telling out.new) }
{
    if let Some(refusal) = refusal(&HeapReads(heaps), command) {
        return Reply::Refused(refusal);
    }
    take_up(heaps, weak, command, out)
}

/// Does a command of the mutator, and returns the reply to it. What it deletes is told first, however deep it goes.
///
/// A command that is refused changes nothing and tells nothing. Memory is wanted by `native`, `script`, `weakmap` and `proxy`,
/// by `wrap` where the native has no reflector, and by `wset` with a value where the map has no entry of the key, where they
/// are not refused; by no other command. Without it they change nothing and tell nothing either.
///
/// `weak` and `drop wX` write a weak register, and `deref` has a native register hold what one notes, where that is still in
/// the heaps and was not unlinked. The weak registers hold the keys of the natives that they note, before and afterwards.
///
/// The reply is that of each graph that the heaps stand for, or it is want of memory where that graph does not refuse the
/// command, and memory may be wanted by the graph too: by `wset` where the graph's map has no entry of the key, and by
/// `wrap` where the reflector is not listed. Only for `wrap` are the listed names to be those of the objects that are there,
/// and only for `deref` are the graph's weak registers to note the same, and the names that have ended to be those of the heaps.
///
/// Afterwards the heaps stand for the graph's step, or without memory for the graph as it was; each snapshot that was
/// fresh is fresh, and no native that nothing reaches is forgotten, whatever the candidates of a running collection are.
///
/// Where a marking goes on in slices, the new marks are those after the command: what it exposes is black by them, with all that
/// it reaches past what is, and nothing else changes. For that what script registers hold is to be black by the new mark before:
/// a register that is copied is exposed too. A command that is refused, or lacks memory, leaves them.
pub fn apply<N: Notices>(
    heaps: &mut Heaps,
    weak: &mut WeakRegs,
    command: &Command,
    out: &mut N,
) -> Reply
    requires applied { IsTrue (is_applied command.now) }
    requires in_range { IsTrue (in_range command.now) }
    requires order { (owned : List ℕ) × IsInOrder owned heaps.old × AreOwnedOnce owned }
    requires colours { HasColourInvariant (view heaps.old.heap) }
    requires keys { HoldKeys weak.old heaps.old }
    ensures refused { (r : Refusal) → refusal_of (objects_of heaps.old.heap) command.now ≡ Some r →
        (result ≡ refused r) × (heaps.new ≡ heaps.old) × (weak.new ≡ weak.old) × (N.telling out.new ≡ N.telling out.old) }
    ensures done { refusal_of (objects_of heaps.old.heap) command.now ≡ None → result ≢ refused no_memory →
        IsCarriedOut command.now heaps.old.heap heaps.new.heap (names_noted weak.old) (names_noted weak.new) result (N.telling out.old) (N.telling out.new) }
    ensures memory { result ≡ refused no_memory →
        (refusal_of (objects_of heaps.old.heap) command.now ≡ None) × (takes_memory heaps.old.heap command.now ≡ true)
        × (heaps.new ≡ heaps.old) × (weak.new ≡ weak.old) × (N.telling out.new ≡ N.telling out.old) }
    ensures replies { (s : State) → StandsFor heaps.old.heap s.graph → AreListedFor command.now heaps.old.heap s.listed →
        AgreesFor (class_of command.now) heaps.old.heap (names_noted weak.old) s → RepliesWith s command.now result }
    ensures stands { (s : State) → AgreesFor (class_of command.now) heaps.old.heap (names_noted weak.old) s → IsWellMade s.graph →
        StandsFor heaps.old.heap s.graph →
        IsWellMade (graph_after s.ended s.graph command.now (Some result)) × StandsFor heaps.new.heap (graph_after s.ended s.graph command.now (Some result)) }
    ensures keys { HoldKeys weak.new heaps.new }
    ensures kept { KeepsAll heaps.old heaps.new }
    ensures marking { refusal_of (objects_of heaps.old.heap) command.now ≡ None → result ≢ refused no_memory →
        HasMarksAfter (deed_by heaps.old.heap (names_noted weak.old) command.now) heaps.old heaps.new }
{
    answer(heaps, weak, command, out)
}
