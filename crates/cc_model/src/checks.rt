//! When a command is refused: five tests, in the order in which they are tried.

ghost use Rattle.std.specs.Prelude.{◌≡◌, false, is_none, length, map, nat_le, option_to_list};
ghost use Rattle.std.specs.List.{list_any};
ghost use Rattle.cc_names.specs.declared.register.Reg.TheVariants as reg;
ghost use Rattle.cc_model.specs.Checks.{has_no_slot, has_wrong_content, has_wrong_object, is_full, lacks_object, refusal_of, slots_at};

use crate::command::Command;
use crate::item::Refusal;
use crate::reads::Reads;
use cc_names::{Reg, RegNo};

/// Whether a source is a register that is empty.
fn is_source_empty<R: Reads>(reads: &R, from: Option<Reg>) -> bool
    requires { R.IsReadable reads.now }
    ensures { result ≡ list_any (λ r. is_none ((R.objects reads.now).register r)) (option_to_list from) }
{
    match from {
        Some(at) => reads.is_empty(at),
        None => false,
    }
}

/// Whether a source is a script register that is empty.
fn is_script_source_empty<R: Reads>(reads: &R, from: Option<RegNo>) -> bool
    requires { R.IsReadable reads.now }
    ensures { result ≡ list_any (λ r. is_none ((R.objects reads.now).register r)) (map reg.S (option_to_list from)) }
{
    match from {
        Some(at) => reads.is_empty(Reg::S(at)),
        None => false,
    }
}

/// Whether a register that must hold an object is empty.
fn lacks_object<R: Reads>(reads: &R, command: &Command) -> bool
    requires { R.IsReadable reads.now }
    ensures { result ≡ lacks_object (R.objects reads.now) command.now }
{
    match *command {
        Command::Proxy(_, s) => reads.is_empty(Reg::S(s)),
        Command::Set(d, _, from) => reads.is_empty(Reg::N(d)) || is_source_empty(reads, from),
        Command::Get(_, s, _) => reads.is_empty(Reg::N(s)),
        Command::Move(d, _, s, _) => reads.is_empty(Reg::N(d)) || reads.is_empty(Reg::N(s)),
        Command::Put(d, _, from) => {
            reads.is_empty(Reg::S(d)) || is_script_source_empty(reads, from)
        }
        Command::Take(_, s, _) => reads.is_empty(Reg::S(s)),
        Command::Wrap(_, s) => reads.is_empty(Reg::N(s)),
        Command::Unwrap(_, s) => reads.is_empty(Reg::S(s)),
        Command::Preserve(s) => reads.is_empty(Reg::S(s)),
        Command::SetEntry(m, k, from) => {
            reads.is_empty(Reg::S(m))
                || reads.is_empty(Reg::S(k))
                || is_script_source_empty(reads, from)
        }
        Command::GetEntry(_, m, k) => reads.is_empty(Reg::S(m)) || reads.is_empty(Reg::S(k)),
        Command::Expose(s, _) => reads.is_empty(Reg::N(s)),
        Command::Weak(_, s) => reads.is_empty(Reg::N(s)),
        _ => false,
    }
}

/// Whether the object in a register is of the wrong kind.
fn has_wrong_object<R: Reads>(reads: &R, command: &Command) -> bool
    requires { R.IsReadable reads.now }
    ensures { result ≡ has_wrong_object (R.objects reads.now) command.now }
{
    match *command {
        Command::Put(d, _, _) => reads.is_map(d),
        Command::Take(_, s, _) => reads.is_map(s),
        Command::Unwrap(_, s) => !reads.is_reflector(s),
        Command::Preserve(s) => !reads.is_reflector(s),
        Command::SetEntry(m, _, _) => !reads.is_map(m),
        Command::GetEntry(_, m, _) => !reads.is_map(m),
        _ => false,
    }
}

/// Whether an index is not below the number of slots of what a register holds.
fn is_past<R: Reads>(reads: &R, at: Reg, i: u32) -> bool
    requires { R.IsReadable reads.now }
    ensures { result ≡ nat_le (length (slots_at (R.objects reads.now) at)) i }
{
    reads.slot_count(at) <= i as usize
}

/// Whether an index is not below the object's number of slots; of a move one of the two.
fn has_no_slot<R: Reads>(reads: &R, command: &Command) -> bool
    requires { R.IsReadable reads.now }
    ensures { result ≡ has_no_slot (R.objects reads.now) command.now }
{
    match *command {
        Command::Set(d, i, _) => is_past(reads, Reg::N(d), i),
        Command::Get(_, s, i) => is_past(reads, Reg::N(s), i),
        Command::Move(d, i, s, j) => {
            is_past(reads, Reg::N(d), i) || is_past(reads, Reg::N(s), j)
        }
        Command::Put(d, i, _) => is_past(reads, Reg::S(d), i),
        Command::Take(_, s, i) => is_past(reads, Reg::S(s), i),
        Command::Expose(s, i) => is_past(reads, Reg::N(s), i),
        _ => false,
    }
}

/// Whether what the slot holds is of the wrong kind.
fn has_wrong_content<R: Reads>(reads: &R, command: &Command) -> bool
    requires readable { R.IsReadable reads.now }
    requires slot { has_no_slot (R.objects reads.now) command.now ≡ false }
    ensures { result ≡ has_wrong_content (R.objects reads.now) command.now }
{
    match *command {
        Command::Get(Reg::N(_), s, i) => reads.holds_script(s, i),
        Command::Get(Reg::S(_), s, i) => reads.holds_native(s, i),
        Command::Expose(s, i) => reads.holds_native(s, i),
        _ => false,
    }
}

/// Whether as many objects of the kind as the limit were ever made.
fn is_full<R: Reads>(reads: &R, command: &Command) -> bool
    requires { R.IsReadable reads.now }
    ensures { result ≡ is_full (R.objects reads.now) command.now }
{
    match *command {
        Command::Native(_, _) => reads.has_all_natives(),
        Command::Script(_, _) => reads.has_all_scripts(),
        Command::WeakMap(_) => reads.has_all_scripts(),
        Command::Proxy(_, _) => reads.has_all_scripts(),
        _ => false,
    }
}

/// Why a command is refused, want of memory aside; none where it is not.
#[tactic(auto, unfolding(crate::specs::Checks::refusal_of))]
pub fn refusal<R: Reads>(reads: &R, command: &Command) -> Option<Refusal>
    requires { R.IsReadable reads.now }
    ensures { result ≡ refusal_of (R.objects reads.now) command.now }
{
    if lacks_object(reads, command) {
        return Some(Refusal::Empty);
    }
    if has_wrong_object(reads, command) {
        return Some(Refusal::Kind);
    }
    if has_no_slot(reads, command) {
        return Some(Refusal::Slot);
    }
    if has_wrong_content(reads, command) {
        return Some(Refusal::Kind);
    }
    if is_full(reads, command) {
        return Some(Refusal::Full);
    }
    None
}
