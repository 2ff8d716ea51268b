//! Weak registers written and read.
ghost use Rattle.std.specs.Prelude.{◌≡◌, ◌<◌, ℕ, List, Some, None, true, false, is_none, slice_set};
ghost use Rattle.cc_names.specs.declared.register.Reg.TheVariants.{N as n_register};
ghost use Rattle.cc_names.specs.Sizes.{bank_length};
ghost use Rattle.cc_model.specs.declared.command.Command.TheVariants.{Drop};
ghost use Rattle.cc_model.specs.Checks.{Objects, refusal_of};
ghost use Rattle.cc_model.specs.Deeds.{deed_of, native_held, weak_written};
ghost use Rattle.cc_model.specs.Effects.{takes_memory};
ghost use Rattle.cc_model.specs.Heap.{objects_of, register};
ghost use Rattle.cc_model.specs.Run.{weak_after};
ghost use Rattle.cc_model.specs.Telling.{Telling};
ghost use Rattle.cc_heaps.specs.Keyed.{Keyed, IsInOrder};
ghost use Rattle.cc_heaps.specs.Few.{AreOwnedOnce};
ghost use Rattle.cc_weakrefs.specs.Noting.{HoldKeys, names_noted, usable_noted};
ghost use Rattle.cc_mutator.specs.Commands.{IsNamed};

use crate::natives::hold;
use crate::reads::naming_native;
use cc_heaps::Heaps;
use cc_model::{Command, Notices, Reply};
use cc_names::{Reg, RegNo, WeakNo};
use cc_weakrefs::WeakRegs;

/// Weak register `w` notes the native in a register.
fn note_native(heaps: &Heaps, weak: &mut WeakRegs, w: WeakNo, s: RegNo)
    requires order { (owned : List ℕ) × IsInOrder owned heaps.now }
    requires keys { HoldKeys weak.old heaps.now }
    requires there { is_none (register heaps.now.heap (n_register s)) ≡ false }
    ensures noted { names_noted weak.new ≡ slice_set (names_noted weak.old) w (register heaps.now.heap (n_register s)) }
    ensures keys { HoldKeys weak.new heaps.now }
{
    let Some(key) = heaps.native_reg(s) else {
        unreachable!();
    };
    let Some(number) = heaps.counted().number(key) else {
        unreachable!();
    };
    weak.set(w, key, number);
}

/// A weak register that is emptied notes nothing; the other registers are none of these.
fn empty_weak(weak: &mut WeakRegs, r: Reg)
    ensures noted { (o : Objects) → names_noted weak.new ≡ weak_after (names_noted weak.old) (deed_of o (Drop r)) }
    ensures keys { (v : Keyed) → HoldKeys weak.old v → HoldKeys weak.new v }
{
    match r {
        Reg::W(w) => weak.clear(w),
        Reg::N(_) => {}
        Reg::S(_) => {}
    }
}

/// Names what a weak register is to note. The heaps do nothing for it.
pub(crate) fn name_noted(heaps: &Heaps, w: WeakNo, s: RegNo) -> Reply
    requires order { (owned : List ℕ) × IsInOrder owned heaps.now }
    ensures { (t : Telling) → IsNamed (weak_written w (register heaps.now.heap (n_register s)))
        (register heaps.now.heap (n_register s)) heaps.now heaps.now result t t }
{
    naming_native(heaps, heaps.native_reg(s))
}

/// What weak registers note by a command that is not refused: `weak` and `drop wX` write one, the other commands none.
pub(crate) fn note(heaps: &Heaps, weak: &mut WeakRegs, command: &Command)
    requires order { (owned : List ℕ) × IsInOrder owned heaps.now }
    requires keys { HoldKeys weak.old heaps.now }
    requires taken { refusal_of (objects_of heaps.now.heap) command.now ≡ None }
    ensures noted { names_noted weak.new ≡ weak_after (names_noted weak.old) (deed_of (objects_of heaps.now.heap) command.now) }
    ensures same { takes_memory heaps.now.heap command.now ≡ true → weak.new ≡ weak.old }
    ensures keys { HoldKeys weak.new heaps.now }
{
    match *command {
        Command::Weak(w, s) => note_native(heaps, weak, w, s),
        Command::Drop(r) => empty_weak(weak, r),
        _ => {}
    }
}

/// Native register `d` holds what weak register `w` notes, where that is in the heaps and was not unlinked; else it is
/// emptied.
pub(crate) fn dereference<N: Notices>(
    heaps: &mut Heaps,
    weak: &WeakRegs,
    d: RegNo,
    w: WeakNo,
    out: &mut N,
) -> Reply
    requires within { d < bank_length }
    requires order { (owned : List ℕ) × IsInOrder owned heaps.old × AreOwnedOnce owned }
    requires keys { HoldKeys weak.now heaps.old }
    ensures { IsNamed (native_held d (usable_noted heaps.old.heap (names_noted weak.now) w))
        (usable_noted heaps.old.heap (names_noted weak.now) w) heaps.old heaps.new result (N.telling out.old) (N.telling out.new) }
{
    let content = weak.resolve(heaps, w);
    hold(heaps, d, content, out)
}
