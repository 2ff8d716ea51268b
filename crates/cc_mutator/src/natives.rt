//! What native registers and slots of natives hold from then on.
ghost use Rattle.std.specs.Prelude.{◌≡◌, ◌<◌, false, ℕ, List, length, None, option_map};
ghost use Rattle.cc_names.specs.declared.register.Reg.TheVariants.{N as n_register, S as s_register};
ghost use Rattle.cc_names.specs.Sizes.{bank_length};
ghost use Rattle.cc_model.specs.Telling.{TellsEvents};
ghost use Rattle.cc_model.specs.Checks.{is_script_there, native_of, slot_at, slots_at};
ghost use Rattle.cc_model.specs.Deeds.{native_held, native_stored, slot_moved};
ghost use Rattle.cc_model.specs.Effects.{move_slot as moved};
ghost use Rattle.cc_model.specs.Heap.{objects_of, register, source};
ghost use Rattle.cc_model.specs.Marking.{exposed_marks};
ghost use Rattle.cc_heaps.specs.Keyed.{IsInOrder};
ghost use Rattle.cc_heaps.specs.Changes.{IsNativeThere, IsThere, KeepsKeys, held_name, native_name};
ghost use Rattle.cc_heaps.specs.Marks.{MarksGoOn};
ghost use Rattle.cc_heaps.specs.NewMarks.{marks_of};
ghost use Rattle.cc_heaps.specs.Few.{AreOwnedOnce};
ghost use Rattle.cc_mutator.specs.Commands.{IsDone, IsNamed};

use crate::reads::{
    as_native, naming, naming_native, native_behind, native_content, source_content,
};
use cc_counted::Held;
use cc_heaps::Heaps;
use cc_model::{Notices, Reply};
use cc_names::{NKey, Reg, RegNo, SlotNo};

/// A native register holds a content from then on, which the reply names.
pub(crate) fn hold<N: Notices>(
    heaps: &mut Heaps,
    d: RegNo,
    content: Option<NKey>,
    out: &mut N,
) -> Reply
    requires within { d < bank_length }
    requires order { (owned : List ℕ) × IsInOrder owned heaps.old × AreOwnedOnce owned }
    requires there { IsNativeThere heaps.old content }
    ensures { IsNamed (native_held d (native_name heaps.old content)) (native_name heaps.old content) heaps.old heaps.new result (N.telling out.old)
        (N.telling out.new) }
{
    let reply = naming_native(heaps, content);
    heaps.set_native_reg(d, content, out);
    reply
}

/// Copies a native register.
pub(crate) fn copy_native<N: Notices>(heaps: &mut Heaps, d: RegNo, s: RegNo, out: &mut N) -> Reply
    requires within { d < bank_length }
    requires order { (owned : List ℕ) × IsInOrder owned heaps.old × AreOwnedOnce owned }
    ensures { IsNamed (native_held d (register heaps.old.heap (n_register s))) (register heaps.old.heap (n_register s)) heaps.old heaps.new result
        (N.telling out.old) (N.telling out.new) }
{
    let content = heaps.native_reg(s);
    hold(heaps, d, content, out)
}

/// Empties a native register.
pub(crate) fn drop_native<N: Notices>(heaps: &mut Heaps, d: RegNo, out: &mut N) -> Reply
    requires within { d < bank_length }
    requires order { (owned : List ℕ) × IsInOrder owned heaps.old × AreOwnedOnce owned }
    ensures { IsDone (native_held d None) heaps.old heaps.new result (N.telling out.old) (N.telling out.new) }
{
    heaps.set_native_reg(d, None, out);
    Reply::Done
}

/// Reads slot `i` of the native in a register into a native register.
pub(crate) fn get_native<N: Notices>(
    heaps: &mut Heaps,
    d: RegNo,
    s: RegNo,
    i: u32,
    out: &mut N,
) -> Reply
    requires within { d < bank_length }
    requires order { (owned : List ℕ) × IsInOrder owned heaps.old × AreOwnedOnce owned }
    requires slot { i < length (slots_at (objects_of heaps.old.heap) (n_register s)) }
    requires content { is_script_there (slot_at (objects_of heaps.old.heap) (n_register s) i) ≡ false }
    ensures { IsNamed (native_held d (slot_at (objects_of heaps.old.heap) (n_register s) i))
        (slot_at (objects_of heaps.old.heap) (n_register s) i) heaps.old heaps.new result (N.telling out.old) (N.telling out.new) }
{
    let content = as_native(native_content(heaps, s, i));
    hold(heaps, d, content, out)
}

/// Puts the native of the reflector in a script register into a native register.
pub(crate) fn unwrap<N: Notices>(heaps: &mut Heaps, d: RegNo, s: RegNo, out: &mut N) -> Reply
    requires within { d < bank_length }
    requires order { (owned : List ℕ) × IsInOrder owned heaps.old × AreOwnedOnce owned }
    ensures { IsNamed (native_held d (native_of (register heaps.old.heap (s_register s))))
        (native_of (register heaps.old.heap (s_register s))) heaps.old heaps.new result (N.telling out.old) (N.telling out.new) }
{
    let content = native_behind(heaps, s);
    hold(heaps, d, content, out)
}

/// Writes what a source gives into slot `i` of the native in a register.
pub(crate) fn set<N: Notices>(
    heaps: &mut Heaps,
    d: RegNo,
    i: u32,
    from: Option<Reg>,
    out: &mut N,
) -> Reply
    requires order { (owned : List ℕ) × IsInOrder owned heaps.old × AreOwnedOnce owned }
    requires slot { i < length (slots_at (objects_of heaps.old.heap) (n_register d)) }
    ensures { IsDone (native_stored d i (source heaps.old.heap from)) heaps.old heaps.new result (N.telling out.old) (N.telling out.new) }
{
    let content = source_content(heaps, from);
    let Some(key) = heaps.native_reg(d) else {
        unreachable!();
    };
    heaps.store_native(key, i as SlotNo, content, out);
    Reply::Done
}

/// What slot `j` of the native in register `s` holds goes into slot `i` of the native in register `d`.
fn hand_over<N: Notices>(heaps: &mut Heaps, d: RegNo, i: u32, s: RegNo, j: u32, out: &mut N)
    requires order { (owned : List ℕ) × IsInOrder owned heaps.old }
    requires to_slot { i < length (slots_at (objects_of heaps.old.heap) (n_register d)) }
    requires from_slot { j < length (slots_at (objects_of heaps.old.heap) (n_register s)) }
    ensures heap { heaps.new.heap ≡ (moved heaps.old.heap d i s j).heap }
    ensures told { TellsEvents (N.telling out.old) (N.telling out.new) (moved heaps.old.heap d i s j).events }
    ensures keys { KeepsKeys heaps.old heaps.new }
    ensures order { (owned : List ℕ) → IsInOrder owned heaps.old → IsInOrder owned heaps.new }
    ensures marks { MarksGoOn heaps.old heaps.new }
    ensures marking { marks_of heaps.new ≡
        option_map (exposed_marks heaps.old.heap (slot_at (objects_of heaps.old.heap) (n_register s) j)) (marks_of heaps.old) }
{
    let Some(to) = heaps.native_reg(d) else {
        unreachable!();
    };
    let Some(from) = heaps.native_reg(s) else {
        unreachable!();
    };
    heaps.move_slot(to, i as SlotNo, from, j as SlotNo, out);
}

/// Moves what slot `j` of the native in register `s` holds into slot `i` of the native in register `d`.
pub(crate) fn move_slot<N: Notices>(
    heaps: &mut Heaps,
    d: RegNo,
    i: u32,
    s: RegNo,
    j: u32,
    out: &mut N,
) -> Reply
    requires order { (owned : List ℕ) × IsInOrder owned heaps.old }
    requires to_slot { i < length (slots_at (objects_of heaps.old.heap) (n_register d)) }
    requires from_slot { j < length (slots_at (objects_of heaps.old.heap) (n_register s)) }
    ensures { IsNamed (slot_moved d i s j) (slot_at (objects_of heaps.old.heap) (n_register s) j) heaps.old heaps.new result (N.telling out.old)
        (N.telling out.new) }
{
    let content = native_content(heaps, s, j);
    let reply = naming(heaps, content);
    hand_over(heaps, d, i, s, j, out);
    reply
}
