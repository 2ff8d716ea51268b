//! What script registers, slots of script objects and entries of weak maps hold from then on.
ghost use Rattle.std.specs.Prelude.{◌≡◌, ◌<◌, IsTrue, IsSome, IfSome, OnErr, OnOk, false, is_none, option_map, ℕ, List, length, Some, None};
ghost use Rattle.cc_names.specs.declared.kind.Colour.TheVariants.{Black};
ghost use Rattle.cc_names.specs.declared.register.Reg.TheVariants.{N as n_register, S as s_register};
ghost use Rattle.cc_names.specs.Sizes.{bank_length};
ghost use Rattle.cc_model.specs.declared.command.Command.TheVariants.{SetEntry};
ghost use Rattle.cc_model.specs.declared.item.Reply.TheVariants.{Done as done};
ghost use Rattle.cc_model.specs.Telling.{Telling};
ghost use Rattle.cc_model.specs.Checks.{is_map_in, is_native_there, slot_at, slots_at, value_at};
ghost use Rattle.cc_model.specs.Colours.{HasColourInvariant};
ghost use Rattle.cc_model.specs.Deeds.{entry_written, object_exposed, reflector_preserved, script_copied, script_held, script_stored};
ghost use Rattle.cc_model.specs.Effects.{put_in_script, set_entry as entry_set, takes_memory};
ghost use Rattle.cc_model.specs.Exposure.{exposed};
ghost use Rattle.cc_model.specs.Heap.{objects_of, register, source};
ghost use Rattle.cc_model.specs.Marking.{exposed_marks};
ghost use Rattle.cc_model.specs.View.{view};
ghost use Rattle.cc_script.specs.Objects.{colour_at};
ghost use Rattle.cc_heaps.specs.Keyed.{IsInOrder};
ghost use Rattle.cc_heaps.specs.Changes.{IsScriptThere, KeepsKeys, script_name};
ghost use Rattle.cc_heaps.specs.Marks.{MarksGoOn};
ghost use Rattle.cc_heaps.specs.NewMarks.{AreListed, marks_of};
ghost use Rattle.cc_mutator.specs.Commands.{IsAnswered, IsDone, IsNamed};

use crate::reads::{
    as_script, entry_value, naming_script, native_content, script_content, script_source,
};
use cc_heaps::Heaps;
use cc_model::{Refusal, Reply};
use cc_names::{NoMemory, RegNo, SKey, SlotNo};

/// A script register holds a content from then on, which the reply names and script has touched.
fn hold(heaps: &mut Heaps, d: RegNo, content: Option<SKey>) -> Reply
    requires within { d < bank_length }
    requires order { (owned : List ℕ) × IsInOrder owned heaps.old }
    requires there { IsScriptThere heaps.old content }
    ensures { (t : Telling) → IsNamed (script_held d (script_name heaps.old content)) (script_name heaps.old content) heaps.old heaps.new result t t }
{
    let reply = naming_script(heaps, content);
    heaps.set_script_reg(d, content);
    reply
}

/// Copies a script register.
pub(crate) fn copy_script(heaps: &mut Heaps, d: RegNo, s: RegNo) -> Reply
    requires within { d < bank_length }
    requires order { (owned : List ℕ) × IsInOrder owned heaps.old }
    requires colours { HasColourInvariant (view heaps.old.heap) }
    ensures { (t : Telling) → IsNamed (script_copied d (register heaps.old.heap (s_register s)))
        (register heaps.old.heap (s_register s)) heaps.old heaps.new result t t }
{
    let content = heaps.script_reg(s);
    let reply = naming_script(heaps, content);
    heaps.set_script_reg(d, content);
    reply
}

/// Empties a script register.
pub(crate) fn drop_script(heaps: &mut Heaps, d: RegNo) -> Reply
    requires within { d < bank_length }
    requires order { (owned : List ℕ) × IsInOrder owned heaps.old }
    ensures { (t : Telling) → IsDone (script_copied d None) heaps.old heaps.new result t t }
{
    heaps.set_script_reg(d, None);
    Reply::Done
}

/// Reads slot `i` of the native in a register into a script register.
pub(crate) fn get_script(heaps: &mut Heaps, d: RegNo, s: RegNo, i: u32) -> Reply
    requires within { d < bank_length }
    requires order { (owned : List ℕ) × IsInOrder owned heaps.old }
    requires slot { i < length (slots_at (objects_of heaps.old.heap) (n_register s)) }
    requires content { is_native_there (slot_at (objects_of heaps.old.heap) (n_register s) i) ≡ false }
    ensures { (t : Telling) → IsNamed (script_held d (slot_at (objects_of heaps.old.heap) (n_register s) i))
        (slot_at (objects_of heaps.old.heap) (n_register s) i) heaps.old heaps.new result t t }
{
    let content = as_script(native_content(heaps, s, i));
    hold(heaps, d, content)
}

/// Reads slot `i` of the script object in a register into a script register.
pub(crate) fn take(heaps: &mut Heaps, d: RegNo, s: RegNo, i: u32) -> Reply
    requires within { d < bank_length }
    requires order { (owned : List ℕ) × IsInOrder owned heaps.old }
    requires slot { i < length (slots_at (objects_of heaps.old.heap) (s_register s)) }
    ensures { (t : Telling) → IsNamed (script_held d (slot_at (objects_of heaps.old.heap) (s_register s) i))
        (slot_at (objects_of heaps.old.heap) (s_register s) i) heaps.old heaps.new result t t }
{
    let content = script_content(heaps, s, i);
    hold(heaps, d, content)
}

/// Reads the value of the key in a register in the weak map in another into a script register.
pub(crate) fn get_entry(heaps: &mut Heaps, d: RegNo, m: RegNo, k: RegNo) -> Reply
    requires within { d < bank_length }
    requires order { (owned : List ℕ) × IsInOrder owned heaps.old }
    ensures { (t : Telling) → IsNamed (script_held d (value_at (objects_of heaps.old.heap) (register heaps.old.heap (s_register m))
        (register heaps.old.heap (s_register k)))) (value_at (objects_of heaps.old.heap) (register heaps.old.heap (s_register m))
        (register heaps.old.heap (s_register k))) heaps.old heaps.new result t t }
{
    let content = entry_value(heaps, m, k);
    hold(heaps, d, content)
}

/// Writes slot `i` of the script object in a register; a reflector is preserved before, also where its slot is emptied.
fn store_script(heaps: &mut Heaps, d: RegNo, i: u32, content: Option<SKey>)
    requires order { (owned : List ℕ) × IsInOrder owned heaps.old }
    requires slot { i < length (slots_at (objects_of heaps.old.heap) (s_register d)) }
    requires there { IsScriptThere heaps.old content }
    requires black { IfSome content (λ k. colour_at heaps.old.scripts k.0 ≡ Some Black) }
    ensures heap { heaps.new.heap ≡ put_in_script heaps.old.heap (register heaps.old.heap (s_register d)) i (script_name heaps.old content) }
    ensures keys { KeepsKeys heaps.old heaps.new }
    ensures order { (owned : List ℕ) → IsInOrder owned heaps.old → IsInOrder owned heaps.new }
    ensures marks { MarksGoOn heaps.old heaps.new }
    ensures marking { AreListed heaps.old → marks_of heaps.new ≡ marks_of heaps.old }
{
    match heaps.script_reg(d) {
        Some(key) => {
            let _is_reflector = cc_wrappers::preserve(heaps, key);
            heaps.store_script(key, i as SlotNo, content);
        }
        None => unreachable!(),
    }
}

/// Writes what a source gives into slot `i` of the script object in a register.
pub(crate) fn put(heaps: &mut Heaps, d: RegNo, i: u32, from: Option<RegNo>) -> Reply
    requires order { (owned : List ℕ) × IsInOrder owned heaps.old }
    requires colours { HasColourInvariant (view heaps.old.heap) }
    requires slot { i < length (slots_at (objects_of heaps.old.heap) (s_register d)) }
    ensures { (t : Telling) → IsDone (script_stored (register heaps.old.heap (s_register d)) i (source heaps.old.heap (option_map s_register from))) heaps.old
        heaps.new result t t }
{
    let content = script_source(heaps, from);
    store_script(heaps, d, i, content);
    Reply::Done
}

/// Preserves the reflector in a register.
pub(crate) fn preserve(heaps: &mut Heaps, s: RegNo) -> Reply
    requires order { (owned : List ℕ) × IsInOrder owned heaps.old }
    requires there { is_none (register heaps.old.heap (s_register s)) ≡ false }
    ensures { (t : Telling) → IsDone (reflector_preserved (register heaps.old.heap (s_register s))) heaps.old heaps.new result t t }
{
    let Some(key) = heaps.script_reg(s) else {
        unreachable!();
    };
    let _ = cc_wrappers::preserve(heaps, key);
    Reply::Done
}

/// Gives the key in a register a value in the weak map in another; without one it has no value from then on.
///
/// `NoMemory` changes nothing, and comes only where a value is given to a key that had none.
fn write_entry(heaps: &mut Heaps, m: RegNo, k: RegNo, value: Option<SKey>) -> Result<(), NoMemory>
    requires order { (owned : List ℕ) × IsInOrder owned heaps.old }
    requires the_map { IsTrue (is_map_in (objects_of heaps.old.heap) (register heaps.old.heap (s_register m))) }
    requires key { is_none (register heaps.old.heap (s_register k)) ≡ false }
    requires value { IsScriptThere heaps.old value }
    ensures heap { OnOk result (heaps.new.heap ≡ entry_set heaps.old.heap (register heaps.old.heap (s_register m)) (register heaps.old.heap (s_register k))
        (script_name heaps.old value)) }
    ensures keys { KeepsKeys heaps.old heaps.new }
    ensures order { (owned : List ℕ) → IsInOrder owned heaps.old → IsInOrder owned heaps.new }
    ensures marks { MarksGoOn heaps.old heaps.new }
    ensures marking { AreListed heaps.old → marks_of heaps.new ≡ marks_of heaps.old }
    ensures same { OnErr result (heaps.new ≡ heaps.old) }
    ensures some { OnErr result (IsSome value) }
    ensures none { OnErr result (value_at (objects_of heaps.old.heap) (register heaps.old.heap (s_register m))
        (register heaps.old.heap (s_register k)) ≡ None) }
{
    let Some(the_map) = heaps.script_reg(m) else {
        unreachable!();
    };
    let Some(key) = heaps.script_reg(k) else {
        unreachable!();
    };
    match value {
        Some(value) => heaps.set_entry(the_map, key, value),
        None => {
            heaps.unset_entry(the_map, key);
            Ok(())
        }
    }
}

/// Writes what a source gives as the value of the key in a register in the weak map in another.
pub(crate) fn set_entry(heaps: &mut Heaps, m: RegNo, k: RegNo, from: Option<RegNo>) -> Reply
    requires order { (owned : List ℕ) × IsInOrder owned heaps.old }
    requires the_map { IsTrue (is_map_in (objects_of heaps.old.heap) (register heaps.old.heap (s_register m))) }
    requires key { is_none (register heaps.old.heap (s_register k)) ≡ false }
    ensures { (t : Telling) → IsAnswered (entry_written (register heaps.old.heap (s_register m)) (register heaps.old.heap (s_register k))
        (source heaps.old.heap (option_map s_register from))) done (takes_memory heaps.old.heap (SetEntry m k from)) heaps.old heaps.new result t t }
{
    let value = script_source(heaps, from);
    match write_entry(heaps, m, k, value) {
        Ok(()) => Reply::Done,
        Err(NoMemory) => Reply::Refused(Refusal::NoMemory),
    }
}

/// Script touches what a slot held; nothing where the slot was empty.
fn touch(heaps: &mut Heaps, content: Option<SKey>)
    requires order { (owned : List ℕ) × IsInOrder owned heaps.old }
    requires there { IsScriptThere heaps.old content }
    ensures heap { heaps.new.heap ≡ exposed heaps.old.heap (script_name heaps.old content) }
    ensures keys { KeepsKeys heaps.old heaps.new }
    ensures order { (owned : List ℕ) → IsInOrder owned heaps.old → IsInOrder owned heaps.new }
    ensures marks { MarksGoOn heaps.old heaps.new }
    ensures marking { marks_of heaps.new ≡ option_map (exposed_marks heaps.old.heap (script_name heaps.old content)) (marks_of heaps.old) }
{
    if let Some(key) = content {
        heaps.expose(key);
    }
}

/// Script touches the object in slot `i` of the native in a register.
pub(crate) fn expose(heaps: &mut Heaps, s: RegNo, i: u32) -> Reply
    requires order { (owned : List ℕ) × IsInOrder owned heaps.old }
    requires slot { i < length (slots_at (objects_of heaps.old.heap) (n_register s)) }
    requires content { is_native_there (slot_at (objects_of heaps.old.heap) (n_register s) i) ≡ false }
    ensures { (t : Telling) → IsNamed (object_exposed (slot_at (objects_of heaps.old.heap) (n_register s) i))
        (slot_at (objects_of heaps.old.heap) (n_register s) i) heaps.old heaps.new result t t }
{
    let content = as_script(native_content(heaps, s, i));
    let reply = naming_script(heaps, content);
    touch(heaps, content);
    reply
}
