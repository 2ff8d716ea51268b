//! What registers and slots hold, by keys and by names.
ghost use Rattle.std.specs.Prelude.{◌≡◌, ◌<◌, ℕ, List, false, length, is_none, option_map};
ghost use Rattle.cc_names.specs.declared.register.Reg.TheVariants.{N as n_register, S as s_register};
ghost use Rattle.cc_model.specs.Checks.{named_or_nothing, native_of, slot_at, slots_at, value_at};
ghost use Rattle.cc_model.specs.Heap.{objects_of, register, source};
ghost use Rattle.cc_counted.specs.Counts.{held_of_native};
ghost use Rattle.cc_heaps.specs.Keyed.{IsInOrder};
ghost use Rattle.cc_heaps.specs.Changes.{IsNativeThere, IsScriptThere, IsThere, held_name, native_name, script_name};
ghost use Rattle.cc_mutator.specs.Commands.{held_of_script, is_native_held, is_script_held};

use cc_counted::Held;
use cc_heaps::Heaps;
use cc_model::Reply;
use cc_names::{NKey, Name, Reg, RegNo, SKey, SlotNo};

/// How many slots the native in a register has; 0 where the register is empty.
fn native_slots(heaps: &Heaps, r: RegNo) -> SlotNo
    requires { (owned : List ℕ) × IsInOrder owned heaps.now }
    ensures { result ≡ length (slots_at (objects_of heaps.now.heap) (n_register r)) }
{
    match heaps.native_reg(r) {
        Some(key) => heaps.counted().slots(key),
        None => 0,
    }
}

/// How many slots the script object in a register has; 0 where the register is empty.
fn script_slots(heaps: &Heaps, r: RegNo) -> SlotNo
    requires { (owned : List ℕ) × IsInOrder owned heaps.now }
    ensures { result ≡ length (slots_at (objects_of heaps.now.heap) (s_register r)) }
{
    match heaps.script_reg(r) {
        Some(key) => heaps.scripts().slots(key),
        None => 0,
    }
}

/// How many slots the object in a register has; 0 where the register is empty, as a weak register reads.
pub(crate) fn slots(heaps: &Heaps, r: Reg) -> SlotNo
    requires { (owned : List ℕ) × IsInOrder owned heaps.now }
    ensures { result ≡ length (slots_at (objects_of heaps.now.heap) r) }
{
    match r {
        Reg::N(k) => native_slots(heaps, k),
        Reg::S(k) => script_slots(heaps, k),
        Reg::W(_) => 0,
    }
}

/// The content of slot `i` of the native in a register.
pub(crate) fn native_content(heaps: &Heaps, r: RegNo, i: u32) -> Option<Held>
    requires order { (owned : List ℕ) × IsInOrder owned heaps.now }
    requires slot { i < length (slots_at (objects_of heaps.now.heap) (n_register r)) }
    ensures name { held_name heaps.now result ≡ slot_at (objects_of heaps.now.heap) (n_register r) i }
    ensures there { IsThere heaps.now result }
{
    match heaps.native_reg(r) {
        Some(key) => heaps.counted().slot(key, i as SlotNo),
        None => unreachable!(),
    }
}

/// The content of slot `i` of the script object in a register.
pub(crate) fn script_content(heaps: &Heaps, r: RegNo, i: u32) -> Option<SKey>
    requires order { (owned : List ℕ) × IsInOrder owned heaps.now }
    requires slot { i < length (slots_at (objects_of heaps.now.heap) (s_register r)) }
    ensures name { script_name heaps.now result ≡ slot_at (objects_of heaps.now.heap) (s_register r) i }
    ensures there { IsScriptThere heaps.now result }
{
    match heaps.script_reg(r) {
        Some(key) => heaps.scripts().slot(key, i as SlotNo),
        None => unreachable!(),
    }
}

/// The value that the key in a register has in the weak map in another. None exactly where it has none.
pub(crate) fn entry_value(heaps: &Heaps, m: RegNo, k: RegNo) -> Option<SKey>
    requires { (owned : List ℕ) × IsInOrder owned heaps.now }
    ensures name { script_name heaps.now result ≡ value_at (objects_of heaps.now.heap) (register heaps.now.heap (s_register m))
        (register heaps.now.heap (s_register k)) }
    ensures there { IsScriptThere heaps.now result }
{
    let the_map = heaps.script_reg(m)?;
    let key = heaps.script_reg(k)?;
    heaps.weak().get(the_map, key)
}

/// The native of the reflector in a script register. None where the register holds no reflector.
pub(crate) fn native_behind(heaps: &Heaps, r: RegNo) -> Option<NKey>
    requires { (owned : List ℕ) × IsInOrder owned heaps.now }
    ensures name { native_name heaps.now result ≡ native_of (register heaps.now.heap (s_register r)) }
    ensures there { IsNativeThere heaps.now result }
{
    let object = heaps.script_reg(r)?;
    cc_wrappers::unwrap_of(heaps, object)
}

/// A content of a script register, as a slot of a native holds it.
fn of_script(content: Option<SKey>) -> Option<Held>
    ensures { result ≡ held_of_script content }
{
    match content {
        Some(key) => Some(Held::Script(key)),
        None => None,
    }
}

/// The native in a content that is no script object.
pub(crate) fn as_native(content: Option<Held>) -> Option<NKey>
    requires { is_script_held content ≡ false }
    ensures { held_of_native result ≡ content }
{
    match content {
        Some(Held::Native(key)) => Some(key),
        Some(Held::Script(_)) => unreachable!(),
        None => None,
    }
}

/// The script object in a content that is no native.
pub(crate) fn as_script(content: Option<Held>) -> Option<SKey>
    requires { is_native_held content ≡ false }
    ensures { held_of_script result ≡ content }
{
    match content {
        Some(Held::Script(key)) => Some(key),
        Some(Held::Native(_)) => unreachable!(),
        None => None,
    }
}

/// What a register holds; a weak register reads as empty.
pub(crate) fn register_content(heaps: &Heaps, r: Reg) -> Option<Held>
    ensures name { held_name heaps.now result ≡ register heaps.now.heap r }
    ensures there { IsThere heaps.now result }
{
    match r {
        Reg::N(k) => Held::of_native(heaps.native_reg(k)),
        Reg::S(k) => of_script(heaps.script_reg(k)),
        Reg::W(_) => None,
    }
}

/// What a source gives to a slot of a native.
pub(crate) fn source_content(heaps: &Heaps, from: Option<Reg>) -> Option<Held>
    ensures name { held_name heaps.now result ≡ source heaps.now.heap from }
    ensures there { IsThere heaps.now result }
{
    match from {
        Some(r) => register_content(heaps, r),
        None => None,
    }
}

/// What a source gives to a slot of a script object.
pub(crate) fn script_source(heaps: &Heaps, from: Option<RegNo>) -> Option<SKey>
    ensures name { script_name heaps.now result ≡ source heaps.now.heap (option_map s_register from) }
    ensures there { IsScriptThere heaps.now result }
{
    match from {
        Some(r) => heaps.script_reg(r),
        None => None,
    }
}

/// Whether a register is empty.
pub(crate) fn is_empty(heaps: &Heaps, r: Reg) -> bool
    requires { (owned : List ℕ) × IsInOrder owned heaps.now }
    ensures { result ≡ is_none (register heaps.now.heap r) }
{
    register_content(heaps, r).is_none()
}

/// The reply that names a native, or tells that there was nothing.
pub(crate) fn naming_native(heaps: &Heaps, content: Option<NKey>) -> Reply
    requires { IsNativeThere heaps.now content }
    ensures { result ≡ named_or_nothing (native_name heaps.now content) }
{
    match content {
        Some(key) => match heaps.counted().number(key) {
            Some(number) => Reply::Named(Name::Native(number)),
            None => unreachable!(),
        },
        None => Reply::Nothing,
    }
}

/// The reply that names a script object, or tells that there was nothing.
pub(crate) fn naming_script(heaps: &Heaps, content: Option<SKey>) -> Reply
    requires { IsScriptThere heaps.now content }
    ensures { result ≡ named_or_nothing (script_name heaps.now content) }
{
    match content {
        Some(key) => Reply::Named(heaps.scripts().name(key)),
        None => Reply::Nothing,
    }
}

/// The reply that names what is held, or tells that there was nothing.
pub(crate) fn naming(heaps: &Heaps, content: Option<Held>) -> Reply
    requires { IsThere heaps.now content }
    ensures { result ≡ named_or_nothing (held_name heaps.now content) }
{
    match content {
        Some(Held::Native(key)) => naming_native(heaps, Some(key)),
        Some(Held::Script(key)) => naming_script(heaps, Some(key)),
        None => Reply::Nothing,
    }
}
