//! The walk from the registers over the places of objects.
ghost use Rattle.std.specs.Prelude.{◌≡◌, ◌+◌, ℕ, List, length, option_to_list, Some, IsSome};
ghost use Rattle.cc_names.specs.Names.{native};
ghost use Rattle.cc_model.specs.Slots.{contents};
ghost use Rattle.cc_model.specs.Skipping.{forgotten, unmarked};
ghost use Rattle.cc_model.specs.View.{view};
ghost use Rattle.cc_counted.specs.declared.held.Held.TheVariants as held;
ghost use Rattle.cc_heaps.specs.Changes.{IsNativeThere, IsScriptThere, IsThere, held_name, native_name, script_name};
ghost use Rattle.cc_heaps.specs.Keeping.{KeepsAll, KeepsAllIfReached};
ghost use Rattle.cc_heaps.specs.Standing.{IsReached};
ghost use Rattle.cc_heaps.specs.Keyed.{IsInOrder, changed_to, number_at, the_number};
ghost use Rattle.cc_heaps.specs.Places.{places_at};
ghost use Rattle.cc_heaps.specs.Walking.{unwalked};
ghost use Rattle.cc_skip.specs.Forgetting.{unmarked_object};
ghost use Rattle.cc_skip.specs.Walked.{Enters};

use cc_counted::Held;
use cc_heaps::Heaps;
use cc_names::{NKey, SKey};

/// The walk over all that the registers reach by places. Each native that it gives loses its mark. How many had one.
pub(crate) fn walk(heaps: &mut Heaps) -> u32
    requires order { (owned : List ℕ) × IsInOrder owned heaps.old }
    requires empty { heaps.old ≡ unwalked heaps.old }
    ensures forgotten { unwalked heaps.new ≡ changed_to heaps.old (forgotten heaps.old.heap) }
    ensures count { result + length (view heaps.new.heap).purple ≡ length (view heaps.old.heap).purple }
    ensures kept { KeepsAll heaps.old heaps.new }
{
    enter_natives(heaps);
    enter_scripts(heaps);
    let mut forgotten = 0;
    'walk: while let Some(object) = heaps.walk_next() {
        enter_places(heaps, object);
        forgotten += unmark(heaps, object);
    }
    forgotten
}

/// A native loses the purple mark, where it has it. How many marks that takes: 1 or none.
fn unmark(heaps: &mut Heaps, object: Held) -> u32
    requires order { (owned : List ℕ) × IsInOrder owned heaps.old }
    requires there { IsThere heaps.old (Some object) }
    ensures heap { heaps.new ≡ changed_to heaps.old (unmarked_object heaps.old object) }
    ensures count { result + length (view heaps.new.heap).purple ≡ length (view heaps.old.heap).purple }
    ensures kept { KeepsAllIfReached (IsReached heaps.old.heap (held_name heaps.old (Some object))) heaps.old heaps.new }
{
    match object {
        Held::Native(key) => unmark_native(heaps, key),
        Held::Script(_) => 0,
    }
}

/// The same of the native at a key.
fn unmark_native(heaps: &mut Heaps, key: NKey) -> u32
    requires order { (owned : List ℕ) × IsInOrder owned heaps.old }
    requires live { IsSome (number_at heaps.old key.0) }
    ensures heap { heaps.new ≡ changed_to heaps.old (unmarked heaps.old.heap (the_number heaps.old key.0)) }
    ensures count { result + length (view heaps.new.heap).purple ≡ length (view heaps.old.heap).purple }
    ensures kept { KeepsAllIfReached (IsReached heaps.old.heap (Some (native (the_number heaps.old key.0)))) heaps.old heaps.new }
{
    if !heaps.counted().purple(key) {
        return 0;
    }
    heaps.unmark(key);
    1
}

/// What native registers hold comes into the walk.
fn enter_natives(heaps: &mut Heaps)
    ensures { Enters heaps.old heaps.new (contents heaps.old.heap.native_registers) }
{
    for r in 0..heaps.native_reg_count() {
        let content = heaps.native_reg(r);
        enter_native(heaps, content);
    }
}

/// What script registers hold comes into the walk.
fn enter_scripts(heaps: &mut Heaps)
    ensures { Enters heaps.old heaps.new (contents heaps.old.heap.script_registers) }
{
    for r in 0..heaps.script_reg_count() {
        let content = heaps.script_reg(r);
        enter_script(heaps, content);
    }
}

/// What an object refers to comes into the walk.
fn enter_places(heaps: &mut Heaps, object: Held)
    requires order { (owned : List ℕ) × IsInOrder owned heaps.old }
    requires there { IsThere heaps.old (Some object) }
    ensures { Enters heaps.old heaps.new (contents (places_at heaps.old object)) }
{
    match object {
        Held::Native(key) => enter_of_native(heaps, key),
        Held::Script(key) => enter_of_script(heaps, key),
    }
}

/// What a native refers to comes into the walk: what each slot holds, and its reflector, where that is preserved.
fn enter_of_native(heaps: &mut Heaps, key: NKey)
    requires order { (owned : List ℕ) × IsInOrder owned heaps.old }
    requires there { IsThere heaps.old (Some (held.Native key)) }
    ensures { Enters heaps.old heaps.new (contents (places_at heaps.old (held.Native key))) }
{
    for i in 0..heaps.counted().slots(key) {
        let content = heaps.counted().slot(key, i);
        enter(heaps, content);
    }
    if heaps.counted().preserved(key) {
        let its_reflector = heaps.counted().reflector(key);
        enter_script(heaps, its_reflector);
    }
}

/// What a script object refers to comes into the walk: what each slot holds, the delegate of a proxy, and the native of a
/// reflector.
fn enter_of_script(heaps: &mut Heaps, key: SKey)
    requires order { (owned : List ℕ) × IsInOrder owned heaps.old }
    requires there { IsThere heaps.old (Some (held.Script key)) }
    ensures { Enters heaps.old heaps.new (contents (places_at heaps.old (held.Script key))) }
{
    for i in 0..heaps.scripts().slots(key) {
        let content = heaps.scripts().slot(key, i);
        enter_script(heaps, content);
    }
    let delegate = heaps.scripts().delegate(key);
    enter_script(heaps, delegate);
    let native = heaps.scripts().native_of(key);
    enter_native(heaps, native);
}

/// What a place holds comes into the walk, where it holds something.
#[inline(always)]
fn enter(heaps: &mut Heaps, content: Option<Held>)
    requires there { IsThere heaps.old content }
    ensures { Enters heaps.old heaps.new (option_to_list (held_name heaps.old content)) }
{
    if let Some(object) = content {
        heaps.walk_add(object);
    }
}

/// The same of a native.
#[inline(always)]
fn enter_native(heaps: &mut Heaps, content: Option<NKey>)
    requires there { IsNativeThere heaps.old content }
    ensures { Enters heaps.old heaps.new (option_to_list (native_name heaps.old content)) }
{
    if let Some(key) = content {
        heaps.walk_add(Held::Native(key));
    }
}

/// The same of a script object.
#[inline(always)]
fn enter_script(heaps: &mut Heaps, content: Option<SKey>)
    requires there { IsScriptThere heaps.old content }
    ensures { Enters heaps.old heaps.new (option_to_list (script_name heaps.old content)) }
{
    if let Some(key) = content {
        heaps.walk_add(Held::Script(key));
    }
}
