//! Steps at script objects and at entries. None of them frees anything.
ghost use Rattle.std.specs.Prelude.{◌≡◌, ◌<◌, [], ◌∷◌, length, Option, Some, None, IsTrue, IfSome, OnOk, OnErr};
ghost use Rattle.cc_names.specs.declared.kind.Colour.TheVariants.{Black};
ghost use Rattle.cc_names.specs.declared.kind.Kind.TheVariants.{Map};
ghost use Rattle.cc_names.specs.declared.name.Name.{Name};
ghost use Rattle.cc_names.specs.declared.register.Reg.TheVariants.{S as s_register};
ghost use Rattle.cc_laws_told.specs.Lasting.{KeepsEnded};
ghost use Rattle.cc_host.specs.Hosted.{roots};
ghost use Rattle.cc_host.specs.Lasting.{KeepsUsable};
ghost use Rattle.cc_model.specs.Checks.{value_at};
ghost use Rattle.cc_model.specs.Graph as graph;
ghost use Rattle.cc_model.specs.Heap.{objects_of};
ghost use Rattle.cc_script.specs.Objects.{colour_at, is_there, kind_at, slots_at};
ghost use Rattle.cc_heaps.specs.Changes.{IsScriptThere, script_name};
ghost use Rattle.cc_heaps.specs.Leaving.{NoneCame, NothingLeft};
ghost use Rattle.cc_heaps.specs.Standing.{IsReached, IsReachedOrReflects, MayHold};
ghost use Rattle.cc_host.specs.Exposing.{AreSame, Exposes};
ghost use Rattle.cc_host.specs.Changes.{IsReady, IsChange, IsTried};
ghost use Rattle.cc_host.specs.Places.{KeepsPlaces};
ghost use Rattle.cc_host.specs.Spots.{IsWritten, Spot, WritesOnly, if_reflector, reads};
ghost use Rattle.cc_host.specs.Marked.{IsPastIfAny, KeepsMarking};
ghost use Rattle.cc_markslice.specs.Going.{IsMarkingWell};

use cc_heaps::Heaps;
use cc_names::{NoMemory, RegNo, SKey, SlotNo};
use cc_wrappers::preserve;

/// A script object is exposed: it is black, and all but colours stays as it was.
pub(crate) fn expose_key(heaps: &mut Heaps, key: SKey)
    requires ready { IsReady heaps.old }
    requires live { IsTrue (is_there heaps.old.scripts key.0) }
    ensures exposes { Exposes (IsReachedOrReflects heaps.old.heap (script_name heaps.old (Some key))) heaps.old heaps.new }
    ensures spots { (s : Spot) → reads heaps.new.heap s ≡ reads heaps.old.heap s }
    ensures marking { KeepsMarking heaps.old heaps.new }
    ensures places { KeepsPlaces heaps.old.heap heaps.new.heap }
    ensures past { IsMarkingWell heaps.old → IsPastIfAny heaps.new (script_name heaps.old (Some key)) }
    ensures ready { IsReady heaps.new }
    ensures black { colour_at heaps.new.scripts key.0 ≡ Some Black }
{
    heaps.expose(key);
}

/// What is to be stored is exposed.
fn expose_content(heaps: &mut Heaps, content: Option<SKey>)
    requires ready { IsReady heaps.old }
    requires there { IsScriptThere heaps.old content }
    ensures exposes { Exposes (IsReachedOrReflects heaps.old.heap (script_name heaps.old content)) heaps.old heaps.new }
    ensures spots { (s : Spot) → reads heaps.new.heap s ≡ reads heaps.old.heap s }
    ensures marking { KeepsMarking heaps.old heaps.new }
    ensures places { KeepsPlaces heaps.old.heap heaps.new.heap }
    ensures past { IsMarkingWell heaps.old → IsPastIfAny heaps.new (script_name heaps.old content) }
    ensures ready { IsReady heaps.new }
    ensures black { IfSome content (λ k. colour_at heaps.new.scripts k.0 ≡ Some Black) }
{
    if let Some(key) = content {
        expose_key(heaps, key);
    }
}

/// A root holds a script object from then on, or nothing. What comes into it is exposed.
pub(crate) fn root_script(heaps: &mut Heaps, r: RegNo, content: Option<SKey>)
    requires ready { IsReady heaps.old }
    requires within { r < roots }
    requires there { IsScriptThere heaps.old content }
    ensures change { IsChange (IsReachedOrReflects heaps.old.heap (script_name heaps.old content))
        (λ g. graph.set_register g (s_register r) (script_name heaps.old content)) heaps.old heaps.new }
    ensures writes { WritesOnly (Spot.register (s_register r) ∷ []) heaps.old.heap heaps.new.heap }
    ensures written { IsWritten (Spot.register (s_register r)) (script_name heaps.old content) heaps.new.heap }
    ensures marking { KeepsMarking heaps.old heaps.new }
    ensures places { KeepsPlaces heaps.old.heap heaps.new.heap }
    ensures none_left { NothingLeft heaps.old.heap heaps.new.heap }
    ensures none_came { NoneCame heaps.old.heap heaps.new.heap }
    ensures ended { KeepsEnded heaps.old.heap heaps.new.heap }
    ensures usable { KeepsUsable heaps.old.heap heaps.new.heap }
{
    heaps.set_script_reg(r, content);
}

/// Slot `i` of a plain object or a reflector holds a script object from then on, or nothing. A reflector is preserved before.
pub(crate) fn store_script(heaps: &mut Heaps, key: SKey, i: SlotNo, content: Option<SKey>)
    requires ready { IsReady heaps.old }
    requires live { IsTrue (is_there heaps.old.scripts key.0) }
    requires within { i < length (slots_at heaps.old.scripts key.0) }
    requires there { IsScriptThere heaps.old content }
    ensures change { IsChange (IsReachedOrReflects heaps.old.heap (script_name heaps.old (Some key))
        × IsReachedOrReflects heaps.old.heap (script_name heaps.old content))
        (λ g. graph.set_slot (graph.preserve g (script_name heaps.old (Some key))) (script_name heaps.old (Some key)) i
        (script_name heaps.old content)) heaps.old heaps.new }
    ensures writes { (x : Name) → script_name heaps.old (Some key) ≡ Some x →
        WritesOnly (Spot.slot x i ∷ Spot.preserved x ∷ []) heaps.old.heap heaps.new.heap }
    ensures written { (x : Name) → script_name heaps.old (Some key) ≡ Some x → IsWritten (Spot.slot x i) (script_name heaps.old content) heaps.new.heap }
    ensures preserves { (x : Name) → script_name heaps.old (Some key) ≡ Some x → IsWritten (Spot.preserved x) (if_reflector x) heaps.new.heap }
    ensures marking { KeepsMarking heaps.old heaps.new }
    ensures places { KeepsPlaces heaps.old.heap heaps.new.heap }
    ensures none_left { NothingLeft heaps.old.heap heaps.new.heap }
    ensures none_came { NoneCame heaps.old.heap heaps.new.heap }
    ensures ended { KeepsEnded heaps.old.heap heaps.new.heap }
    ensures usable { KeepsUsable heaps.old.heap heaps.new.heap }
{
    expose_content(heaps, content);
    preserve_reflector(heaps, key);
    heaps.store_script(key, i, content);
}

/// A reflector is preserved from then on. What is none stays as it is.
pub(crate) fn preserve_reflector(heaps: &mut Heaps, key: SKey)
    requires ready { IsReady heaps.old }
    requires live { IsTrue (is_there heaps.old.scripts key.0) }
    ensures change { IsChange (IsReachedOrReflects heaps.old.heap (script_name heaps.old (Some key)))
        (λ g. graph.preserve g (script_name heaps.old (Some key))) heaps.old heaps.new }
    ensures writes { (x : Name) → script_name heaps.old (Some key) ≡ Some x → WritesOnly (Spot.preserved x ∷ []) heaps.old.heap heaps.new.heap }
    ensures preserves { (x : Name) → script_name heaps.old (Some key) ≡ Some x → IsWritten (Spot.preserved x) (if_reflector x) heaps.new.heap }
    ensures marking { KeepsMarking heaps.old heaps.new }
    ensures places { KeepsPlaces heaps.old.heap heaps.new.heap }
    ensures keys { heaps.new.keys ≡ heaps.old.keys }
    ensures same { AreSame heaps.old.scripts heaps.new.scripts }
    ensures reached { (x : Option Name) → IsReached heaps.old.heap x → IsReached heaps.new.heap x }
    ensures held { IsReachedOrReflects heaps.old.heap (script_name heaps.old (Some key)) → IsReached heaps.new.heap (script_name heaps.old (Some key)) }
    ensures may_hold { MayHold heaps.new.heap (script_name heaps.old (Some key)) }
    ensures none_left { NothingLeft heaps.old.heap heaps.new.heap }
    ensures none_came { NoneCame heaps.old.heap heaps.new.heap }
    ensures ended { KeepsEnded heaps.old.heap heaps.new.heap }
    ensures usable { KeepsUsable heaps.old.heap heaps.new.heap }
{
    expose_key(heaps, key);
    preserve(heaps, key);
}

/// A key has a value in a weak map from then on.
///
/// `NoMemory` leaves what is there, its key and its value exposed, and comes only where there was no entry.
pub(crate) fn set_entry(
    heaps: &mut Heaps,
    the_map: SKey,
    key: SKey,
    value: SKey,
) -> Result<(), NoMemory>
    requires ready { IsReady heaps.old }
    requires the_map { kind_at heaps.old.scripts the_map.0 ≡ Some Map }
    requires key { IsTrue (is_there heaps.old.scripts key.0) }
    requires value { IsTrue (is_there heaps.old.scripts value.0) }
    ensures change { OnOk result (IsChange (IsReached heaps.old.heap (script_name heaps.old (Some the_map))
        × IsReachedOrReflects heaps.old.heap (script_name heaps.old (Some key))
        × IsReachedOrReflects heaps.old.heap (script_name heaps.old (Some value)))
        (λ g. graph.set_entry g (script_name heaps.old (Some the_map)) (script_name heaps.old (Some key))
        (script_name heaps.old (Some value))) heaps.old heaps.new) }
    ensures writes { OnOk result ((m k : Name) → script_name heaps.old (Some the_map) ≡ Some m → script_name heaps.old (Some key) ≡ Some k →
        WritesOnly (Spot.entry m k ∷ Spot.preserved k ∷ []) heaps.old.heap heaps.new.heap) }
    ensures written { OnOk result ((m k : Name) → script_name heaps.old (Some the_map) ≡ Some m → script_name heaps.old (Some key) ≡ Some k →
        IsWritten (Spot.entry m k) (script_name heaps.old (Some value)) heaps.new.heap) }
    ensures preserves { OnOk result ((k : Name) → script_name heaps.old (Some key) ≡ Some k → IsWritten (Spot.preserved k) (if_reflector k) heaps.new.heap) }
    ensures tried { OnErr result (IsTried (IsReachedOrReflects heaps.old.heap (script_name heaps.old (Some key))
        × IsReachedOrReflects heaps.old.heap (script_name heaps.old (Some value))) heaps.old heaps.new) }
    ensures unwritten { OnErr result (WritesOnly [] heaps.old.heap heaps.new.heap) }
    ensures wanted { OnErr result (value_at (objects_of heaps.old.heap) (script_name heaps.old (Some the_map)) (script_name heaps.old (Some key)) ≡ None) }
    ensures marking { KeepsMarking heaps.old heaps.new }
    ensures places { KeepsPlaces heaps.old.heap heaps.new.heap }
    ensures none_left { NothingLeft heaps.old.heap heaps.new.heap }
    ensures none_came { NoneCame heaps.old.heap heaps.new.heap }
    ensures ended { KeepsEnded heaps.old.heap heaps.new.heap }
    ensures usable { KeepsUsable heaps.old.heap heaps.new.heap }
{
    expose_key(heaps, key);
    expose_key(heaps, value);
    heaps.set_entry(the_map, key, value)
}

/// A key has no value in a weak map from then on.
pub(crate) fn unset_entry(heaps: &mut Heaps, the_map: SKey, key: SKey)
    requires ready { IsReady heaps.old }
    requires the_map { kind_at heaps.old.scripts the_map.0 ≡ Some Map }
    requires key { IsTrue (is_there heaps.old.scripts key.0) }
    ensures change { IsChange (IsReached heaps.old.heap (script_name heaps.old (Some the_map))
        × IsReachedOrReflects heaps.old.heap (script_name heaps.old (Some key)))
        (λ g. graph.set_entry g (script_name heaps.old (Some the_map)) (script_name heaps.old (Some key)) None) heaps.old heaps.new }
    ensures writes { (m k : Name) → script_name heaps.old (Some the_map) ≡ Some m → script_name heaps.old (Some key) ≡ Some k →
        WritesOnly (Spot.entry m k ∷ []) heaps.old.heap heaps.new.heap }
    ensures written { (m k : Name) → script_name heaps.old (Some the_map) ≡ Some m → script_name heaps.old (Some key) ≡ Some k →
        IsWritten (Spot.entry m k) None heaps.new.heap }
    ensures marking { KeepsMarking heaps.old heaps.new }
    ensures places { KeepsPlaces heaps.old.heap heaps.new.heap }
    ensures none_left { NothingLeft heaps.old.heap heaps.new.heap }
    ensures none_came { NoneCame heaps.old.heap heaps.new.heap }
    ensures ended { KeepsEnded heaps.old.heap heaps.new.heap }
    ensures usable { KeepsUsable heaps.old.heap heaps.new.heap }
{
    heaps.unset_entry(the_map, key);
}
