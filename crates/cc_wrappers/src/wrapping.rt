//! Natives wrapped, and reflectors unwrapped and preserved.
ghost use Rattle.std.specs.Prelude.{◌≡◌, true, false, ℕ, List, Option, Some, IsSome, IsTrue, IfOk, OnOk, OnErr, option_map};
ghost use Rattle.cc_names.specs.declared.name.Name.{Name};
ghost use Rattle.cc_names.specs.declared.kind.Colour.TheVariants.{Black};
ghost use Rattle.cc_names.specs.Names.{native, reflector, is_reflector};
ghost use Rattle.cc_model.specs.Checks.{native_of};
ghost use Rattle.cc_model.specs.Effects.{wrapped};
ghost use Rattle.cc_model.specs.Graph as graph;
ghost use Rattle.cc_model.specs.Heap.{has_reflector, preserve as preserved};
ghost use Rattle.cc_model.specs.Marking.{exposed_marks};
ghost use Rattle.cc_script.specs.Objects.{colour_at, is_there, name_at};
ghost use Rattle.cc_heaps.specs.Keyed.{IsInOrder, number_at, the_number, changed_to};
ghost use Rattle.cc_heaps.specs.Changes.{IsNativeThere, IsScriptThere, native_name};
ghost use Rattle.cc_heaps.specs.Standing.{IsReached, MayHold, StandsAfter};
ghost use Rattle.cc_heaps.specs.Few.{AreOwnedOnce};
ghost use Rattle.cc_heaps.specs.Keeping.{KeepsAllIfBlack, KeepsAllIfReached};
ghost use Rattle.cc_heaps.specs.NewMarks.{AreListed, marks_of};

use cc_heaps::Heaps;
use cc_names::{NKey, NoMemory, SKey};

/// The reflector of a native, for script: it is black, with all that it reaches over slots and from proxies to their
/// delegates. The one that the native has is exposed, by the new mark too where a marking goes on in slices; where it has none,
/// one is made, which is black by it.
///
/// `NoMemory` only where the native has no reflector; it changes nothing.
pub fn wrap(heaps: &mut Heaps, key: NKey) -> Result<SKey, NoMemory>
    requires order { (owned : List ℕ) × IsInOrder owned heaps.old × AreOwnedOnce owned }
    requires live { IsSome (number_at heaps.old key.0) }
    ensures heap { OnOk result (heaps.new.heap ≡ wrapped heaps.old.heap (Some (native (the_number heaps.old key.0)))) }
    ensures name { IfOk result (λ made. name_at heaps.new.scripts made.0 ≡ Some (reflector (the_number heaps.old key.0))) }
    ensures there { IfOk result (λ made. IsScriptThere heaps.new (Some made)) }
    ensures black { IfOk result (λ made. colour_at heaps.new.scripts made.0 ≡ Some Black) }
    ensures lacks { OnErr result (has_reflector heaps.old.heap (the_number heaps.old key.0) ≡ false) }
    ensures same { OnErr result (heaps.new ≡ heaps.old) }
    ensures natives { heaps.new.keys ≡ heaps.old.keys }
    ensures kept { KeepsAllIfReached (IsReached heaps.old.heap (Some (native (the_number heaps.old key.0)))) heaps.old heaps.new }
    ensures marking { AreListed heaps.old →
        OnOk result (marks_of heaps.new ≡ option_map (exposed_marks heaps.old.heap (Some (reflector (the_number heaps.old key.0)))) (marks_of heaps.old)) }
    ensures stands { OnOk result (IsReached heaps.old.heap (Some (native (the_number heaps.old key.0))) →
        StandsAfter heaps.old.heap heaps.new.heap (λ g. graph.wrapped g (Some (native (the_number heaps.old key.0))))) }
    ensures reached { (x : Option Name) → IsReached heaps.old.heap x → IsReached heaps.new.heap x }
{
    match heaps.counted().reflector(key) {
        Some(there) => {
            heaps.expose(there);
            Ok(there)
        }
        None => heaps.new_reflector(key),
    }
}

/// The native that a reflector stands for; none exactly where the object is no reflector.
pub fn unwrap_of(heaps: &Heaps, key: SKey) -> Option<NKey>
    requires order { (owned : List ℕ) × IsInOrder owned heaps.now }
    requires live { IsTrue (is_there heaps.now.scripts key.0) }
    ensures name { native_name heaps.now result ≡ native_of (name_at heaps.now.scripts key.0) }
    ensures there { IsNativeThere heaps.now result }
{
    heaps.scripts().native_of(key)
}

/// A reflector is preserved from then on: its native holds it, and it may hold something itself. Whether the object is a
/// reflector; nothing changes where it is none.
///
/// Snapshots stay fresh where the object is black, as each is that script hands out. Takes no memory.
pub fn preserve(heaps: &mut Heaps, key: SKey) -> bool
    requires order { (owned : List ℕ) × IsInOrder owned heaps.old }
    requires live { IsTrue (is_there heaps.old.scripts key.0) }
    ensures reflects { option_map is_reflector (name_at heaps.old.scripts key.0) ≡ Some result }
    ensures heap { heaps.new ≡ changed_to heaps.old (preserved heaps.old.heap (name_at heaps.old.scripts key.0)) }
    ensures same { result ≡ false → heaps.new ≡ heaps.old }
    ensures kept { KeepsAllIfBlack (colour_at heaps.old.scripts key.0 ≡ Some Black) heaps.old heaps.new }
    ensures stands { IsReached heaps.old.heap (name_at heaps.old.scripts key.0) →
        StandsAfter heaps.old.heap heaps.new.heap (λ g. graph.preserve g (name_at heaps.old.scripts key.0)) }
    ensures reached { (x : Option Name) → IsReached heaps.old.heap x → IsReached heaps.new.heap x }
    ensures may_hold { MayHold heaps.new.heap (name_at heaps.old.scripts key.0) }
{
    match unwrap_of(heaps, key) {
        Some(native) => {
            heaps.set_preserved(native);
            true
        }
        None => false,
    }
}
