//! The changes that a host makes: each is one change of the heaps, which keeps all that the collector wants of them.
//!
//! What is written is in a register of the host's own meanwhile, so that it is reached; what is stored is exposed before, so
//! that it is black. When the native leaves that register again it is a suspect, and the next collection looks at it.
ghost use Rattle.std.specs.Prelude.{◌≡◌, ◌≢◌, ◌⊎◌, ◌+◌, ◌<◌, ◌≤◌, ℕ, false, [], ◌∷◌, length, Option, Some, None, Err, IsSome, IfOk, OnOk, OnErr};
ghost use Rattle.cc_lists.specs.Members.{Among};
ghost use Rattle.cc_names.specs.declared.name.Name.{Name};
ghost use Rattle.cc_names.specs.declared.register.Reg.TheVariants.{N as n_register};
ghost use Rattle.cc_names.specs.Names.{native};
ghost use Rattle.cc_names.specs.Sizes.{most_slots};
ghost use Rattle.cc_model.specs.Checks.{reflector_of};
ghost use Rattle.cc_model.specs.End.{slots_now};
ghost use Rattle.cc_model.specs.Graph as graph;
ghost use Rattle.cc_model.specs.Heap.{has_reflector, native_at, register};
ghost use Rattle.cc_model.specs.Telling.{TellsEvents};
ghost use Rattle.cc_model.specs.WellFormed.{names_there};
ghost use Rattle.cc_counted.specs.Counts.{slots_of, unlinked_at};
ghost use Rattle.cc_heaps.specs.Keyed.{IsInOrder, counts_of, number_at, the_number};
ghost use Rattle.cc_heaps.specs.Changes.{IsBlackHeld, IsNativeThere, IsThere, held_name, native_name, script_name, slot_held};
ghost use Rattle.cc_heaps.specs.Leaving.{NoneCame, TellsWhatIsFreed};
ghost use Rattle.cc_heaps.specs.Standing.{IsReached, IsReachedOrReflects, MayBeHeld, StandsAfter};
ghost use Rattle.cc_laws_told.specs.Lasting.{KeepsEnded};
ghost use Rattle.cc_host.specs.Hosted.{roots, spare};
ghost use Rattle.cc_host.specs.Lasting.{KeepsUsable};
ghost use Rattle.cc_host.specs.Missing.{KeepsDoomedBut};
ghost use Rattle.cc_host.specs.Holding.{IsHeld, IsLetGo};
ghost use Rattle.cc_host.specs.Changes.{IsReady, IsChange, IsTried, OneCame, StaysThere};
ghost use Rattle.cc_host.specs.Places.{KeepsPlaces};
ghost use Rattle.cc_host.specs.Spots.{IsWritten, Spot, WritesOnly, reads};
ghost use Rattle.cc_host.specs.Marked.{IsPastIfAny, KeepsMarking};
ghost use Rattle.cc_markslice.specs.Going.{IsMarkingWell};

mod making;
mod placing;
mod scripts;

use crate::runtime::NUMBERED_ROOTS;
use cc_counted::Held;
use cc_heaps::Heaps;
use cc_model::Notices;
use cc_names::{NKey, NoMemory, RegNo, SKey, SlotNo};
use cc_wrappers::wrap;
pub(crate) use making::{make_map, make_native, make_plain, make_proxy};
pub(crate) use placing::{place_native, place_script, unplace_native, unplace_script};
use scripts::expose_key;
pub(crate) use scripts::{preserve_reflector, root_script, set_entry, store_script, unset_entry};

/// A root holds a native from then on, or nothing.
pub(crate) fn root_native<N: Notices>(
    heaps: &mut Heaps,
    r: RegNo,
    content: Option<NKey>,
    out: &mut N,
)
    requires ready { IsReady heaps.old }
    requires within { r < roots }
    requires there { IsNativeThere heaps.old content }
    ensures change { IsChange (IsReached heaps.old.heap (native_name heaps.old content))
        (λ g. graph.set_register g (n_register r) (native_name heaps.old content)) heaps.old heaps.new }
    ensures writes { WritesOnly (Spot.register (n_register r) ∷ []) heaps.old.heap heaps.new.heap }
    ensures written { IsWritten (Spot.register (n_register r)) (native_name heaps.old content) heaps.new.heap }
    ensures marking { KeepsMarking heaps.old heaps.new }
    ensures places { KeepsPlaces heaps.old.heap heaps.new.heap }
    ensures stands { MayBeHeld heaps.old.heap (native_name heaps.old content) →
        StandsAfter heaps.old.heap heaps.new.heap (λ g. graph.set_register g (n_register r) (native_name heaps.old content)) }
    ensures doomed { KeepsDoomedBut (native_name heaps.old content) heaps.old.heap heaps.new.heap }
    ensures held { register heaps.new.heap (n_register r) ≡ native_name heaps.old content }
    ensures none_came { NoneCame heaps.old.heap heaps.new.heap }
    ensures tells { TellsWhatIsFreed heaps.old.heap heaps.new.heap (N.telling out.old) (N.telling out.new) }
    ensures ended { KeepsEnded heaps.old.heap heaps.new.heap }
    ensures usable { KeepsUsable heaps.old.heap heaps.new.heap }
{
    heaps.set_native_reg(r, content, out);
}

/// A script object that is to be stored is exposed.
fn expose_held(heaps: &mut Heaps, content: Option<Held>)
    requires ready { IsReady heaps.old }
    requires there { IsThere heaps.old content }
    ensures change { IsTried (IsReachedOrReflects heaps.old.heap (held_name heaps.old content)) heaps.old heaps.new }
    ensures writes { WritesOnly [] heaps.old.heap heaps.new.heap }
    ensures marking { KeepsMarking heaps.old heaps.new }
    ensures places { KeepsPlaces heaps.old.heap heaps.new.heap }
    ensures past { IsMarkingWell heaps.old → IsPastIfAny heaps.new (held_name heaps.old content) }
    ensures black { IsBlackHeld heaps.new content }
    ensures stays { StaysThere heaps.old heaps.new }
    ensures keys { heaps.new.keys ≡ heaps.old.keys }
    ensures slots { (k : ℕ) → slots_now (native_at heaps.new.heap k) ≡ slots_now (native_at heaps.old.heap k) }
    ensures names { names_there heaps.new.heap ≡ names_there heaps.old.heap }
    ensures reached { (x : Option Name) → IsReached heaps.old.heap x → IsReached heaps.new.heap x }
    ensures registers { heaps.new.heap.native_registers ≡ heaps.old.heap.native_registers }
    ensures made { heaps.new.heap.natives_made ≡ heaps.old.heap.natives_made }
    ensures ended { KeepsEnded heaps.old.heap heaps.new.heap }
    ensures usable { KeepsUsable heaps.old.heap heaps.new.heap }
{
    match content {
        Some(Held::Script(key)) => expose_key(heaps, key),
        Some(Held::Native(_key)) => {}
        None => {}
    }
}

/// The host's own register holds a native, so that it is reached. Nothing is freed.
fn hold<N: Notices>(heaps: &mut Heaps, key: NKey, out: &mut N)
    requires ready { IsReady heaps.old }
    requires live { IsSome (number_at heaps.old key.0) }
    ensures held { IsHeld key heaps.old heaps.new }
    ensures writes { WritesOnly (Spot.register (n_register spare) ∷ []) heaps.old.heap heaps.new.heap }
    ensures marking { KeepsMarking heaps.old heaps.new }
    ensures places { KeepsPlaces heaps.old.heap heaps.new.heap }
    ensures told { TellsEvents (N.telling out.old) (N.telling out.new) [] }
{
    heaps.set_native_reg(NUMBERED_ROOTS, Some(key), out);
}

/// The host's own register is empty again.
fn let_go<N: Notices>(heaps: &mut Heaps, out: &mut N)
    requires order { IsInOrder [] heaps.old }
    ensures empty { IsLetGo heaps.old heaps.new }
    ensures writes { WritesOnly (Spot.register (n_register spare) ∷ []) heaps.old.heap heaps.new.heap }
    ensures marking { KeepsMarking heaps.old heaps.new }
    ensures places { KeepsPlaces heaps.old.heap heaps.new.heap }
    ensures tells { TellsWhatIsFreed heaps.old.heap heaps.new.heap (N.telling out.old) (N.telling out.new) }
{
    heaps.set_native_reg(NUMBERED_ROOTS, None, out);
}

/// Slot `i` of a native holds a native or a black script object from then on, or nothing. What comes into it is reached, or the
/// reflector of a native that is.
fn store_black<N: Notices>(
    heaps: &mut Heaps,
    key: NKey,
    i: SlotNo,
    content: Option<Held>,
    out: &mut N,
)
    requires ready { IsReady heaps.old }
    requires live { IsSome (number_at heaps.old key.0) }
    requires within { i < length (slots_of (counts_of heaps.old) key.0) }
    requires there { IsThere heaps.old content }
    requires black { IsBlackHeld heaps.old content }
    ensures change { IsChange (IsReached heaps.old.heap (native_name heaps.old (Some key)) × IsReachedOrReflects heaps.old.heap (held_name heaps.old content))
        (λ g. graph.set_slot g (native_name heaps.old (Some key)) i (held_name heaps.old content)) heaps.old heaps.new }
    ensures writes { (x : Name) → native_name heaps.old (Some key) ≡ Some x → WritesOnly (Spot.slot x i ∷ []) heaps.old.heap heaps.new.heap }
    ensures written { (x : Name) → native_name heaps.old (Some key) ≡ Some x → IsWritten (Spot.slot x i) (held_name heaps.old content) heaps.new.heap }
    ensures marking { (IsMarkingWell heaps.old → IsPastIfAny heaps.old (held_name heaps.old content)) → KeepsMarking heaps.old heaps.new }
    ensures places { KeepsPlaces heaps.old.heap heaps.new.heap }
    ensures none_came { NoneCame heaps.old.heap heaps.new.heap }
    ensures tells { TellsWhatIsFreed heaps.old.heap heaps.new.heap (N.telling out.old) (N.telling out.new) }
    ensures ended { KeepsEnded heaps.old.heap heaps.new.heap }
    ensures usable { KeepsUsable heaps.old.heap heaps.new.heap }
{
    hold(heaps, key, out);
    heaps.store_native(key, i, content, out);
    let_go(heaps, out);
}

/// Slot `i` of a native holds a native or a script object from then on, or nothing.
pub(crate) fn store_native<N: Notices>(
    heaps: &mut Heaps,
    key: NKey,
    i: SlotNo,
    content: Option<Held>,
    out: &mut N,
)
    requires ready { IsReady heaps.old }
    requires live { IsSome (number_at heaps.old key.0) }
    requires within { i < length (slots_of (counts_of heaps.old) key.0) }
    requires there { IsThere heaps.old content }
    ensures change { IsChange (IsReachedOrReflects heaps.old.heap (native_name heaps.old (Some key))
        × IsReachedOrReflects heaps.old.heap (held_name heaps.old content))
        (λ g. graph.set_slot g (native_name heaps.old (Some key)) i (held_name heaps.old content)) heaps.old heaps.new }
    ensures writes { (x : Name) → native_name heaps.old (Some key) ≡ Some x → WritesOnly (Spot.slot x i ∷ []) heaps.old.heap heaps.new.heap }
    ensures written { (x : Name) → native_name heaps.old (Some key) ≡ Some x → IsWritten (Spot.slot x i) (held_name heaps.old content) heaps.new.heap }
    ensures marking { KeepsMarking heaps.old heaps.new }
    ensures places { KeepsPlaces heaps.old.heap heaps.new.heap }
    ensures none_came { NoneCame heaps.old.heap heaps.new.heap }
    ensures tells { TellsWhatIsFreed heaps.old.heap heaps.new.heap (N.telling out.old) (N.telling out.new) }
    ensures ended { KeepsEnded heaps.old.heap heaps.new.heap }
    ensures usable { KeepsUsable heaps.old.heap heaps.new.heap }
{
    expose_held(heaps, content);
    store_black(heaps, key, i, content, out);
}

/// Slot `i` of `to` holds from then on what slot `j` of `from` held, which is empty then.
pub(crate) fn move_native<N: Notices>(
    heaps: &mut Heaps,
    to: NKey,
    i: SlotNo,
    from: NKey,
    j: SlotNo,
    out: &mut N,
)
    requires ready { IsReady heaps.old }
    requires to_live { IsSome (number_at heaps.old to.0) }
    requires to_within { i < length (slots_of (counts_of heaps.old) to.0) }
    requires from_live { IsSome (number_at heaps.old from.0) }
    requires from_within { j < length (slots_of (counts_of heaps.old) from.0) }
    ensures change { IsChange (IsReached heaps.old.heap (native_name heaps.old (Some to)) × IsReached heaps.old.heap (native_name heaps.old (Some from)))
        (λ g. graph.move_slot g (native_name heaps.old (Some to)) i (native_name heaps.old (Some from)) j
        (slot_held heaps.old.heap (the_number heaps.old from.0) j)) heaps.old heaps.new }
    ensures writes { (x y : Name) → native_name heaps.old (Some to) ≡ Some x → native_name heaps.old (Some from) ≡ Some y →
        WritesOnly (Spot.slot x i ∷ Spot.slot y j ∷ []) heaps.old.heap heaps.new.heap }
    ensures written { (x y : Name) → native_name heaps.old (Some to) ≡ Some x → native_name heaps.old (Some from) ≡ Some y →
        IsWritten (Spot.slot x i) (reads heaps.old.heap (Spot.slot y j)) heaps.new.heap }
    ensures emptied { (x y : Name) → native_name heaps.old (Some to) ≡ Some x → native_name heaps.old (Some from) ≡ Some y →
        Spot.slot x i ≢ Spot.slot y j → IsWritten (Spot.slot y j) None heaps.new.heap }
    ensures marking { KeepsMarking heaps.old heaps.new }
    ensures places { KeepsPlaces heaps.old.heap heaps.new.heap }
    ensures none_came { NoneCame heaps.old.heap heaps.new.heap }
    ensures tells { TellsWhatIsFreed heaps.old.heap heaps.new.heap (N.telling out.old) (N.telling out.new) }
    ensures ended { KeepsEnded heaps.old.heap heaps.new.heap }
    ensures usable { KeepsUsable heaps.old.heap heaps.new.heap }
{
    hold(heaps, to, out);
    heaps.move_slot(to, i, from, j, out);
    let_go(heaps, out);
}

/// The reflector of a native, for script: the one that it has is exposed; where it has none, one is made.
///
/// `NoMemory` changes nothing of what is there, and comes only where the native has no reflector; it becomes a suspect.
pub(crate) fn wrap_native<N: Notices>(
    heaps: &mut Heaps,
    key: NKey,
    out: &mut N,
) -> Result<SKey, NoMemory>
    requires ready { IsReady heaps.old }
    requires live { IsSome (number_at heaps.old key.0) }
    ensures change { OnOk result (IsChange (IsReached heaps.old.heap (native_name heaps.old (Some key)))
        (λ g. graph.wrapped g (native_name heaps.old (Some key))) heaps.old heaps.new) }
    ensures writes { WritesOnly [] heaps.old.heap heaps.new.heap }
    ensures marking { KeepsMarking heaps.old heaps.new }
    ensures places { KeepsPlaces heaps.old.heap heaps.new.heap }
    ensures tried { OnErr result (IsTried (IsReached heaps.old.heap (native_name heaps.old (Some key))) heaps.old heaps.new) }
    ensures wanted { OnErr result (has_reflector heaps.old.heap (the_number heaps.old key.0) ≡ false) }
    ensures name { IfOk result (λ made. script_name heaps.new (Some made) ≡ reflector_of (native_name heaps.old (Some key))) }
    ensures came { IfOk result (λ made. OneCame (script_name heaps.new (Some made)) heaps.old.heap heaps.new.heap) }
    ensures none_came { OnErr result (NoneCame heaps.old.heap heaps.new.heap) }
    ensures tells { TellsWhatIsFreed heaps.old.heap heaps.new.heap (N.telling out.old) (N.telling out.new) }
    ensures ended { KeepsEnded heaps.old.heap heaps.new.heap }
    ensures usable { KeepsUsable heaps.old.heap heaps.new.heap }
{
    hold(heaps, key, out);
    let made = wrap(heaps, key);
    let_go(heaps, out);
    made
}
