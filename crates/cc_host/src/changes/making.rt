//! Objects made, each in a root, and where they stand.
ghost use Rattle.std.specs.Prelude.{◌≡◌, ◌+◌, ◌<◌, ◌≤◌, [], ◌∷◌, false, length, Option, Some, None, Err, IsTrue, IfOk, OnOk, OnErr};
ghost use Rattle.cc_names.specs.Names.{native, object};
ghost use Rattle.cc_names.specs.Sizes.{most_slots};
ghost use Rattle.cc_names.specs.declared.name.Name.{Name};
ghost use Rattle.cc_names.specs.declared.kind.Kind.TheVariants as kind_is;
ghost use Rattle.cc_names.specs.declared.register.Reg.TheVariants.{N as n_register, S as s_register};
ghost use Rattle.cc_model.specs.declared.command.Command.TheVariants as command;
ghost use Rattle.cc_model.specs.Checks.{slots_or_none};
ghost use Rattle.cc_model.specs.Graph as graph;
ghost use Rattle.cc_model.specs.Heap.{native_at, register, slots_in};
ghost use Rattle.cc_counted.specs.Counts.{unlinked_at};
ghost use Rattle.cc_script.specs.Objects.{is_there, kind_at};
ghost use Rattle.cc_heaps.specs.Changes.{native_name, script_name};
ghost use Rattle.cc_heaps.specs.Leaving.{NoneCame, NothingLeft, TellsWhatIsFreed};
ghost use Rattle.cc_heaps.specs.Standing.{IsReached, IsReachedOrReflects};
ghost use Rattle.cc_laws_told.specs.Lasting.{KeepsEnded};
ghost use Rattle.cc_host.specs.Hosted.{roots};
ghost use Rattle.cc_host.specs.Lasting.{KeepsUsable};
ghost use Rattle.cc_host.specs.Changes.{IsReady, IsChange, IsTried, OneCame};
ghost use Rattle.cc_host.specs.Places.{KeepsPlaces};
ghost use Rattle.cc_host.specs.Marked.{KeepsMarking};
ghost use Rattle.cc_host.specs.Spots.{IsWritten, Spot, WritesOnly, if_reflector};

use crate::changes::scripts::expose_key;
use cc_heaps::{Heaps, MakeStop};
use cc_model::Notices;
use cc_names::{NKey, RegNo, SKey, SlotNo};

/// Makes a native with `slots` empty slots, which a root holds from then on.
pub(crate) fn make_native<N: Notices>(
    heaps: &mut Heaps,
    r: RegNo,
    slots: SlotNo,
    out: &mut N,
) -> Result<NKey, MakeStop>
    requires ready { IsReady heaps.old }
    requires within { r < roots }
    requires slots { slots ≤ most_slots }
    ensures change { OnOk result (IsChange (Unit {0}) (λ g. graph.step g (command.Native r slots)) heaps.old heaps.new) }
    ensures writes { OnOk result (WritesOnly (Spot.register (n_register r) ∷ []) heaps.old.heap heaps.new.heap) }
    ensures marking { KeepsMarking heaps.old heaps.new }
    ensures places { KeepsPlaces heaps.old.heap heaps.new.heap }
    ensures name { IfOk result (λ key. native_name heaps.new (Some key) ≡ Some (native (heaps.old.heap.natives_made + 1))) }
    ensures held { OnOk result (register heaps.new.heap (n_register r) ≡ Some (native (heaps.old.heap.natives_made + 1))) }
    ensures whole { OnOk result (unlinked_at (native_at heaps.new.heap (heaps.old.heap.natives_made + 1)) ≡ false) }
    ensures slots_made { OnOk result (length (slots_or_none (slots_in heaps.new.heap (native (heaps.old.heap.natives_made + 1)))) ≡ slots) }
    ensures full { result ≡ Err MakeStop.Full → heaps.old.heap.limits.natives ≤ heaps.old.heap.natives_made }
    ensures full_always { heaps.old.heap.limits.natives ≤ heaps.old.heap.natives_made → result ≡ Err MakeStop.Full }
    ensures same { OnErr result (heaps.new ≡ heaps.old) }
    ensures tells { TellsWhatIsFreed heaps.old.heap heaps.new.heap (N.telling out.old) (N.telling out.new) }
    ensures silent { OnErr result (N.telling out.new ≡ N.telling out.old) }
    ensures came { IfOk result (λ key. OneCame (native_name heaps.new (Some key)) heaps.old.heap heaps.new.heap) }
    ensures reaches { OnOk result (register heaps.old.heap (n_register r) ≡ None → (x : Option Name) → IsReached heaps.old.heap x →
        IsReached heaps.new.heap x) }
    ensures ended { KeepsEnded heaps.old.heap heaps.new.heap }
    ensures usable { KeepsUsable heaps.old.heap heaps.new.heap }
{
    heaps.new_native(r, slots, out)?;
    match heaps.native_reg(r) {
        Some(key) => Ok(key),
        None => unreachable!(),
    }
}

/// Makes a plain script object with `slots` empty slots, which a root holds from then on.
pub(crate) fn make_plain(heaps: &mut Heaps, r: RegNo, slots: SlotNo) -> Result<SKey, MakeStop>
    requires ready { IsReady heaps.old }
    requires within { r < roots }
    requires slots { slots ≤ most_slots }
    ensures change { OnOk result (IsChange (Unit {0}) (λ g. graph.step g (command.Script r slots)) heaps.old heaps.new) }
    ensures writes { OnOk result (WritesOnly (Spot.register (s_register r) ∷ []) heaps.old.heap heaps.new.heap) }
    ensures marking { KeepsMarking heaps.old heaps.new }
    ensures places { KeepsPlaces heaps.old.heap heaps.new.heap }
    ensures name { IfOk result (λ key. script_name heaps.new (Some key) ≡ Some (object (heaps.old.heap.scripts_made + 1))) }
    ensures held { OnOk result (register heaps.new.heap (s_register r) ≡ Some (object (heaps.old.heap.scripts_made + 1))) }
    ensures kind { IfOk result (λ key. kind_at heaps.new.scripts key.0 ≡ Some kind_is.Plain) }
    ensures slots_made { OnOk result (length (slots_or_none (slots_in heaps.new.heap (object (heaps.old.heap.scripts_made + 1)))) ≡ slots) }
    ensures full { result ≡ Err MakeStop.Full → heaps.old.heap.limits.scripts ≤ heaps.old.heap.scripts_made }
    ensures full_always { heaps.old.heap.limits.scripts ≤ heaps.old.heap.scripts_made → result ≡ Err MakeStop.Full }
    ensures same { OnErr result (heaps.new ≡ heaps.old) }
    ensures none_left { NothingLeft heaps.old.heap heaps.new.heap }
    ensures came { IfOk result (λ key. OneCame (script_name heaps.new (Some key)) heaps.old.heap heaps.new.heap) }
    ensures ended { KeepsEnded heaps.old.heap heaps.new.heap }
    ensures usable { KeepsUsable heaps.old.heap heaps.new.heap }
{
    heaps.new_plain(r, slots)?;
    match heaps.script_reg(r) {
        Some(key) => Ok(key),
        None => unreachable!(),
    }
}

/// Makes a weak map without entries, which a root holds from then on.
pub(crate) fn make_map(heaps: &mut Heaps, r: RegNo) -> Result<SKey, MakeStop>
    requires ready { IsReady heaps.old }
    requires within { r < roots }
    ensures change { OnOk result (IsChange (Unit {0}) (λ g. graph.step g (command.WeakMap r)) heaps.old heaps.new) }
    ensures writes { OnOk result (WritesOnly (Spot.register (s_register r) ∷ []) heaps.old.heap heaps.new.heap) }
    ensures marking { KeepsMarking heaps.old heaps.new }
    ensures places { KeepsPlaces heaps.old.heap heaps.new.heap }
    ensures name { IfOk result (λ key. script_name heaps.new (Some key) ≡ Some (object (heaps.old.heap.scripts_made + 1))) }
    ensures held { OnOk result (register heaps.new.heap (s_register r) ≡ Some (object (heaps.old.heap.scripts_made + 1))) }
    ensures kind { IfOk result (λ key. kind_at heaps.new.scripts key.0 ≡ Some kind_is.Map) }
    ensures full { result ≡ Err MakeStop.Full → heaps.old.heap.limits.scripts ≤ heaps.old.heap.scripts_made }
    ensures full_always { heaps.old.heap.limits.scripts ≤ heaps.old.heap.scripts_made → result ≡ Err MakeStop.Full }
    ensures same { OnErr result (heaps.new ≡ heaps.old) }
    ensures none_left { NothingLeft heaps.old.heap heaps.new.heap }
    ensures came { IfOk result (λ key. OneCame (script_name heaps.new (Some key)) heaps.old.heap heaps.new.heap) }
    ensures ended { KeepsEnded heaps.old.heap heaps.new.heap }
    ensures usable { KeepsUsable heaps.old.heap heaps.new.heap }
{
    heaps.new_map(r)?;
    match heaps.script_reg(r) {
        Some(key) => Ok(key),
        None => unreachable!(),
    }
}

/// Makes a proxy of a script object, its delegate for good, which a root holds from then on.
///
/// `Full` and `NoMemory` leave what is there, the delegate exposed.
pub(crate) fn make_proxy(heaps: &mut Heaps, r: RegNo, delegate: SKey) -> Result<SKey, MakeStop>
    requires ready { IsReady heaps.old }
    requires within { r < roots }
    requires live { IsTrue (is_there heaps.old.scripts delegate.0) }
    ensures change { OnOk result (IsChange (IsReachedOrReflects heaps.old.heap (script_name heaps.old (Some delegate)))
        (λ g. graph.with_proxy g r (script_name heaps.old (Some delegate))) heaps.old heaps.new) }
    ensures writes { OnOk result ((d : Name) → script_name heaps.old (Some delegate) ≡ Some d →
        WritesOnly (Spot.register (s_register r) ∷ Spot.delegate (object (heaps.old.heap.scripts_made + 1)) ∷ Spot.preserved d ∷ [])
        heaps.old.heap heaps.new.heap) }
    ensures written { OnOk result (IsWritten (Spot.delegate (object (heaps.old.heap.scripts_made + 1)))
        (script_name heaps.old (Some delegate)) heaps.new.heap) }
    ensures preserves { OnOk result ((d : Name) → script_name heaps.old (Some delegate) ≡ Some d →
        IsWritten (Spot.preserved d) (if_reflector d) heaps.new.heap) }
    ensures marking { KeepsMarking heaps.old heaps.new }
    ensures places { KeepsPlaces heaps.old.heap heaps.new.heap }
    ensures name { IfOk result (λ key. script_name heaps.new (Some key) ≡ Some (object (heaps.old.heap.scripts_made + 1))) }
    ensures held { OnOk result (register heaps.new.heap (s_register r) ≡ Some (object (heaps.old.heap.scripts_made + 1))) }
    ensures kind { IfOk result (λ key. kind_at heaps.new.scripts key.0 ≡ Some kind_is.Proxy) }
    ensures full { result ≡ Err MakeStop.Full → heaps.old.heap.limits.scripts ≤ heaps.old.heap.scripts_made }
    ensures full_always { heaps.old.heap.limits.scripts ≤ heaps.old.heap.scripts_made → result ≡ Err MakeStop.Full }
    ensures tried { OnErr result (IsTried (IsReachedOrReflects heaps.old.heap (script_name heaps.old (Some delegate))) heaps.old heaps.new) }
    ensures unwritten { OnErr result (WritesOnly [] heaps.old.heap heaps.new.heap) }
    ensures none_left { NothingLeft heaps.old.heap heaps.new.heap }
    ensures came { IfOk result (λ key. OneCame (script_name heaps.new (Some key)) heaps.old.heap heaps.new.heap) }
    ensures none_came { OnErr result (NoneCame heaps.old.heap heaps.new.heap) }
    ensures ended { KeepsEnded heaps.old.heap heaps.new.heap }
    ensures usable { KeepsUsable heaps.old.heap heaps.new.heap }
{
    expose_key(heaps, delegate);
    heaps.new_proxy(r, delegate)?;
    match heaps.script_reg(r) {
        Some(key) => Ok(key),
        None => unreachable!(),
    }
}
