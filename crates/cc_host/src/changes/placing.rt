//! Registers behind the numbered roots, which hold what roots without number hold.
ghost use Rattle.std.specs.Prelude.{◌≡◌, ◌≢◌, ◌<◌, ℕ, [], ◌∷◌, Some, None, IsSome, IsTrue, OnOk, OnErr};
ghost use Rattle.cc_names.specs.Sizes.{most_roots};
ghost use Rattle.cc_names.specs.declared.register.Reg.TheVariants.{N as n_register, S as s_register};
ghost use Rattle.cc_model.specs.Graph as graph;
ghost use Rattle.cc_model.specs.Heap.{register};
ghost use Rattle.cc_script.specs.Objects.{is_there};
ghost use Rattle.cc_heaps.specs.Keyed.{number_at};
ghost use Rattle.cc_heaps.specs.Changes.{native_name, script_name};
ghost use Rattle.cc_heaps.specs.Leaving.{NoneCame, NothingLeft, TellsWhatIsFreed};
ghost use Rattle.cc_heaps.specs.Standing.{IsReached, IsReachedOrReflects, MayBeHeld, StandsAfter};
ghost use Rattle.cc_laws_told.specs.Lasting.{KeepsEnded};
ghost use Rattle.cc_host.specs.Hosted.{spare};
ghost use Rattle.cc_host.specs.Lasting.{KeepsUsable};
ghost use Rattle.cc_host.specs.Missing.{KeepsDoomedBut};
ghost use Rattle.cc_host.specs.Changes.{IsReady, IsChange};
ghost use Rattle.cc_host.specs.Marked.{KeepsMarking};
ghost use Rattle.cc_host.specs.Spots.{Spot, WritesOnly};
ghost use Rattle.cc_host.specs.Writing.{WritesNative, WritesScript};

use cc_heaps::{Heaps, Rooted};
use cc_model::Notices;
use cc_names::{NKey, NoMemory, RegNo, SKey};

/// A register behind the numbered roots holds a native from then on. Where there is no such register the bank is lengthened.
pub(crate) fn place_native<N: Notices>(
    heaps: &mut Heaps,
    r: RegNo,
    key: NKey,
    out: &mut N,
) -> Result<(), NoMemory>
    requires ready { IsReady heaps.old }
    requires behind { spare < r }
    requires within { r < most_roots }
    requires live { IsSome (number_at heaps.old key.0) }
    ensures change { OnOk result (IsChange (IsReached heaps.old.heap (native_name heaps.old (Some key)))
        (λ g. graph.root_at g (n_register r) (native_name heaps.old (Some key))) heaps.old heaps.new) }
    ensures only { WritesOnly (Spot.register (n_register r) ∷ []) heaps.old.heap heaps.new.heap }
    ensures stands { OnOk result (MayBeHeld heaps.old.heap (native_name heaps.old (Some key)) →
        StandsAfter heaps.old.heap heaps.new.heap (λ g. graph.root_at g (n_register r) (native_name heaps.old (Some key)))) }
    ensures doomed { OnOk result (KeepsDoomedBut (native_name heaps.old (Some key)) heaps.old.heap heaps.new.heap) }
    ensures marking { KeepsMarking heaps.old heaps.new }
    ensures held { OnOk result (register heaps.new.heap (n_register r) ≡ native_name heaps.old (Some key)) }
    ensures writes { WritesNative r heaps.old.heap heaps.new.heap }
    ensures same { OnErr result (heaps.new ≡ heaps.old) }
    ensures tells { TellsWhatIsFreed heaps.old.heap heaps.new.heap (N.telling out.old) (N.telling out.new) }
    ensures silent { OnErr result (N.telling out.new ≡ N.telling out.old) }
    ensures none_came { NoneCame heaps.old.heap heaps.new.heap }
    ensures ended { KeepsEnded heaps.old.heap heaps.new.heap }
    ensures usable { KeepsUsable heaps.old.heap heaps.new.heap }
{
    if heaps.native_reg_count() <= r {
        heaps.root_at(r, Rooted::Native(None), out)?;
    }
    heaps.set_native_reg(r, Some(key), out);
    Ok(())
}

/// A register behind the numbered roots holds a script object from then on. Where there is no such register the bank is
/// lengthened. What comes into it is exposed.
pub(crate) fn place_script<N: Notices>(
    heaps: &mut Heaps,
    r: RegNo,
    key: SKey,
    out: &mut N,
) -> Result<(), NoMemory>
    requires ready { IsReady heaps.old }
    requires behind { spare < r }
    requires within { r < most_roots }
    requires live { IsTrue (is_there heaps.old.scripts key.0) }
    ensures change { OnOk result (IsChange (IsReachedOrReflects heaps.old.heap (script_name heaps.old (Some key)))
        (λ g. graph.root_at g (s_register r) (script_name heaps.old (Some key))) heaps.old heaps.new) }
    ensures only { WritesOnly (Spot.register (s_register r) ∷ []) heaps.old.heap heaps.new.heap }
    ensures marking { KeepsMarking heaps.old heaps.new }
    ensures held { OnOk result (register heaps.new.heap (s_register r) ≡ script_name heaps.old (Some key)) }
    ensures writes { WritesScript r heaps.old.heap heaps.new.heap }
    ensures same { OnErr result (heaps.new ≡ heaps.old) }
    ensures tells { TellsWhatIsFreed heaps.old.heap heaps.new.heap (N.telling out.old) (N.telling out.new) }
    ensures silent { OnErr result (N.telling out.new ≡ N.telling out.old) }
    ensures none_came { NoneCame heaps.old.heap heaps.new.heap }
    ensures ended { KeepsEnded heaps.old.heap heaps.new.heap }
    ensures usable { KeepsUsable heaps.old.heap heaps.new.heap }
{
    heaps.root_at(r, Rooted::Script(Some(key)), out)
}

/// A register behind the numbered roots holds no native from then on.
pub(crate) fn unplace_native<N: Notices>(heaps: &mut Heaps, r: RegNo, out: &mut N)
    requires ready { IsReady heaps.old }
    requires behind { spare < r }
    ensures change { IsChange (Unit {0}) (λ g. graph.set_register g (n_register r) None) heaps.old heaps.new }
    ensures only { WritesOnly (Spot.register (n_register r) ∷ []) heaps.old.heap heaps.new.heap }
    ensures marking { KeepsMarking heaps.old heaps.new }
    ensures empty { register heaps.new.heap (n_register r) ≡ None }
    ensures writes { WritesNative r heaps.old.heap heaps.new.heap }
    ensures tells { TellsWhatIsFreed heaps.old.heap heaps.new.heap (N.telling out.old) (N.telling out.new) }
    ensures none_came { NoneCame heaps.old.heap heaps.new.heap }
    ensures ended { KeepsEnded heaps.old.heap heaps.new.heap }
    ensures usable { KeepsUsable heaps.old.heap heaps.new.heap }
{
    if r < heaps.native_reg_count() {
        heaps.set_native_reg(r, None, out);
    }
}

/// A register behind the numbered roots holds no script object from then on.
pub(crate) fn unplace_script(heaps: &mut Heaps, r: RegNo)
    requires ready { IsReady heaps.old }
    requires behind { spare < r }
    ensures change { IsChange (Unit {0}) (λ g. graph.set_register g (s_register r) None) heaps.old heaps.new }
    ensures only { WritesOnly (Spot.register (s_register r) ∷ []) heaps.old.heap heaps.new.heap }
    ensures marking { KeepsMarking heaps.old heaps.new }
    ensures empty { register heaps.new.heap (s_register r) ≡ None }
    ensures writes { WritesScript r heaps.old.heap heaps.new.heap }
    ensures none_left { NothingLeft heaps.old.heap heaps.new.heap }
    ensures none_came { NoneCame heaps.old.heap heaps.new.heap }
    ensures ended { KeepsEnded heaps.old.heap heaps.new.heap }
    ensures usable { KeepsUsable heaps.old.heap heaps.new.heap }
{
    if r < heaps.script_reg_count() {
        heaps.set_script_reg(r, None);
    }
}
