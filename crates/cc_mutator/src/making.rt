//! What makes an object, done on the heaps.
ghost use Rattle.std.specs.Prelude.{◌≡◌, ◌+◌, ◌<◌, ◌≤◌, false, is_none, true, ℕ, List};
ghost use Rattle.cc_names.specs.declared.register.Reg.TheVariants.{N as n_register, S as s_register};
ghost use Rattle.cc_names.specs.Names.{native, object};
ghost use Rattle.cc_names.specs.Sizes.{bank_length, most_slots};
ghost use Rattle.cc_model.specs.declared.item.Reply.TheVariants.{Named as named};
ghost use Rattle.cc_model.specs.Telling.{Telling};
ghost use Rattle.cc_model.specs.Checks.{named_or_nothing, reflector_of};
ghost use Rattle.cc_model.specs.Colours.{HasColourInvariant};
ghost use Rattle.cc_model.specs.Deeds.{map_made, native_made, plain_made, proxy_made, reflector_held};
ghost use Rattle.cc_model.specs.Effects.{lacks_reflector};
ghost use Rattle.cc_model.specs.Heap.{register};
ghost use Rattle.cc_model.specs.View.{view};
ghost use Rattle.cc_heaps.specs.Keyed.{IsInOrder};
ghost use Rattle.cc_heaps.specs.Few.{AreOwnedOnce};
ghost use Rattle.cc_mutator.specs.Commands.{IsAnswered};

use cc_heaps::{Heaps, MakeStop};
use cc_model::{Notices, Refusal, Reply};
use cc_names::{NoMemory, RegNo, SlotNo};

/// Makes a native.
pub(crate) fn make_native<N: Notices>(
    heaps: &mut Heaps,
    d: RegNo,
    slots: SlotNo,
    out: &mut N,
) -> Reply
    requires within { d < bank_length }
    requires order { (owned : List ℕ) × IsInOrder owned heaps.old }
    requires slots { slots ≤ most_slots }
    requires room { heaps.old.heap.natives_made < heaps.old.heap.limits.natives }
    ensures { IsAnswered (native_made d slots) (named (native (heaps.old.heap.natives_made + 1))) true heaps.old heaps.new result (N.telling out.old)
        (N.telling out.new) }
{
    match heaps.new_native(d, slots, out) {
        Ok(name) => Reply::Named(name),
        Err(MakeStop::Full) => unreachable!(),
        Err(MakeStop::NoMemory) => Reply::Refused(Refusal::NoMemory),
    }
}

/// Makes a plain script object.
pub(crate) fn make_plain(heaps: &mut Heaps, d: RegNo, slots: SlotNo) -> Reply
    requires within { d < bank_length }
    requires order { (owned : List ℕ) × IsInOrder owned heaps.old }
    requires slots { slots ≤ most_slots }
    requires room { heaps.old.heap.scripts_made < heaps.old.heap.limits.scripts }
    ensures { (t : Telling) → IsAnswered (plain_made d slots) (named (object (heaps.old.heap.scripts_made + 1))) true heaps.old heaps.new result t t }
{
    match heaps.new_plain(d, slots) {
        Ok(name) => Reply::Named(name),
        Err(MakeStop::Full) => unreachable!(),
        Err(MakeStop::NoMemory) => Reply::Refused(Refusal::NoMemory),
    }
}

/// Makes a weak map.
pub(crate) fn make_map(heaps: &mut Heaps, d: RegNo) -> Reply
    requires within { d < bank_length }
    requires order { (owned : List ℕ) × IsInOrder owned heaps.old }
    requires room { heaps.old.heap.scripts_made < heaps.old.heap.limits.scripts }
    ensures { (t : Telling) → IsAnswered (map_made d) (named (object (heaps.old.heap.scripts_made + 1))) true heaps.old heaps.new result t t }
{
    match heaps.new_map(d) {
        Ok(name) => Reply::Named(name),
        Err(MakeStop::Full) => unreachable!(),
        Err(MakeStop::NoMemory) => Reply::Refused(Refusal::NoMemory),
    }
}

/// Makes a proxy of the script object in a register.
pub(crate) fn make_proxy(heaps: &mut Heaps, d: RegNo, s: RegNo) -> Reply
    requires within { d < bank_length }
    requires order { (owned : List ℕ) × IsInOrder owned heaps.old }
    requires colours { HasColourInvariant (view heaps.old.heap) }
    requires room { heaps.old.heap.scripts_made < heaps.old.heap.limits.scripts }
    requires there { is_none (register heaps.old.heap (s_register s)) ≡ false }
    ensures { (t : Telling) → IsAnswered (proxy_made d (register heaps.old.heap (s_register s)))
        (named (object (heaps.old.heap.scripts_made + 1))) true heaps.old heaps.new result t t }
{
    let Some(delegate) = heaps.script_reg(s) else {
        unreachable!();
    };
    match heaps.new_proxy(d, delegate) {
        Ok(name) => Reply::Named(name),
        Err(MakeStop::Full) => unreachable!(),
        Err(MakeStop::NoMemory) => Reply::Refused(Refusal::NoMemory),
    }
}

/// Puts the reflector of the native in a register into a script register; it is made where there is none.
pub(crate) fn wrap(heaps: &mut Heaps, d: RegNo, s: RegNo) -> Reply
    requires within { d < bank_length }
    requires order { (owned : List ℕ) × IsInOrder owned heaps.old × AreOwnedOnce owned }
    requires colours { HasColourInvariant (view heaps.old.heap) }
    requires there { is_none (register heaps.old.heap (n_register s)) ≡ false }
    ensures { (t : Telling) → IsAnswered (reflector_held d (register heaps.old.heap (n_register s)))
        (named_or_nothing (reflector_of (register heaps.old.heap (n_register s))))
        (lacks_reflector heaps.old.heap (register heaps.old.heap (n_register s))) heaps.old heaps.new result t t }
{
    let Some(key) = heaps.native_reg(s) else {
        unreachable!();
    };
    match cc_wrappers::wrap(heaps, key) {
        Ok(made) => {
            let reply = Reply::Named(heaps.scripts().name(made));
            heaps.set_script_reg(d, Some(made));
            reply
        }
        Err(NoMemory) => Reply::Refused(Refusal::NoMemory),
    }
}
