//! Objects made. Each stands in a numbered root from then on.
ghost use Rattle.std.specs.Prelude.{◌≡◌, ◌≢◌, ◌+◌, Some, None, [], ◌∷◌};
ghost use Rattle.cc_names.specs.Names.{native, object};
ghost use Rattle.cc_names.specs.declared.register.Reg.TheVariants.{N as n_register, S as s_register};
ghost use Rattle.cc_model.specs.declared.command.Command.TheVariants as command;
ghost use Rattle.cc_model.specs.Graph as graph;
ghost use Rattle.cc_model.specs.Heap.{register};
ghost use Rattle.cc_host.specs.Calls.{Always, Comes, Does, NoneComes, TellsFreed, Tries};
ghost use Rattle.cc_heaps.specs.Standing.{IsReachedOrReflects};
ghost use Rattle.cc_host.specs.Hosted.{IsThere};
ghost use Rattle.cc_host.specs.Lasting.{Lasts};
ghost use Rattle.cc_host.specs.Stops.{are_natives_made, are_scripts_made, stop_at, stop_making, stop_proxy};
ghost use Rattle.cc_host.specs.Queues.{told_all};
ghost use Rattle.cc_host.specs.Hosts.{Aside, IsAsItWas, Quiet};
ghost use Rattle.cc_host.specs.Spots.{Spot, if_reflector};
ghost use Rattle.cc_c.specs.Calls.{Open, Reads, Stays, Writes, Wrote};
ghost use Rattle.cc_c.specs.Values.{IsStatusOrWants, to_object};

use crate::collector::Collector;
use crate::status::{CLOSED, OK, of_stop};
use crate::values::{CObject, object, show};
use cc_names::{RegNo, SlotNo};
use std::alloc::Global;

/// Makes a native with `slots` empty slots (0 to 256), which numbered native root `r` holds from then on.
#[unsafe(no_mangle)]
#[tactic(auto, using(crate::proofs::Statuses::by_stop_or_want))]
pub extern "C" fn cc_new_native(
    alloc: Global,
    c: &mut Collector,
    r: u16,
    slots: SlotNo,
    made: &mut CObject,
) -> u32
    ensures stays { Stays c.old.handle.host c.new.handle.host result }
    ensures stops { Open c.old.handle.host c.new.handle.host (λ s t. IsStatusOrWants (stop_making r slots (are_natives_made s.host)) result) }
    ensures does { result ≡ 0 → Open c.old.handle.host c.new.handle.host (λ s t. Does Always (λ g. graph.step g (command.Native r slots)) s.host t.host) }
    ensures writes { result ≡ 0 → Open c.old.handle.host c.new.handle.host (Writes (Spot.register (n_register r) ∷ [])) }
    ensures there { result ≡ 0 → Open c.old.handle.host c.new.handle.host (λ s t. IsThere t.host (to_object made.new)) }
    ensures taken { result ≡ 0 → Open c.old.handle.host c.new.handle.host (λ s t. stop_at t.host (to_object made.new) ≡ None) }
    ensures name { result ≡ 0 → Open c.old.handle.host c.new.handle.host (λ s t.
        (to_object made.new).name ≡ native (s.host.heaps.heap.natives_made + 1)) }
    ensures held { result ≡ 0 → Open c.old.handle.host c.new.handle.host (λ s t.
        register t.host.heaps.heap (n_register r) ≡ Some (to_object made.new).name) }
    ensures left { result ≢ 0 → made.new ≡ made.old }
    ensures same { result ≢ 0 → Open c.old.handle.host c.new.handle.host IsAsItWas }
    ensures tells { Open c.old.handle.host c.new.handle.host (λ s t. TellsFreed s.host t.host (told_all s.told) (told_all t.told)) }
    ensures aside { Open c.old.handle.host c.new.handle.host Aside }
    // no other object comes
    ensures came { result ≡ 0 → Open c.old.handle.host c.new.handle.host (λ s t. Comes (to_object made.new).name s.host t.host) }
    ensures lasts { Open c.old.handle.host c.new.handle.host (λ s t. Lasts None s.host t.host) }
{
    let Some(mut host) = c.take(alloc) else {
        return CLOSED;
    };
    let answer = host.new_native(r as RegNo, slots);
    *c = Collector::of(host);
    match answer {
        Ok(x) => {
            *made = show(x);
            OK
        }
        Err(stop) => of_stop(stop),
    }
}

/// Makes a plain script object with `slots` empty slots (0 to 256), which numbered script root `r` holds from then on.
#[unsafe(no_mangle)]
#[tactic(auto, using(crate::proofs::Statuses::by_stop_or_want))]
pub extern "C" fn cc_new_plain(
    alloc: Global,
    c: &mut Collector,
    r: u16,
    slots: SlotNo,
    made: &mut CObject,
) -> u32
    ensures stays { Stays c.old.handle.host c.new.handle.host result }
    ensures stops { Open c.old.handle.host c.new.handle.host (λ s t. IsStatusOrWants (stop_making r slots (are_scripts_made s.host)) result) }
    ensures does { result ≡ 0 → Open c.old.handle.host c.new.handle.host (λ s t. Does Always (λ g. graph.step g (command.Script r slots)) s.host t.host) }
    ensures writes { result ≡ 0 → Open c.old.handle.host c.new.handle.host (Writes (Spot.register (s_register r) ∷ [])) }
    ensures there { result ≡ 0 → Open c.old.handle.host c.new.handle.host (λ s t. IsThere t.host (to_object made.new)) }
    ensures name { result ≡ 0 → Open c.old.handle.host c.new.handle.host (λ s t.
        (to_object made.new).name ≡ object (s.host.heaps.heap.scripts_made + 1)) }
    ensures held { result ≡ 0 → Open c.old.handle.host c.new.handle.host (λ s t.
        register t.host.heaps.heap (s_register r) ≡ Some (to_object made.new).name) }
    ensures left { result ≢ 0 → made.new ≡ made.old }
    ensures same { result ≢ 0 → Open c.old.handle.host c.new.handle.host IsAsItWas }
    ensures quiet { Open c.old.handle.host c.new.handle.host Quiet }
    // no other object comes
    ensures came { result ≡ 0 → Open c.old.handle.host c.new.handle.host (λ s t. Comes (to_object made.new).name s.host t.host) }
    ensures lasts { Open c.old.handle.host c.new.handle.host (λ s t. Lasts None s.host t.host) }
{
    let Some(mut host) = c.take(alloc) else {
        return CLOSED;
    };
    let answer = host.new_plain(r as RegNo, slots);
    *c = Collector::of(host);
    match answer {
        Ok(x) => {
            *made = show(x);
            OK
        }
        Err(stop) => of_stop(stop),
    }
}

/// Makes a weak map without entries, which numbered script root `r` holds from then on.
#[unsafe(no_mangle)]
#[tactic(auto, using(crate::proofs::Statuses::by_stop_or_want))]
pub extern "C" fn cc_new_map(alloc: Global, c: &mut Collector, r: u16, made: &mut CObject) -> u32
    ensures stays { Stays c.old.handle.host c.new.handle.host result }
    ensures stops { Open c.old.handle.host c.new.handle.host (λ s t. IsStatusOrWants (stop_making r 0 (are_scripts_made s.host)) result) }
    ensures does { result ≡ 0 → Open c.old.handle.host c.new.handle.host (λ s t. Does Always (λ g. graph.step g (command.WeakMap r)) s.host t.host) }
    ensures writes { result ≡ 0 → Open c.old.handle.host c.new.handle.host (Writes (Spot.register (s_register r) ∷ [])) }
    ensures there { result ≡ 0 → Open c.old.handle.host c.new.handle.host (λ s t. IsThere t.host (to_object made.new)) }
    ensures name { result ≡ 0 → Open c.old.handle.host c.new.handle.host (λ s t.
        (to_object made.new).name ≡ object (s.host.heaps.heap.scripts_made + 1)) }
    ensures held { result ≡ 0 → Open c.old.handle.host c.new.handle.host (λ s t.
        register t.host.heaps.heap (s_register r) ≡ Some (to_object made.new).name) }
    ensures left { result ≢ 0 → made.new ≡ made.old }
    ensures same { result ≢ 0 → Open c.old.handle.host c.new.handle.host IsAsItWas }
    ensures quiet { Open c.old.handle.host c.new.handle.host Quiet }
    // no other object comes
    ensures came { result ≡ 0 → Open c.old.handle.host c.new.handle.host (λ s t. Comes (to_object made.new).name s.host t.host) }
    ensures lasts { Open c.old.handle.host c.new.handle.host (λ s t. Lasts None s.host t.host) }
{
    let Some(mut host) = c.take(alloc) else {
        return CLOSED;
    };
    let answer = host.new_map(r as RegNo);
    *c = Collector::of(host);
    match answer {
        Ok(x) => {
            *made = show(x);
            OK
        }
        Err(stop) => of_stop(stop),
    }
}

/// Makes a proxy of a script object, which numbered script root `r` holds from then on.
#[unsafe(no_mangle)]
#[tactic(auto, using(crate::proofs::Statuses::by_stop_or_want))]
pub extern "C" fn cc_new_proxy(
    alloc: Global,
    c: &mut Collector,
    r: u16,
    delegate: &CObject,
    made: &mut CObject,
) -> u32
    ensures stays { Stays c.old.handle.host c.new.handle.host result }
    ensures stops { Open c.old.handle.host c.new.handle.host (λ s t. IsStatusOrWants (stop_proxy s.host (to_object delegate.now) r) result) }
    ensures does { result ≡ 0 → Open c.old.handle.host c.new.handle.host (λ s t.
        Does (IsReachedOrReflects s.host.heaps.heap (Some (to_object delegate.now).name))
        (λ g. graph.with_proxy g r (Some (to_object delegate.now).name)) s.host t.host) }
    ensures writes { result ≡ 0 → Open c.old.handle.host c.new.handle.host
        (Writes (Spot.register (s_register r) ∷ Spot.delegate (to_object made.new).name ∷ Spot.preserved (to_object delegate.now).name ∷ [])) }
    ensures written { result ≡ 0 → Reads c.new.handle.host (Wrote (Spot.delegate (to_object made.new).name) (Some (to_object delegate.now).name)) }
    ensures preserves { result ≡ 0 → Reads c.new.handle.host
        (Wrote (Spot.preserved (to_object delegate.now).name) (if_reflector (to_object delegate.now).name)) }
    ensures there { result ≡ 0 → Open c.old.handle.host c.new.handle.host (λ s t. IsThere t.host (to_object made.new)) }
    ensures name { result ≡ 0 → Open c.old.handle.host c.new.handle.host (λ s t.
        (to_object made.new).name ≡ object (s.host.heaps.heap.scripts_made + 1)) }
    ensures held { result ≡ 0 → Open c.old.handle.host c.new.handle.host (λ s t.
        register t.host.heaps.heap (s_register r) ≡ Some (to_object made.new).name) }
    ensures left { result ≢ 0 → made.new ≡ made.old }
    ensures same { result ≢ 0 → result ≢ 7 → result ≢ 8 → Open c.old.handle.host c.new.handle.host IsAsItWas }
    ensures tried { result ≢ 0 → Open c.old.handle.host c.new.handle.host
        (λ s t. Tries (IsReachedOrReflects s.host.heaps.heap (Some (to_object delegate.now).name)) s.host t.host) }
    ensures unwritten { result ≢ 0 → Open c.old.handle.host c.new.handle.host (Writes []) }
    ensures quiet { Open c.old.handle.host c.new.handle.host Quiet }
    // no other object comes
    ensures came { result ≡ 0 → Open c.old.handle.host c.new.handle.host (λ s t. Comes (to_object made.new).name s.host t.host) }
    ensures none_came { result ≢ 0 → Open c.old.handle.host c.new.handle.host (λ s t. NoneComes s.host t.host) }
    ensures lasts { Open c.old.handle.host c.new.handle.host (λ s t. Lasts None s.host t.host) }
{
    let Some(mut host) = c.take(alloc) else {
        return CLOSED;
    };
    let answer = host.new_proxy(r as RegNo, object(delegate));
    *c = Collector::of(host);
    match answer {
        Ok(x) => {
            *made = show(x);
            OK
        }
        Err(stop) => of_stop(stop),
    }
}
