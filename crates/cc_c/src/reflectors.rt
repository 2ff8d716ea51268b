//! Reflectors: what stands for a native in script; and what is asked of script objects.
ghost use Rattle.std.specs.Prelude.{◌≡◌, ◌≢◌, ◌↔◌, false, None, Some, IsSome, option_map, [], ◌∷◌};
ghost use Rattle.cc_names.specs.Names.{number_of};
ghost use Rattle.cc_names.specs.declared.kind.Kind.TheVariants.{Proxy};
ghost use Rattle.cc_model.specs.Checks.{native_of, reflector_of};
ghost use Rattle.cc_model.specs.Graph as graph;
ghost use Rattle.cc_model.specs.Heap.{delegate_at, has_reflector};
ghost use Rattle.cc_script.specs.Objects.{kind_at};
ghost use Rattle.cc_host.specs.Calls.{Comes, Does, NoneComes, TellsFreed, Tries};
ghost use Rattle.cc_heaps.specs.Standing.{IsReachedOrReflects};
ghost use Rattle.cc_host.specs.Hosted.{IsRooted, IsThere, IsThereIfAny, named};
ghost use Rattle.cc_host.specs.Lasting.{Lasts};
ghost use Rattle.cc_host.specs.Reading.{preserved_in, reflector_in};
ghost use Rattle.cc_host.specs.Stops.{stop_native, stop_reflector, stop_script};
ghost use Rattle.cc_host.specs.Queues.{told_all};
ghost use Rattle.cc_host.specs.Hosts.{Aside, Quiet, Reflects};
ghost use Rattle.cc_host.specs.Spots.{Spot};
ghost use Rattle.cc_c.specs.Calls.{Open, Reads, Stays, Writes, Wrote};
ghost use Rattle.cc_c.specs.Values.{IsStatus, IsStatusOrRefused, flag, number_of_kind, to_content, to_object};

use crate::collector::Collector;
use crate::status::{CLOSED, OK, of_stop};
use crate::values::{CObject, flag, kind_number, object, show, show_any};
use std::alloc::Global;

/// The reflector of a native, for script. By itself it is held by nothing. One that is made has the number 0 of the program's.
/// Memory is wanted only where the native has none.
#[unsafe(no_mangle)]
#[tactic(auto, using(crate::proofs::Statuses::by_stop_or_refusal))]
pub extern "C" fn cc_wrap(
    alloc: Global,
    c: &mut Collector,
    x: &CObject,
    reflector: &mut CObject,
) -> u32
    ensures stays { Stays c.old.handle.host c.new.handle.host result }
    ensures stops { Open c.old.handle.host c.new.handle.host (λ s t. IsStatusOrRefused (stop_native s.host (to_object x.now)) result) }
    ensures does { result ≡ 0 → Open c.old.handle.host c.new.handle.host (λ s t. Does (IsRooted s.host (to_object x.now))
        (λ g. graph.wrapped g (Some (to_object x.now).name)) s.host t.host) }
    ensures writes { Open c.old.handle.host c.new.handle.host (Writes []) }
    ensures there { result ≡ 0 → Open c.old.handle.host c.new.handle.host (λ s t. IsThere t.host (to_object reflector.new)) }
    ensures name { result ≡ 0 → Open c.old.handle.host c.new.handle.host (λ s t. Some (to_object reflector.new).name
        ≡ reflector_of (Some (to_object x.now).name)) }
    ensures wanted { result ≡ 8 → Reads c.old.handle.host (λ s. has_reflector s.host.heaps.heap (number_of (to_object x.now).name) ≡ false) }
    ensures same { result ≢ 0 → result ≢ 8 → c.new.handle.host ≡ c.old.handle.host }
    ensures tried { result ≢ 0 → Open c.old.handle.host c.new.handle.host (λ s t. Tries (IsRooted s.host (to_object x.now)) s.host t.host) }
    ensures left { result ≢ 0 → reflector.new ≡ reflector.old }
    ensures tells { Open c.old.handle.host c.new.handle.host (λ s t. TellsFreed s.host t.host (told_all s.told) (told_all t.told)) }
    ensures aside { result ≢ 0 → Open c.old.handle.host c.new.handle.host Aside }
    ensures reflects { result ≡ 0 → Open c.old.handle.host c.new.handle.host (λ s t. Reflects (to_object reflector.new).name
        (has_reflector s.host.heaps.heap (number_of (to_object x.now).name)) s t) }
    // no object comes but that reflector
    ensures came { result ≡ 0 → Open c.old.handle.host c.new.handle.host (λ s t. Comes (to_object reflector.new).name s.host t.host) }
    ensures none_came { result ≢ 0 → Open c.old.handle.host c.new.handle.host (λ s t. NoneComes s.host t.host) }
    ensures lasts { Open c.old.handle.host c.new.handle.host (λ s t. Lasts (reflector_of (Some (to_object x.now).name)) s.host t.host) }
{
    let Some(mut host) = c.take(alloc) else {
        return CLOSED;
    };
    let answer = host.wrap(object(x));
    *c = Collector::of(host);
    match answer {
        Ok(x) => {
            *reflector = show(x);
            OK
        }
        Err(stop) => of_stop(stop),
    }
}

/// The native that a reflector stands for; nothing of any other script object.
#[unsafe(no_mangle)]
#[tactic(auto, using(crate::proofs::Statuses::by_stop))]
pub extern "C" fn cc_unwrap(
    alloc: Global,
    c: &mut Collector,
    x: &CObject,
    native: &mut CObject,
) -> u32
    ensures closed { c.old.handle.host ≡ None → result ≡ 1 }
    ensures stops { Reads c.old.handle.host (λ s. IsStatus (stop_script s.host (to_object x.now)) result) }
    ensures name { result ≡ 0 → Reads c.old.handle.host (λ s. named (to_content native.new) ≡ native_of (Some (to_object x.now).name)) }
    ensures there { result ≡ 0 → Reads c.old.handle.host (λ s. IsThereIfAny s.host (to_content native.new)) }
    ensures left { result ≢ 0 → native.new ≡ native.old }
    ensures same { c.new.handle.host ≡ c.old.handle.host }
{
    let Some(host) = c.take(alloc) else {
        return CLOSED;
    };
    let answer = host.unwrap(object(x));
    *c = Collector::of(host);
    match answer {
        Ok(x) => {
            *native = show_any(x);
            OK
        }
        Err(stop) => of_stop(stop),
    }
}

/// A reflector is preserved from then on: its native holds it.
#[unsafe(no_mangle)]
#[tactic(auto, using(crate::proofs::Statuses::by_stop))]
pub extern "C" fn cc_preserve(alloc: Global, c: &mut Collector, x: &CObject) -> u32
    ensures stays { Stays c.old.handle.host c.new.handle.host result }
    ensures stops { Open c.old.handle.host c.new.handle.host (λ s t. IsStatus (stop_reflector s.host (to_object x.now)) result) }
    ensures does { result ≡ 0 → Open c.old.handle.host c.new.handle.host
        (λ s t. Does (IsReachedOrReflects s.host.heaps.heap (Some (to_object x.now).name)) (λ g. graph.preserve g
        (Some (to_object x.now).name)) s.host t.host) }
    ensures writes { result ≡ 0 → Open c.old.handle.host c.new.handle.host (Writes (Spot.preserved (to_object x.now).name ∷ [])) }
    ensures written { result ≡ 0 → Reads c.new.handle.host (Wrote (Spot.preserved (to_object x.now).name) (Some (to_object x.now).name)) }
    ensures same { result ≢ 0 → c.new.handle.host ≡ c.old.handle.host }
    ensures quiet { Open c.old.handle.host c.new.handle.host Quiet }
    ensures none_came { Open c.old.handle.host c.new.handle.host (λ s t. NoneComes s.host t.host) }
    ensures lasts { Open c.old.handle.host c.new.handle.host (λ s t. Lasts None s.host t.host) }
{
    let Some(mut host) = c.take(alloc) else {
        return CLOSED;
    };
    let answer = host.preserve(object(x));
    *c = Collector::of(host);
    match answer {
        Ok(()) => OK,
        Err(stop) => of_stop(stop),
    }
}

/// The reflector of a native, where there is one; nothing else. Nothing is made, and nothing exposed.
#[unsafe(no_mangle)]
#[tactic(auto, using(crate::proofs::Statuses::by_stop))]
pub extern "C" fn cc_reflector(
    alloc: Global,
    c: &mut Collector,
    x: &CObject,
    reflector: &mut CObject,
) -> u32
    ensures closed { c.old.handle.host ≡ None → result ≡ 1 }
    ensures stops { Reads c.old.handle.host (λ s. IsStatus (stop_native s.host (to_object x.now)) result) }
    ensures name { result ≡ 0 → Reads c.old.handle.host (λ s. named (to_content reflector.new) ≡ reflector_in s.host.heaps.heap (to_object x.now).name) }
    ensures there { result ≡ 0 → Reads c.old.handle.host (λ s. IsThereIfAny s.host (to_content reflector.new)) }
    ensures left { result ≢ 0 → reflector.new ≡ reflector.old }
    ensures same { c.new.handle.host ≡ c.old.handle.host }
{
    let Some(host) = c.take(alloc) else {
        return CLOSED;
    };
    let answer = host.reflector_of(object(x));
    *c = Collector::of(host);
    match answer {
        Ok(x) => {
            *reflector = show_any(x);
            OK
        }
        Err(stop) => of_stop(stop),
    }
}

/// Whether a reflector is preserved: whether its native holds it.
#[unsafe(no_mangle)]
#[tactic(auto, using(crate::proofs::Statuses::by_stop))]
pub extern "C" fn cc_is_preserved(
    alloc: Global,
    c: &mut Collector,
    x: &CObject,
    held: &mut u32,
) -> u32
    ensures closed { c.old.handle.host ≡ None → result ≡ 1 }
    ensures stops { Reads c.old.handle.host (λ s. IsStatus (stop_reflector s.host (to_object x.now)) result) }
    ensures preserved { result ≡ 0 → Reads c.old.handle.host (λ s. option_map flag (preserved_in s.host.heaps.heap (to_object x.now).name) ≡ Some held.new) }
    ensures left { result ≢ 0 → held.new ≡ held.old }
    ensures same { c.new.handle.host ≡ c.old.handle.host }
{
    let Some(host) = c.take(alloc) else {
        return CLOSED;
    };
    let answer = host.is_preserved(object(x));
    *c = Collector::of(host);
    match answer {
        Ok(b) => {
            *held = flag(b);
            OK
        }
        Err(stop) => of_stop(stop),
    }
}

/// The delegate of a proxy; nothing of any other script object.
#[unsafe(no_mangle)]
#[tactic(auto, using(crate::proofs::Statuses::by_stop))]
pub extern "C" fn cc_delegate(
    alloc: Global,
    c: &mut Collector,
    x: &CObject,
    delegate: &mut CObject,
) -> u32
    ensures closed { c.old.handle.host ≡ None → result ≡ 1 }
    ensures stops { Reads c.old.handle.host (λ s. IsStatus (stop_script s.host (to_object x.now)) result) }
    ensures name { result ≡ 0 → Reads c.old.handle.host (λ s. named (to_content delegate.new) ≡ delegate_at s.host.heaps.heap (to_object x.now).name) }
    ensures exactly { result ≡ 0 → Reads c.old.handle.host (λ s. IsSome (to_content delegate.new) ↔ (kind_at s.host.heaps.scripts x.now.key ≡ Some Proxy)) }
    ensures there { result ≡ 0 → Reads c.old.handle.host (λ s. IsThereIfAny s.host (to_content delegate.new)) }
    ensures left { result ≢ 0 → delegate.new ≡ delegate.old }
    ensures same { c.new.handle.host ≡ c.old.handle.host }
{
    let Some(host) = c.take(alloc) else {
        return CLOSED;
    };
    let answer = host.delegate(object(x));
    *c = Collector::of(host);
    match answer {
        Ok(x) => {
            *delegate = show_any(x);
            OK
        }
        Err(stop) => of_stop(stop),
    }
}

/// What kind of script object an object is: plain (1), a weak map (2), a reflector (3) or a proxy (4).
#[unsafe(no_mangle)]
#[tactic(auto, using(crate::proofs::Statuses::by_stop))]
pub extern "C" fn cc_kind(alloc: Global, c: &mut Collector, x: &CObject, kind: &mut u32) -> u32
    ensures closed { c.old.handle.host ≡ None → result ≡ 1 }
    ensures stops { Reads c.old.handle.host (λ s. IsStatus (stop_script s.host (to_object x.now)) result) }
    ensures kind { result ≡ 0 → Reads c.old.handle.host (λ s. option_map number_of_kind (kind_at s.host.heaps.scripts x.now.key) ≡ Some kind.new) }
    ensures left { result ≢ 0 → kind.new ≡ kind.old }
    ensures same { c.new.handle.host ≡ c.old.handle.host }
{
    let Some(host) = c.take(alloc) else {
        return CLOSED;
    };
    let answer = host.kind(object(x));
    *c = Collector::of(host);
    match answer {
        Ok(x) => {
            *kind = kind_number(x);
            OK
        }
        Err(stop) => of_stop(stop),
    }
}
