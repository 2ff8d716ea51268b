//! Roots, numbered ones and as many others as wanted.
ghost use Rattle.std.specs.Prelude.{◌≡◌, ◌≢◌, ◌⊎◌, ◌+◌, ◌≤◌, ◌^◌, ℕ, true, None, Some, [], ◌∷◌};
ghost use Rattle.cc_names.specs.Names.{is_native};
ghost use Rattle.cc_names.specs.declared.register.Reg.TheVariants.{N as n_register, S as s_register};
ghost use Rattle.cc_model.specs.Graph as graph;
ghost use Rattle.cc_model.specs.Heap.{register};
ghost use Rattle.cc_heaps.specs.Standing.{IsReachedOrReflects};
ghost use Rattle.cc_host.specs.Calls.{Always, Brings, Does, NoneComes, TellsFreed};
ghost use Rattle.cc_host.specs.Hosted.{IsRooted, IsRootedIfAny, IsThere, IsThereIfAny, named};
ghost use Rattle.cc_host.specs.Lasting.{Lasts};
ghost use Rattle.cc_host.specs.Places.{IsFree, KeepsOtherPlaces, TakesPlace, held_at, native_place, place_for, placed, places, script_place, unplaced};
ghost use Rattle.cc_host.specs.Queues.{told_all};
ghost use Rattle.cc_host.specs.Stops.{stop_at, stop_native, stop_root as stop_number, stop_rooting, stop_script};
ghost use Rattle.cc_host.specs.Hosts.{Aside, AreTaken, Enters, Quiet, serial_at};
ghost use Rattle.cc_host.specs.Refusals.{stop_of_root};
ghost use Rattle.cc_host.specs.Spots.{Spot};
ghost use Rattle.cc_c.specs.Calls.{Open, Reads, Stays, Writes, Wrote};
ghost use Rattle.cc_c.specs.Values.{IsRootStatus, IsStatus, to_content, to_object, to_root};

use crate::collector::Collector;
use crate::status::{CLOSED, INDEX, OK, of_stop};
use crate::values::{CObject, CRoot, content, object, root_of, show, show_any, show_root};
use cc_host::NUMBERED_ROOTS;
use cc_names::RegNo;
use std::alloc::Global;

/// Numbered native root `r` holds a native from then on, or nothing.
#[unsafe(no_mangle)]
#[tactic(auto, using(crate::proofs::Statuses::by_stop))]
pub extern "C" fn cc_set_native_root(alloc: Global, c: &mut Collector, r: u16, x: &CObject) -> u32
    ensures stays { Stays c.old.handle.host c.new.handle.host result }
    ensures stops { Open c.old.handle.host c.new.handle.host (λ s t. IsStatus (stop_rooting stop_native s.host r (to_content x.now)) result) }
    ensures does { result ≡ 0 → Open c.old.handle.host c.new.handle.host (λ s t.
        Does (IsRootedIfAny s.host (to_content x.now)) (λ g. graph.set_register g (n_register r) (named (to_content x.now))) s.host t.host) }
    ensures writes { result ≡ 0 → Open c.old.handle.host c.new.handle.host (Writes (Spot.register (n_register r) ∷ [])) }
    ensures written { result ≡ 0 → Reads c.new.handle.host (Wrote (Spot.register (n_register r)) (named (to_content x.now))) }
    ensures same { result ≢ 0 → c.new.handle.host ≡ c.old.handle.host }
    ensures tells { Open c.old.handle.host c.new.handle.host (λ s t. TellsFreed s.host t.host (told_all s.told) (told_all t.told)) }
    ensures aside { Open c.old.handle.host c.new.handle.host Aside }
    ensures none_came { Open c.old.handle.host c.new.handle.host (λ s t. NoneComes s.host t.host) }
    ensures lasts { Open c.old.handle.host c.new.handle.host (λ s t. Lasts None s.host t.host) }
{
    let Some(mut host) = c.take(alloc) else {
        return CLOSED;
    };
    let answer = host.set_native_root(r as RegNo, content(x));
    *c = Collector::of(host);
    match answer {
        Ok(()) => OK,
        Err(stop) => of_stop(stop),
    }
}

/// Numbered script root `r` holds a script object from then on, or nothing.
#[unsafe(no_mangle)]
#[tactic(auto, using(crate::proofs::Statuses::by_stop))]
pub extern "C" fn cc_set_script_root(alloc: Global, c: &mut Collector, r: u16, x: &CObject) -> u32
    ensures stays { Stays c.old.handle.host c.new.handle.host result }
    ensures stops { Open c.old.handle.host c.new.handle.host (λ s t. IsStatus (stop_rooting stop_script s.host r (to_content x.now)) result) }
    ensures does { result ≡ 0 → Open c.old.handle.host c.new.handle.host (λ s t.
        Does (IsReachedOrReflects s.host.heaps.heap (named (to_content x.now)))
        (λ g. graph.set_register g (s_register r) (named (to_content x.now))) s.host t.host) }
    ensures writes { result ≡ 0 → Open c.old.handle.host c.new.handle.host (Writes (Spot.register (s_register r) ∷ [])) }
    ensures written { result ≡ 0 → Reads c.new.handle.host (Wrote (Spot.register (s_register r)) (named (to_content x.now))) }
    ensures same { result ≢ 0 → c.new.handle.host ≡ c.old.handle.host }
    ensures quiet { Open c.old.handle.host c.new.handle.host Quiet }
    ensures none_came { Open c.old.handle.host c.new.handle.host (λ s t. NoneComes s.host t.host) }
    ensures lasts { Open c.old.handle.host c.new.handle.host (λ s t. Lasts None s.host t.host) }
{
    let Some(mut host) = c.take(alloc) else {
        return CLOSED;
    };
    let answer = host.set_script_root(r as RegNo, content(x));
    *c = Collector::of(host);
    match answer {
        Ok(()) => OK,
        Err(stop) => of_stop(stop),
    }
}

/// What a numbered native root holds.
#[unsafe(no_mangle)]
#[tactic(auto, using(crate::proofs::Statuses::by_stop))]
pub extern "C" fn cc_native_root(
    alloc: Global,
    c: &mut Collector,
    r: u16,
    held: &mut CObject,
) -> u32
    ensures closed { c.old.handle.host ≡ None → result ≡ 1 }
    ensures stops { Reads c.old.handle.host (λ s. IsStatus (stop_number r) result) }
    ensures name { result ≡ 0 → Reads c.old.handle.host (λ s. named (to_content held.new) ≡ register s.host.heaps.heap (n_register r)) }
    ensures there { result ≡ 0 → Reads c.old.handle.host (λ s. IsThereIfAny s.host (to_content held.new)) }
    ensures left { result ≢ 0 → held.new ≡ held.old }
    ensures same { c.new.handle.host ≡ c.old.handle.host }
{
    let Some(host) = c.take(alloc) else {
        return CLOSED;
    };
    let answer = host.native_root(r as RegNo);
    *c = Collector::of(host);
    if r as RegNo >= NUMBERED_ROOTS {
        return INDEX;
    }
    *held = show_any(answer);
    OK
}

/// What a numbered script root holds.
#[unsafe(no_mangle)]
#[tactic(auto, using(crate::proofs::Statuses::by_stop))]
pub extern "C" fn cc_script_root(
    alloc: Global,
    c: &mut Collector,
    r: u16,
    held: &mut CObject,
) -> u32
    ensures closed { c.old.handle.host ≡ None → result ≡ 1 }
    ensures stops { Reads c.old.handle.host (λ s. IsStatus (stop_number r) result) }
    ensures name { result ≡ 0 → Reads c.old.handle.host (λ s. named (to_content held.new) ≡ register s.host.heaps.heap (s_register r)) }
    ensures there { result ≡ 0 → Reads c.old.handle.host (λ s. IsThereIfAny s.host (to_content held.new)) }
    ensures left { result ≢ 0 → held.new ≡ held.old }
    ensures same { c.new.handle.host ≡ c.old.handle.host }
{
    let Some(host) = c.take(alloc) else {
        return CLOSED;
    };
    let answer = host.script_root(r as RegNo);
    *c = Collector::of(host);
    if r as RegNo >= NUMBERED_ROOTS {
        return INDEX;
    }
    *held = show_any(answer);
    OK
}

/// Holds an object until the root that it answers is released. Any number of roots may hold one object, and any native that is
/// there is taken, whether anything reaches it or not.
///
/// The root is one that was not in use, and holds the object from then on (`holds`). It is no object, and counts for no limit. It
/// is refused for want of a place only where every one is in use, or where no serial number is left (`full`).
#[unsafe(no_mangle)]
#[tactic(auto, using(crate::proofs::Statuses::by_stop_of_root))]
pub extern "C" fn cc_hold(alloc: Global, c: &mut Collector, x: &CObject, root: &mut CRoot) -> u32
    ensures stays { Stays c.old.handle.host c.new.handle.host result }
    ensures stops { Open c.old.handle.host c.new.handle.host (λ s t. IsRootStatus (stop_at s.host (to_object x.now)) result) }
    ensures full { result ≡ 7 → Reads c.old.handle.host (λ s. AreTaken s.books places ⊎ (2 ^ 64 ≤ s.books.last + 1)) }
    ensures does { result ≡ 0 → Open c.old.handle.host c.new.handle.host (λ s t.
        Does (IsReachedOrReflects s.host.heaps.heap (Some (to_object x.now).name)) (placed root.new.index (to_object x.now).name) s.host t.host) }
    ensures writes { result ≡ 0 → Open c.old.handle.host c.new.handle.host
        (Writes (Spot.register (place_for root.new.index (to_object x.now).name) ∷ [])) }
    ensures brings { result ≡ 0 → Open c.old.handle.host c.new.handle.host (λ s t. is_native (to_object x.now).name ≡ true →
        Brings (Some (to_object x.now).name) (placed root.new.index (to_object x.now).name) s.host t.host) }
    ensures free { result ≡ 0 → Reads c.old.handle.host (λ s. serial_at s.books root.new.index ≡ None) }
    ensures holds { result ≡ 0 → Reads c.new.handle.host (λ t. held_at t.host.heaps.heap root.new.index ≡ Some (to_object x.now).name) }
    ensures takes { result ≡ 0 → Open c.old.handle.host c.new.handle.host (λ s t.
        TakesPlace root.new.index (to_object x.now).name s.host.heaps.heap t.host.heaps.heap) }
    ensures entered { result ≡ 0 → Open c.old.handle.host c.new.handle.host (λ s t.
        Enters s.books t.books root.new.index (Some root.new.serial)) }
    ensures serial { result ≡ 0 → Open c.old.handle.host c.new.handle.host (λ s t.
        (root.new.serial ≡ s.books.last + 1) × (t.books.last ≡ root.new.serial)) }
    ensures mark { result ≡ 0 → Open c.old.handle.host c.new.handle.host (λ s t. root.new.mark ≡ s.host.mark) }
    ensures same { result ≢ 0 → Open c.old.handle.host c.new.handle.host (λ s t. (t.host ≡ s.host) × (t.told ≡ s.told)) }
    ensures none { result ≢ 0 → Open c.old.handle.host c.new.handle.host (λ s t.
        (index : ℕ) → serial_at t.books index ≡ serial_at s.books index) }
    ensures last { Open c.old.handle.host c.new.handle.host (λ s t. s.books.last ≤ t.books.last) }
    ensures given { Open c.old.handle.host c.new.handle.host (λ s t. t.books.given ≡ s.books.given) }
    ensures steps { Open c.old.handle.host c.new.handle.host (λ s t. t.steps ≡ s.steps) }
    ensures left { result ≢ 0 → root.new ≡ root.old }
    ensures none_came { Open c.old.handle.host c.new.handle.host (λ s t. NoneComes s.host t.host) }
    ensures tells { Open c.old.handle.host c.new.handle.host (λ s t. TellsFreed s.host t.host (told_all s.told) (told_all t.told)) }
    ensures lasts { Open c.old.handle.host c.new.handle.host (λ s t. Lasts None s.host t.host) }
{
    let Some(mut host) = c.take(alloc) else {
        return CLOSED;
    };
    let answer = host.root(object(x));
    *c = Collector::of(host);
    match answer {
        Ok(x) => {
            *root = show_root(x);
            OK
        }
        Err(stop) => of_stop(stop),
    }
}

/// A root holds nothing from then on, and is not in use: each call that it is handed to is refused, for ever.
#[unsafe(no_mangle)]
#[tactic(auto, using(crate::proofs::Statuses::by_stop))]
pub extern "C" fn cc_release(alloc: Global, c: &mut Collector, root: &CRoot) -> u32
    ensures stays { Stays c.old.handle.host c.new.handle.host result }
    ensures stops { Open c.old.handle.host c.new.handle.host (λ s t. IsStatus (stop_of_root s (to_root root.now)) result) }
    ensures does { result ≡ 0 → Open c.old.handle.host c.new.handle.host (λ s t. Does Always (unplaced root.now.index) s.host t.host) }
    ensures writes { result ≡ 0 → Open c.old.handle.host c.new.handle.host
        (Writes (Spot.register (native_place root.now.index) ∷ Spot.register (script_place root.now.index) ∷ [])) }
    ensures given_up { result ≡ 0 → Open c.old.handle.host c.new.handle.host (λ s t. Enters s.books t.books root.now.index None) }
    ensures empty { result ≡ 0 → Reads c.new.handle.host (λ t. IsFree t.host.heaps.heap root.now.index) }
    ensures others { Open c.old.handle.host c.new.handle.host (λ s t.
        KeepsOtherPlaces root.now.index s.host.heaps.heap t.host.heaps.heap) }
    ensures last { Open c.old.handle.host c.new.handle.host (λ s t. t.books.last ≡ s.books.last) }
    ensures steps { Open c.old.handle.host c.new.handle.host (λ s t. t.steps ≡ s.steps) }
    ensures same { result ≢ 0 → c.new.handle.host ≡ c.old.handle.host }
    ensures none_came { Open c.old.handle.host c.new.handle.host (λ s t. NoneComes s.host t.host) }
    ensures tells { Open c.old.handle.host c.new.handle.host (λ s t. TellsFreed s.host t.host (told_all s.told) (told_all t.told)) }
    ensures lasts { Open c.old.handle.host c.new.handle.host (λ s t. Lasts None s.host t.host) }
{
    let Some(mut host) = c.take(alloc) else {
        return CLOSED;
    };
    let answer = host.release(root_of(root));
    *c = Collector::of(host);
    match answer {
        Ok(()) => OK,
        Err(stop) => of_stop(stop),
    }
}

/// What a root holds: an object, always.
#[unsafe(no_mangle)]
#[tactic(auto, using(crate::proofs::Statuses::by_stop))]
pub extern "C" fn cc_held(alloc: Global, c: &mut Collector, root: &CRoot, held: &mut CObject) -> u32
    ensures closed { c.old.handle.host ≡ None → result ≡ 1 }
    ensures stops { Reads c.old.handle.host (λ s. IsStatus (stop_of_root s (to_root root.now)) result) }
    ensures holds { result ≡ 0 → Reads c.old.handle.host (λ s. held_at s.host.heaps.heap root.now.index ≡ Some (to_object held.new).name) }
    ensures some { result ≡ 0 → to_content held.new ≡ Some (to_object held.new) }
    ensures there { result ≡ 0 → Reads c.old.handle.host (λ s. IsThere s.host (to_object held.new)) }
    ensures rooted { result ≡ 0 → Reads c.old.handle.host (λ s. IsRooted s.host (to_object held.new)) }
    ensures left { result ≢ 0 → held.new ≡ held.old }
    ensures same { c.new.handle.host ≡ c.old.handle.host }
{
    let Some(host) = c.take(alloc) else {
        return CLOSED;
    };
    let answer = host.held(root_of(root));
    *c = Collector::of(host);
    match answer {
        Ok(x) => {
            *held = show(x);
            OK
        }
        Err(stop) => of_stop(stop),
    }
}
