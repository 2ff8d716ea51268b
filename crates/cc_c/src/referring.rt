//! Weak references.
ghost use Rattle.std.specs.Prelude.{◌≡◌, ◌≢◌, ◌⊎◌, ◌+◌, ◌≤◌, ◌^◌, ℕ, false, Some, None, [], ◌∷◌};
ghost use Rattle.cc_names.specs.declared.register.Reg.TheVariants.{N as n_register};
ghost use Rattle.cc_model.specs.Graph as graph;
ghost use Rattle.cc_host.specs.Calls.{Brings, NoneComes, TellsFreed};
ghost use Rattle.cc_host.specs.Hosted.{named};
ghost use Rattle.cc_host.specs.Lasting.{Lasts};
ghost use Rattle.cc_host.specs.Places.{TakesPlace, held_at, place_for, placed, places};
ghost use Rattle.cc_host.specs.Queues.{told_all};
ghost use Rattle.cc_host.specs.Referring.{HasEnded, has_ended, referent, stop_upgrade, stop_weak, upgraded};
ghost use Rattle.cc_host.specs.Stops.{stop_native};
ghost use Rattle.cc_host.specs.Hosts.{Aside, AreTaken, Enters, serial_at};
ghost use Rattle.cc_host.specs.Spots.{Spot};
ghost use Rattle.cc_c.specs.Calls.{Open, Reads, Stays, Writes, Wrote};
ghost use Rattle.cc_c.specs.Values.{IsRootStatus, IsStatus, flag, to_object, to_weak};

use crate::collector::Collector;
use crate::status::{CLOSED, NONE, OK, of_stop};
use crate::values::{CObject, CRoot, CWeak, flag, object, show, show_root, show_weak, weak_of};
use cc_names::RegNo;
use std::alloc::Global;

/// A weak reference to a native: it keeps nothing alive.
#[unsafe(no_mangle)]
#[tactic(auto, using(crate::proofs::Statuses::by_stop))]
pub extern "C" fn cc_weak_of(
    alloc: Global,
    c: &mut Collector,
    native: &CObject,
    weak: &mut CWeak,
) -> u32
    ensures closed { c.old.handle.host ≡ None → result ≡ 1 }
    ensures stops { Reads c.old.handle.host (λ s. IsStatus (stop_native s.host (to_object native.now)) result) }
    ensures of { result ≡ 0 → Reads c.old.handle.host (λ s. referent (to_weak weak.new) ≡ to_object native.now) }
    ensures there { result ≡ 0 → Reads c.old.handle.host (λ s. has_ended s.host (to_weak weak.new) ≡ false) }
    ensures left { result ≢ 0 → weak.new ≡ weak.old }
    ensures same { c.new.handle.host ≡ c.old.handle.host }
{
    let Some(host) = c.take(alloc) else {
        return CLOSED;
    };
    let answer = host.weak(object(native));
    *c = Collector::of(host);
    match answer {
        Ok(x) => {
            *weak = show_weak(x);
            OK
        }
        Err(stop) => of_stop(stop),
    }
}

/// Whether the native of a weak reference has ended.
#[unsafe(no_mangle)]
#[tactic(auto, using(crate::proofs::Statuses::by_stop))]
pub extern "C" fn cc_ended(alloc: Global, c: &mut Collector, weak: &CWeak, ended: &mut u32) -> u32
    ensures closed { c.old.handle.host ≡ None → result ≡ 1 }
    ensures stops { Reads c.old.handle.host (λ s. IsStatus (stop_weak s.host (to_weak weak.now)) result) }
    ensures answer { result ≡ 0 → Reads c.old.handle.host (λ s. ended.new ≡ flag (has_ended s.host (to_weak weak.now))) }
    ensures left { result ≢ 0 → ended.new ≡ ended.old }
    ensures same { c.new.handle.host ≡ c.old.handle.host }
{
    let Some(host) = c.take(alloc) else {
        return CLOSED;
    };
    let answer = host.has_ended(weak_of(weak));
    *c = Collector::of(host);
    match answer {
        Ok(x) => {
            *ended = flag(x);
            OK
        }
        Err(stop) => of_stop(stop),
    }
}

/// A numbered native root holds the native of a weak reference from then on; or nothing, where it has ended.
#[unsafe(no_mangle)]
#[tactic(auto, using(crate::proofs::Statuses::by_stop))]
pub extern "C" fn cc_upgrade_into(
    alloc: Global,
    c: &mut Collector,
    r: u16,
    weak: &CWeak,
    native: &mut CObject,
) -> u32
    ensures stays { Stays c.old.handle.host c.new.handle.host result }
    ensures stops { result ≢ 10 → Open c.old.handle.host c.new.handle.host (λ s t. IsStatus (stop_upgrade s.host r (to_weak weak.now)) result) }
    ensures none { result ≡ 10 → Reads c.old.handle.host (λ s. HasEnded s.host (to_weak weak.now)) }
    ensures unstopped { result ≡ 10 → Reads c.old.handle.host (λ s. stop_upgrade s.host r (to_weak weak.now) ≡ None) }
    ensures ended { Reads c.old.handle.host (λ s. HasEnded s.host (to_weak weak.now) → stop_upgrade s.host r (to_weak weak.now) ≡ None → result ≡ 10) }
    ensures native { result ≡ 0 → Reads c.old.handle.host (λ s. Some (to_object native.new) ≡ upgraded s.host (to_weak weak.now)) }
    ensures does { (result ≡ 0) ⊎ (result ≡ 10) → Open c.old.handle.host c.new.handle.host (λ s t. Brings (named (upgraded s.host (to_weak weak.now)))
        (λ g. graph.set_register g (n_register r) (named (upgraded s.host (to_weak weak.now)))) s.host t.host) }
    ensures writes { (result ≡ 0) ⊎ (result ≡ 10) → Open c.old.handle.host c.new.handle.host (Writes (Spot.register (n_register r) ∷ [])) }
    ensures written { (result ≡ 0) ⊎ (result ≡ 10) → Open c.old.handle.host c.new.handle.host
        (λ s t. Wrote (Spot.register (n_register r)) (named (upgraded s.host (to_weak weak.now))) t) }
    ensures left { result ≢ 0 → native.new ≡ native.old }
    ensures same { result ≢ 0 → result ≢ 10 → c.new.handle.host ≡ c.old.handle.host }
    ensures tells { Open c.old.handle.host c.new.handle.host (λ s t. TellsFreed s.host t.host (told_all s.told) (told_all t.told)) }
    ensures aside { Open c.old.handle.host c.new.handle.host Aside }
    ensures none_came { Open c.old.handle.host c.new.handle.host (λ s t. NoneComes s.host t.host) }
    ensures lasts { Open c.old.handle.host c.new.handle.host (λ s t. Lasts None s.host t.host) }
{
    let Some(mut host) = c.take(alloc) else {
        return CLOSED;
    };
    let answer = host.upgrade_into(r as RegNo, weak_of(weak));
    *c = Collector::of(host);
    match answer {
        Ok(Some(x)) => {
            *native = show(x);
            OK
        }
        Ok(None) => NONE,
        Err(stop) => of_stop(stop),
    }
}

/// A root without number holds the native of a weak reference until it is released; none, and nothing changes, where it has ended.
#[unsafe(no_mangle)]
#[tactic(auto, using(crate::proofs::Statuses::by_stop_of_root))]
pub extern "C" fn cc_upgrade(
    alloc: Global,
    c: &mut Collector,
    weak: &CWeak,
    root: &mut CRoot,
    native: &mut CObject,
) -> u32
    ensures stays { Stays c.old.handle.host c.new.handle.host result }
    ensures stops { result ≢ 10 → Open c.old.handle.host c.new.handle.host (λ s t. IsRootStatus (stop_weak s.host (to_weak weak.now)) result) }
    ensures full { result ≡ 7 → Reads c.old.handle.host (λ s. AreTaken s.books places ⊎ (2 ^ 64 ≤ s.books.last + 1)) }
    ensures none { result ≡ 10 → Reads c.old.handle.host (λ s. HasEnded s.host (to_weak weak.now)) }
    ensures unstopped { result ≡ 10 → Reads c.old.handle.host (λ s. stop_weak s.host (to_weak weak.now) ≡ None) }
    ensures ended { Reads c.old.handle.host (λ s. HasEnded s.host (to_weak weak.now) → stop_weak s.host (to_weak weak.now) ≡ None → result ≡ 10) }
    ensures unchanged { result ≡ 10 → c.new.handle.host ≡ c.old.handle.host }
    ensures brings { result ≡ 0 → Open c.old.handle.host c.new.handle.host (λ s t.
        Brings (Some (referent (to_weak weak.now)).name) (placed root.new.index (referent (to_weak weak.now)).name) s.host t.host) }
    ensures writes { result ≡ 0 → Open c.old.handle.host c.new.handle.host
        (Writes (Spot.register (place_for root.new.index (referent (to_weak weak.now)).name) ∷ [])) }
    ensures free { result ≡ 0 → Reads c.old.handle.host (λ s. serial_at s.books root.new.index ≡ None) }
    ensures holds { result ≡ 0 → Reads c.new.handle.host (λ t.
        held_at t.host.heaps.heap root.new.index ≡ Some (referent (to_weak weak.now)).name) }
    ensures takes { result ≡ 0 → Open c.old.handle.host c.new.handle.host (λ s t.
        TakesPlace root.new.index (referent (to_weak weak.now)).name s.host.heaps.heap t.host.heaps.heap) }
    ensures entered { result ≡ 0 → Open c.old.handle.host c.new.handle.host (λ s t.
        Enters s.books t.books root.new.index (Some root.new.serial)) }
    ensures serial { result ≡ 0 → Open c.old.handle.host c.new.handle.host (λ s t.
        (root.new.serial ≡ s.books.last + 1) × (t.books.last ≡ root.new.serial)) }
    ensures mark { result ≡ 0 → Open c.old.handle.host c.new.handle.host (λ s t. root.new.mark ≡ s.host.mark) }
    ensures native { result ≡ 0 → to_object native.new ≡ referent (to_weak weak.now) }
    ensures same { result ≢ 0 → Open c.old.handle.host c.new.handle.host (λ s t. (t.host ≡ s.host) × (t.told ≡ s.told)) }
    ensures no_root { result ≢ 0 → Open c.old.handle.host c.new.handle.host (λ s t.
        (index : ℕ) → serial_at t.books index ≡ serial_at s.books index) }
    ensures last { Open c.old.handle.host c.new.handle.host (λ s t. s.books.last ≤ t.books.last) }
    ensures given { Open c.old.handle.host c.new.handle.host (λ s t. t.books.given ≡ s.books.given) }
    ensures steps { Open c.old.handle.host c.new.handle.host (λ s t. t.steps ≡ s.steps) }
    ensures left { result ≢ 0 → (root.new ≡ root.old) × (native.new ≡ native.old) }
    ensures none_came { Open c.old.handle.host c.new.handle.host (λ s t. NoneComes s.host t.host) }
    ensures tells { Open c.old.handle.host c.new.handle.host (λ s t. TellsFreed s.host t.host (told_all s.told) (told_all t.told)) }
    ensures lasts { Open c.old.handle.host c.new.handle.host (λ s t. Lasts None s.host t.host) }
{
    let Some(mut host) = c.take(alloc) else {
        return CLOSED;
    };
    let answer = host.upgrade(weak_of(weak));
    *c = Collector::of(host);
    match answer {
        Ok(Some(x)) => {
            *root = show_root(x);
            *native = native_of(weak);
            OK
        }
        Ok(None) => NONE,
        Err(stop) => of_stop(stop),
    }
}

/// The native of a weak reference, for C.
fn native_of(weak: &CWeak) -> CObject
    ensures { to_object result ≡ referent (to_weak weak.now) }
{
    CObject {
        mark: weak.mark,
        key: weak.key,
        number: weak.number,
        kind: 1,
    }
}
