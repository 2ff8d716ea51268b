//! Entries of weak maps.
ghost use Rattle.std.specs.Prelude.{◌≡◌, ◌≢◌, None, Some, [], ◌∷◌};
ghost use Rattle.cc_model.specs.Checks.{value_at};
ghost use Rattle.cc_model.specs.Graph as graph;
ghost use Rattle.cc_model.specs.Heap.{objects_of};
ghost use Rattle.cc_host.specs.Calls.{Does, NoneComes, Tries};
ghost use Rattle.cc_heaps.specs.Standing.{IsReachedOrReflects};
ghost use Rattle.cc_host.specs.Hosted.{IsRooted, IsThereIfAny, named};
ghost use Rattle.cc_host.specs.Lasting.{Lasts};
ghost use Rattle.cc_host.specs.Stops.{stop_entry, stop_setting};
ghost use Rattle.cc_host.specs.Hosts.{Quiet};
ghost use Rattle.cc_host.specs.Spots.{Spot, if_reflector};
ghost use Rattle.cc_c.specs.Calls.{Open, Reads, Stays, Writes, Wrote};
ghost use Rattle.cc_c.specs.Values.{IsStatus, IsStatusOrRefused, to_content, to_object};

use crate::collector::Collector;
use crate::status::{CLOSED, OK, of_stop};
use crate::values::{CObject, object, show_any};
use std::alloc::Global;

/// A key has a value in a weak map from then on. Memory is wanted only where it has none.
#[unsafe(no_mangle)]
#[tactic(auto, using(crate::proofs::Statuses::by_stop_or_refusal))]
pub extern "C" fn cc_set_entry(
    alloc: Global,
    c: &mut Collector,
    the_map: &CObject,
    key: &CObject,
    value: &CObject,
) -> u32
    ensures stays { Stays c.old.handle.host c.new.handle.host result }
    ensures stops { Open c.old.handle.host c.new.handle.host
        (λ s t. IsStatusOrRefused (stop_setting s.host (to_object the_map.now) (to_object key.now) (to_object value.now)) result) }
    ensures does { result ≡ 0 → Open c.old.handle.host c.new.handle.host (λ s t. Does (IsRooted s.host (to_object the_map.now)
        × IsReachedOrReflects s.host.heaps.heap (Some (to_object key.now).name)
        × IsReachedOrReflects s.host.heaps.heap (Some (to_object value.now).name)) (λ g. graph.set_entry g
        (Some (to_object the_map.now).name) (Some (to_object key.now).name) (Some (to_object value.now).name)) s.host t.host) }
    ensures writes { result ≡ 0 → Open c.old.handle.host c.new.handle.host
        (Writes (Spot.entry (to_object the_map.now).name (to_object key.now).name ∷ Spot.preserved (to_object key.now).name ∷ [])) }
    ensures written { result ≡ 0 → Reads c.new.handle.host
        (Wrote (Spot.entry (to_object the_map.now).name (to_object key.now).name) (Some (to_object value.now).name)) }
    ensures preserves { result ≡ 0 → Reads c.new.handle.host
        (Wrote (Spot.preserved (to_object key.now).name) (if_reflector (to_object key.now).name)) }
    ensures wanted { result ≡ 8 → Reads c.old.handle.host (λ s. value_at (objects_of s.host.heaps.heap)
        (Some (to_object the_map.now).name) (Some (to_object key.now).name) ≡ None) }
    ensures same { result ≢ 0 → result ≢ 8 → c.new.handle.host ≡ c.old.handle.host }
    ensures tried { result ≢ 0 → Open c.old.handle.host c.new.handle.host
        (λ s t. Tries (IsReachedOrReflects s.host.heaps.heap (Some (to_object key.now).name)
        × IsReachedOrReflects s.host.heaps.heap (Some (to_object value.now).name)) s.host t.host) }
    ensures unwritten { result ≢ 0 → Open c.old.handle.host c.new.handle.host (Writes []) }
    ensures quiet { Open c.old.handle.host c.new.handle.host Quiet }
    ensures none_came { Open c.old.handle.host c.new.handle.host (λ s t. NoneComes s.host t.host) }
    ensures lasts { Open c.old.handle.host c.new.handle.host (λ s t. Lasts None s.host t.host) }
{
    let Some(mut host) = c.take(alloc) else {
        return CLOSED;
    };
    let answer = host.set_entry(object(the_map), object(key), object(value));
    *c = Collector::of(host);
    match answer {
        Ok(()) => OK,
        Err(stop) => of_stop(stop),
    }
}

/// A key has no value in a weak map from then on.
#[unsafe(no_mangle)]
#[tactic(auto, using(crate::proofs::Statuses::by_stop))]
pub extern "C" fn cc_unset_entry(
    alloc: Global,
    c: &mut Collector,
    the_map: &CObject,
    key: &CObject,
) -> u32
    ensures stays { Stays c.old.handle.host c.new.handle.host result }
    ensures stops { Open c.old.handle.host c.new.handle.host (λ s t. IsStatus (stop_entry s.host (to_object the_map.now) (to_object key.now)) result) }
    ensures does { result ≡ 0 → Open c.old.handle.host c.new.handle.host (λ s t. Does (IsRooted s.host (to_object the_map.now)
        × IsReachedOrReflects s.host.heaps.heap (Some (to_object key.now).name)) (λ g. graph.set_entry g
        (Some (to_object the_map.now).name) (Some (to_object key.now).name) None) s.host t.host) }
    ensures writes { result ≡ 0 → Open c.old.handle.host c.new.handle.host
        (Writes (Spot.entry (to_object the_map.now).name (to_object key.now).name ∷ [])) }
    ensures written { result ≡ 0 → Reads c.new.handle.host (Wrote (Spot.entry (to_object the_map.now).name (to_object key.now).name) None) }
    ensures same { result ≢ 0 → c.new.handle.host ≡ c.old.handle.host }
    ensures quiet { Open c.old.handle.host c.new.handle.host Quiet }
    ensures none_came { Open c.old.handle.host c.new.handle.host (λ s t. NoneComes s.host t.host) }
    ensures lasts { Open c.old.handle.host c.new.handle.host (λ s t. Lasts None s.host t.host) }
{
    let Some(mut host) = c.take(alloc) else {
        return CLOSED;
    };
    let answer = host.unset_entry(object(the_map), object(key));
    *c = Collector::of(host);
    match answer {
        Ok(()) => OK,
        Err(stop) => of_stop(stop),
    }
}

/// The value that a key has in a weak map; nothing where it has none.
#[unsafe(no_mangle)]
#[tactic(auto, using(crate::proofs::Statuses::by_stop))]
pub extern "C" fn cc_entry(
    alloc: Global,
    c: &mut Collector,
    the_map: &CObject,
    key: &CObject,
    value: &mut CObject,
) -> u32
    ensures closed { c.old.handle.host ≡ None → result ≡ 1 }
    ensures stops { Reads c.old.handle.host (λ s. IsStatus (stop_entry s.host (to_object the_map.now) (to_object key.now)) result) }
    ensures name { result ≡ 0 → Reads c.old.handle.host (λ s. named (to_content value.new)
        ≡ value_at (objects_of s.host.heaps.heap) (Some (to_object the_map.now).name) (Some (to_object key.now).name)) }
    ensures there { result ≡ 0 → Reads c.old.handle.host (λ s. IsThereIfAny s.host (to_content value.new)) }
    ensures left { result ≢ 0 → value.new ≡ value.old }
    ensures same { c.new.handle.host ≡ c.old.handle.host }
{
    let Some(host) = c.take(alloc) else {
        return CLOSED;
    };
    let answer = host.entry(object(the_map), object(key));
    *c = Collector::of(host);
    match answer {
        Ok(x) => {
            *value = show_any(x);
            OK
        }
        Err(stop) => of_stop(stop),
    }
}
