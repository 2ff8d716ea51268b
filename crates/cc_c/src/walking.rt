//! Walks over all objects and over the entries of a weak map, the bytes held, and whether a collection is worth it.
ghost use Rattle.std.specs.Prelude.{◌≡◌, ◌≢◌, ◌⊎◌, Some, None, IfOk, OnOk};
ghost use Rattle.cc_host.specs.Hosted.{IsThere, IsThereIfAny, named};
ghost use Rattle.cc_host.specs.Stops.{IsStoppedBy, stop_at, stop_if_any};
ghost use Rattle.cc_host.specs.Walks.{IsPairThere, bytes_held, entries_of, is_due, objects_in, pair_named};
ghost use Rattle.cc_c.specs.Calls.{Reads};
ghost use Rattle.cc_c.specs.Values.{IsStatus, flag, to_content, to_object};
ghost use Rattle.cc_c.specs.Walks.{GoesOverAll, GoesOverEntries, next_name, next_pair, stop_walking};

use crate::collector::Collector;
use crate::status::{CLOSED, NONE, OK, of_stop};
use crate::values::{CObject, content, flag, object, show};
use cc_host::{Host, Object, Stop};
use std::alloc::Global;

// The first object, or the one behind another.
fn next_object(host: &Host, x: Option<Object>) -> Result<Option<Object>, Stop>
    ensures stops { IsStoppedBy (stop_if_any stop_at host.now.host x) result }
    ensures name { IfOk result (λ next. named next ≡ next_name (named x) (objects_in host.now.host.heaps.heap)) }
    ensures there { IfOk result (λ next. IsThereIfAny host.now.host next) }
    ensures taken { IfOk result (λ next. stop_if_any stop_at host.now.host next ≡ None) }
    ensures all { x ≡ None → GoesOverAll host.now.host }
{
    match x {
        Some(x) => host.next_object(x),
        None => Ok(host.first_object()),
    }
}

/// The object that is there behind another; the first one, where it is handed nothing. None where it was the last.
#[unsafe(no_mangle)]
#[tactic(auto, using(crate::proofs::Statuses::by_stop))]
pub extern "C" fn cc_next_object(
    alloc: Global,
    c: &mut Collector,
    x: &CObject,
    next: &mut CObject,
) -> u32
    ensures closed { c.old.handle.host ≡ None → result ≡ 1 }
    ensures stops { result ≢ 10 → Reads c.old.handle.host (λ s. IsStatus (stop_if_any stop_at s.host (to_content x.now)) result) }
    ensures unstopped { result ≡ 10 → Reads c.old.handle.host (λ s. stop_if_any stop_at s.host (to_content x.now) ≡ None) }
    ensures last { result ≡ 10 → Reads c.old.handle.host (λ s. next_name (named (to_content x.now)) (objects_in s.host.heaps.heap) ≡ None) }
    ensures name { result ≡ 0 → Reads c.old.handle.host (λ s.
        next_name (named (to_content x.now)) (objects_in s.host.heaps.heap) ≡ Some (to_object next.new).name) }
    ensures there { result ≡ 0 → Reads c.old.handle.host (λ s. IsThere s.host (to_object next.new)) }
    ensures taken { result ≡ 0 → Reads c.old.handle.host (λ s. stop_at s.host (to_object next.new) ≡ None) }
    ensures all { to_content x.now ≡ None → Reads c.old.handle.host (λ s. GoesOverAll s.host) }
    ensures left { result ≢ 0 → next.new ≡ next.old }
    ensures same { c.new.handle.host ≡ c.old.handle.host }
{
    let Some(host) = c.take(alloc) else {
        return CLOSED;
    };
    let answer = next_object(&host, content(x));
    *c = Collector::of(host);
    match answer {
        Ok(Some(x)) => {
            *next = show(x);
            OK
        }
        Ok(None) => NONE,
        Err(stop) => of_stop(stop),
    }
}

// The first entry of a weak map, or the one behind that of a key.
fn next_entry(
    host: &Host,
    the_map: Object,
    key: Option<Object>,
) -> Result<Option<(Object, Object)>, Stop>
    ensures stops { IsStoppedBy (stop_walking host.now.host the_map key) result }
    ensures names { IfOk result (λ entry. pair_named entry ≡ next_pair (named key) (entries_of host.now.host.heaps.heap the_map.name)) }
    ensures there { IfOk result (λ entry. IsPairThere host.now.host entry) }
    ensures all { key ≡ None → OnOk result (GoesOverEntries host.now.host.heaps.heap the_map.name) }
{
    match key {
        Some(key) => host.next_entry(the_map, key),
        None => host.first_entry(the_map),
    }
}

/// The entry of a weak map behind that of a key; the first one, where it is handed nothing for a key. None where that was the last, or
/// where the key has no entry.
#[unsafe(no_mangle)]
#[tactic(auto, using(crate::proofs::Statuses::by_stop))]
pub extern "C" fn cc_next_entry(
    alloc: Global,
    c: &mut Collector,
    the_map: &CObject,
    key: &CObject,
    next: &mut CObject,
    value: &mut CObject,
) -> u32
    ensures closed { c.old.handle.host ≡ None → result ≡ 1 }
    ensures stops { result ≢ 10 → Reads c.old.handle.host (λ s. IsStatus (stop_walking s.host (to_object the_map.now) (to_content key.now)) result) }
    ensures unstopped { result ≡ 10 → Reads c.old.handle.host (λ s. stop_walking s.host (to_object the_map.now) (to_content key.now) ≡ None) }
    ensures last { result ≡ 10 → Reads c.old.handle.host (λ s.
        next_pair (named (to_content key.now)) (entries_of s.host.heaps.heap (to_object the_map.now).name) ≡ None) }
    ensures names { result ≡ 0 → Reads c.old.handle.host (λ s.
        next_pair (named (to_content key.now)) (entries_of s.host.heaps.heap (to_object the_map.now).name)
        ≡ Some ((to_object next.new).name, (to_object value.new).name)) }
    ensures there { result ≡ 0 → Reads c.old.handle.host (λ s. IsThere s.host (to_object next.new) × IsThere s.host (to_object value.new)) }
    ensures all { to_content key.now ≡ None → (result ≡ 0) ⊎ (result ≡ 10) → Reads c.old.handle.host (λ s.
        GoesOverEntries s.host.heaps.heap (to_object the_map.now).name) }
    ensures left { result ≢ 0 → (next.new ≡ next.old) × (value.new ≡ value.old) }
    ensures same { c.new.handle.host ≡ c.old.handle.host }
{
    let Some(host) = c.take(alloc) else {
        return CLOSED;
    };
    let answer = next_entry(&host, object(the_map), content(key));
    *c = Collector::of(host);
    match answer {
        Ok(Some((k, v))) => {
            *next = show(k);
            *value = show(v);
            OK
        }
        Ok(None) => NONE,
        Err(stop) => of_stop(stop),
    }
}

/// How many bytes are held for objects, as an estimate.
#[unsafe(no_mangle)]
pub extern "C" fn cc_bytes(alloc: Global, c: &mut Collector, bytes: &mut u64) -> u32
    ensures closed { c.old.handle.host ≡ None → result ≡ 1 }
    ensures ok { Reads c.old.handle.host (λ s. result ≡ 0) }
    ensures held { result ≡ 0 → Reads c.old.handle.host (λ s. bytes.new ≡ bytes_held s.host.heaps.heap) }
    ensures left { result ≢ 0 → bytes.new ≡ bytes.old }
    ensures same { c.new.handle.host ≡ c.old.handle.host }
{
    let Some(host) = c.take(alloc) else {
        return CLOSED;
    };
    let answer = host.bytes();
    *c = Collector::of(host);
    *bytes = answer;
    OK
}

/// Whether a collection is worth it, as a hint.
#[unsafe(no_mangle)]
pub extern "C" fn cc_is_due(alloc: Global, c: &mut Collector, due: &mut u32) -> u32
    ensures closed { c.old.handle.host ≡ None → result ≡ 1 }
    ensures ok { Reads c.old.handle.host (λ s. result ≡ 0) }
    ensures is_due { result ≡ 0 → Reads c.old.handle.host (λ s. due.new ≡ flag (is_due s.host)) }
    ensures left { result ≢ 0 → due.new ≡ due.old }
    ensures same { c.new.handle.host ≡ c.old.handle.host }
{
    let Some(host) = c.take(alloc) else {
        return CLOSED;
    };
    let answer = host.is_collection_due();
    *c = Collector::of(host);
    *due = flag(answer);
    OK
}
