//! Slots read and written.
ghost use Rattle.std.specs.Prelude.{◌≡◌, ◌≢◌, None, Some, length, slice_index_or, [], ◌∷◌};
ghost use Rattle.cc_names.specs.Names.{number_of};
ghost use Rattle.cc_model.specs.Graph as graph;
ghost use Rattle.cc_heaps.specs.Changes.{slot_held};
ghost use Rattle.cc_host.specs.Calls.{Does, NoneComes, TellsFreed, stored};
ghost use Rattle.cc_heaps.specs.Standing.{IsReachedOrReflects};
ghost use Rattle.cc_host.specs.Hosted.{IsRooted, IsThereIfAny, named, slots_of};
ghost use Rattle.cc_host.specs.Lasting.{Lasts};
ghost use Rattle.cc_host.specs.Stops.{stop_at, stop_moving, stop_reading, stop_storing};
ghost use Rattle.cc_host.specs.Queues.{told_all};
ghost use Rattle.cc_host.specs.Hosts.{Aside};
ghost use Rattle.cc_host.specs.Spots.{Spot, if_reflector, reads};
ghost use Rattle.cc_c.specs.Calls.{Open, Reads, Stays, Writes, Wrote};
ghost use Rattle.cc_c.specs.Values.{IsStatus, to_content, to_object};

use crate::collector::Collector;
use crate::status::{CLOSED, OK, of_stop};
use crate::values::{CObject, content, object, show_any};
use cc_names::SlotNo;
use std::alloc::Global;

/// How many slots an object has. A weak map and a proxy have none.
#[unsafe(no_mangle)]
#[tactic(auto, using(crate::proofs::Statuses::by_stop))]
pub extern "C" fn cc_slots(alloc: Global, c: &mut Collector, x: &CObject, slots: &mut SlotNo) -> u32
    ensures closed { c.old.handle.host ≡ None → result ≡ 1 }
    ensures stops { Reads c.old.handle.host (λ s. IsStatus (stop_at s.host (to_object x.now)) result) }
    ensures count { result ≡ 0 → Reads c.old.handle.host (λ s. slots.new ≡ length (slots_of s.host (to_object x.now))) }
    ensures left { result ≢ 0 → slots.new ≡ slots.old }
    ensures same { c.new.handle.host ≡ c.old.handle.host }
{
    let Some(host) = c.take(alloc) else {
        return CLOSED;
    };
    let answer = host.slots(object(x));
    *c = Collector::of(host);
    match answer {
        Ok(count) => {
            *slots = count;
            OK
        }
        Err(stop) => of_stop(stop),
    }
}

/// What slot `i` of an object holds, counted from 0.
#[unsafe(no_mangle)]
#[tactic(auto, using(crate::proofs::Statuses::by_stop))]
pub extern "C" fn cc_slot(
    alloc: Global,
    c: &mut Collector,
    x: &CObject,
    i: SlotNo,
    held: &mut CObject,
) -> u32
    ensures closed { c.old.handle.host ≡ None → result ≡ 1 }
    ensures stops { Reads c.old.handle.host (λ s. IsStatus (stop_reading s.host (to_object x.now) i) result) }
    ensures name { result ≡ 0 → Reads c.old.handle.host (λ s. named (to_content held.new) ≡ slice_index_or (slots_of s.host (to_object x.now)) i None) }
    ensures there { result ≡ 0 → Reads c.old.handle.host (λ s. IsThereIfAny s.host (to_content held.new)) }
    ensures left { result ≢ 0 → held.new ≡ held.old }
    ensures same { c.new.handle.host ≡ c.old.handle.host }
{
    let Some(host) = c.take(alloc) else {
        return CLOSED;
    };
    let answer = host.slot(object(x), i);
    *c = Collector::of(host);
    match answer {
        Ok(x) => {
            *held = show_any(x);
            OK
        }
        Err(stop) => of_stop(stop),
    }
}

/// Slot `i` of an object, counted from 0, holds another object from then on, or nothing.
#[unsafe(no_mangle)]
#[tactic(auto, using(crate::proofs::Statuses::by_stop))]
pub extern "C" fn cc_store(
    alloc: Global,
    c: &mut Collector,
    x: &CObject,
    i: SlotNo,
    y: &CObject,
) -> u32
    ensures stays { Stays c.old.handle.host c.new.handle.host result }
    ensures stops { Open c.old.handle.host c.new.handle.host (λ s t. IsStatus (stop_storing s.host (to_object x.now) i (to_content y.now)) result) }
    ensures does { result ≡ 0 → Open c.old.handle.host c.new.handle.host (λ s t.
        Does (IsReachedOrReflects s.host.heaps.heap (Some (to_object x.now).name) × IsReachedOrReflects s.host.heaps.heap (named (to_content y.now)))
        (stored (to_object x.now) i (named (to_content y.now))) s.host t.host) }
    ensures writes { result ≡ 0 → Open c.old.handle.host c.new.handle.host
        (Writes (Spot.slot (to_object x.now).name i ∷ Spot.preserved (to_object x.now).name ∷ [])) }
    ensures written { result ≡ 0 → Reads c.new.handle.host (Wrote (Spot.slot (to_object x.now).name i) (named (to_content y.now))) }
    ensures preserves { result ≡ 0 → Reads c.new.handle.host (Wrote (Spot.preserved (to_object x.now).name) (if_reflector (to_object x.now).name)) }
    ensures same { result ≢ 0 → c.new.handle.host ≡ c.old.handle.host }
    ensures tells { Open c.old.handle.host c.new.handle.host (λ s t. TellsFreed s.host t.host (told_all s.told) (told_all t.told)) }
    ensures aside { Open c.old.handle.host c.new.handle.host Aside }
    ensures none_came { Open c.old.handle.host c.new.handle.host (λ s t. NoneComes s.host t.host) }
    ensures lasts { Open c.old.handle.host c.new.handle.host (λ s t. Lasts None s.host t.host) }
{
    let Some(mut host) = c.take(alloc) else {
        return CLOSED;
    };
    let answer = host.store(object(x), i, content(y));
    *c = Collector::of(host);
    match answer {
        Ok(()) => OK,
        Err(stop) => of_stop(stop),
    }
}

/// Slot `i` of the native `to`, counted from 0, holds from then on what slot `j` of the native `from` held, which is empty then.
#[unsafe(no_mangle)]
#[tactic(auto, using(crate::proofs::Statuses::by_stop))]
pub extern "C" fn cc_move_slot(
    alloc: Global,
    c: &mut Collector,
    to: &CObject,
    i: SlotNo,
    from: &CObject,
    j: SlotNo,
) -> u32
    ensures stays { Stays c.old.handle.host c.new.handle.host result }
    ensures stops { Open c.old.handle.host c.new.handle.host (λ s t. IsStatus (stop_moving s.host (to_object to.now) i (to_object from.now) j) result) }
    ensures does { result ≡ 0 → Open c.old.handle.host c.new.handle.host (λ s t.
        Does (IsRooted s.host (to_object to.now) × IsRooted s.host (to_object from.now))
        (λ g. graph.move_slot g (Some (to_object to.now).name) i (Some (to_object from.now).name) j
        (slot_held s.host.heaps.heap (number_of (to_object from.now).name) j)) s.host t.host) }
    ensures writes { result ≡ 0 → Open c.old.handle.host c.new.handle.host
        (Writes (Spot.slot (to_object to.now).name i ∷ Spot.slot (to_object from.now).name j ∷ [])) }
    ensures written { result ≡ 0 → Open c.old.handle.host c.new.handle.host (λ s t. Wrote (Spot.slot (to_object to.now).name i)
        (reads s.host.heaps.heap (Spot.slot (to_object from.now).name j)) t) }
    ensures emptied { result ≡ 0 → Spot.slot (to_object to.now).name i ≢ Spot.slot (to_object from.now).name j →
        Reads c.new.handle.host (Wrote (Spot.slot (to_object from.now).name j) None) }
    ensures same { result ≢ 0 → c.new.handle.host ≡ c.old.handle.host }
    ensures tells { Open c.old.handle.host c.new.handle.host (λ s t. TellsFreed s.host t.host (told_all s.told) (told_all t.told)) }
    ensures aside { Open c.old.handle.host c.new.handle.host Aside }
    ensures none_came { Open c.old.handle.host c.new.handle.host (λ s t. NoneComes s.host t.host) }
    ensures lasts { Open c.old.handle.host c.new.handle.host (λ s t. Lasts None s.host t.host) }
{
    let Some(mut host) = c.take(alloc) else {
        return CLOSED;
    };
    let answer = host.move_slot(object(to), i, object(from), j);
    *c = Collector::of(host);
    match answer {
        Ok(()) => OK,
        Err(stop) => of_stop(stop),
    }
}
