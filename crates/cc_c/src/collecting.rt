//! Collections, whole and in slices, and script markings.
ghost use Rattle.std.specs.Prelude.{◌≡◌, ◌≢◌, ◌<◌, ◌⊎◌, ℕ, true, false, List, None, is_some};
ghost use Rattle.cc_names.specs.declared.name.Name.{Name};
ghost use Rattle.cc_model.specs.End.{at_end, refused};
ghost use Rattle.cc_collector.specs.Collected.{IsCollected, IsMarkedOn, IsSliced, IsSwept};
ghost use Rattle.cc_collector.specs.Settled.{HasWhatIsReached};
ghost use Rattle.cc_host.specs.Calls.{Always, Collects, Does, Forgets, NoneComes};
ghost use Rattle.cc_host.specs.Hosted.{machine};
ghost use Rattle.cc_host.specs.Lasting.{Lasts, TellsFreedOnce};
ghost use Rattle.cc_host.specs.Missing.{CannotMiss, IsOfAGraph, IsUsedWell, Takes, TakesBySlice, TakesGarbage, TellsUnlinked, WillTake, lost_in};
ghost use Rattle.cc_host.specs.Next.{FreesTheUnlinked};
ghost use Rattle.cc_host.specs.Queues.{told_all};
ghost use Rattle.cc_host.specs.Hosts.{Aside, IsUnfetched, Quiet};
ghost use Rattle.cc_c.specs.Calls.{Open, Reads, Stays};
ghost use Rattle.cc_c.specs.Values.{ended_in, flag, progress_in};

use crate::collector::Collector;
use crate::status::{CLOSED, OK, of_hindrance};
use crate::values::flag;
use cc_collector::Ended;
use std::alloc::Global;

/// A few units of the running collection, or of one that begins here where none runs. `over` is 1 where it came to its end. A script
/// marking that goes on is ended first.
#[unsafe(no_mangle)]
pub extern "C" fn cc_slice(alloc: Global, c: &mut Collector, units: u32, over: &mut u32) -> u32
    ensures stays { Stays c.old.handle.host c.new.handle.host result }
    ensures status { Reads c.old.handle.host (λ s. (result ≡ 0) ⊎ (result ≡ 8) ⊎ (result ≡ 11)) }
    ensures unfetched { result ≡ 11 → Open c.old.handle.host c.new.handle.host IsUnfetched }
    ensures flag { result ≡ 0 → (over.new ≡ 0) ⊎ (over.new ≡ 1) }
    ensures collects { result ≢ 11 → Open c.old.handle.host c.new.handle.host (λ s t. Collects s.host t.host (told_all s.told) (told_all t.told)) }
    ensures sliced { result ≢ 11 → Open c.old.handle.host c.new.handle.host (λ s t. (steps : ℕ)
        × IsSliced units (machine s.host) (machine t.host) (progress_in result over.new) 0 steps (told_all s.told) (told_all t.told)) }
    ensures ended { (result ≡ 8) ⊎ ((result ≡ 0) × (over.new ≡ 1)) → Open c.old.handle.host c.new.handle.host (λ s t. t.host.running ≡ None) }
    ensures unmarked { result ≢ 11 → Open c.old.handle.host c.new.handle.host (λ s t. t.host.marking ≡ false) }
    ensures left { result ≢ 0 → over.new ≡ over.old }
    ensures aside { Open c.old.handle.host c.new.handle.host Aside }
    // what the running collection can't miss is told unlinked at its end; what one can't miss that begins after `cc_gc`
    ensures takes { result ≢ 11 → Open c.old.handle.host c.new.handle.host (λ s t. (ds : List Name) → CannotMiss s.host ds →
        TakesBySlice ds t.host (progress_in result over.new) (told_all s.told) (told_all t.told)) }
    ensures begins { result ≢ 11 → Open c.old.handle.host c.new.handle.host (λ s t. 0 < units → IsOfAGraph s.host → TakesGarbage s.host →
        TakesBySlice (lost_in s.host) t.host (progress_in result over.new) (told_all s.told) (told_all t.told)) }
    // and what was lost at an earlier `cc_gc`
    ensures later { result ≢ 11 → Open c.old.handle.host c.new.handle.host (λ s t. 0 < units → (ds : List Name) → WillTake s.host ds →
        TakesBySlice ds t.host (progress_in result over.new) (told_all s.told) (told_all t.told)) }
    ensures lasts { Open c.old.handle.host c.new.handle.host (λ s t. Lasts None s.host t.host) }
    ensures freed_once { result ≢ 11 → Open c.old.handle.host c.new.handle.host (λ s t. TellsFreedOnce s.host t.host (told_all s.told) (told_all t.told)) }
{
    let Some(mut host) = c.take(alloc) else {
        return CLOSED;
    };
    let answer = host.slice(units);
    *c = Collector::of(host);
    match answer {
        Ok(Ended::Yes) => {
            *over = 1;
            OK
        }
        Ok(Ended::No) => {
            *over = 0;
            OK
        }
        Err(hindrance) => of_hindrance(hindrance),
    }
}

/// A whole collection; one that runs is ended first, and so is a script marking that goes on.
#[unsafe(no_mangle)]
pub extern "C" fn cc_collect(alloc: Global, c: &mut Collector) -> u32
    ensures stays { Stays c.old.handle.host c.new.handle.host result }
    ensures status { Reads c.old.handle.host (λ s. (result ≡ 0) ⊎ (result ≡ 8) ⊎ (result ≡ 11)) }
    ensures unfetched { result ≡ 11 → Open c.old.handle.host c.new.handle.host IsUnfetched }
    ensures collects { result ≢ 11 → Open c.old.handle.host c.new.handle.host (λ s t. Collects s.host t.host (told_all s.told) (told_all t.told)) }
    ensures done { result ≡ 0 → Open c.old.handle.host c.new.handle.host
        (λ s t. IsCollected (machine s.host) (machine t.host) at_end (told_all s.told) (told_all t.told)) }
    ensures refused { result ≡ 8 → Open c.old.handle.host c.new.handle.host
        (λ s t. IsCollected (machine s.host) (machine t.host) refused (told_all s.told) (told_all t.told)) }
    ensures over { result ≢ 11 → Open c.old.handle.host c.new.handle.host (λ s t. t.host.running ≡ None) }
    ensures unmarked { result ≢ 11 → Open c.old.handle.host c.new.handle.host (λ s t. t.host.marking ≡ false) }
    ensures aside { Open c.old.handle.host c.new.handle.host Aside }
    ensures takes { result ≢ 11 → Open c.old.handle.host c.new.handle.host (λ s t. (ds : List Name) → CannotMiss s.host ds
        → Takes ds (told_all s.told) (told_all t.told)) }
    ensures takes_if_done { result ≡ 0 → Open c.old.handle.host c.new.handle.host (λ s t. (ds : List Name) → CannotMiss s.host ds
        → TellsUnlinked ds (told_all s.told) (told_all t.told)) }
    ensures begins { result ≡ 0 → Open c.old.handle.host c.new.handle.host (λ s t. IsOfAGraph s.host → TakesGarbage s.host
        → TellsUnlinked (lost_in s.host) (told_all s.told) (told_all t.told)) }
    ensures later { result ≡ 0 → Open c.old.handle.host c.new.handle.host (λ s t. (ds : List Name) → WillTake s.host ds
        → TellsUnlinked ds (told_all s.told) (told_all t.told)) }
    ensures lasts { Open c.old.handle.host c.new.handle.host (λ s t. Lasts None s.host t.host) }
    ensures freed_once { result ≢ 11 → Open c.old.handle.host c.new.handle.host (λ s t. TellsFreedOnce s.host t.host (told_all s.told) (told_all t.told)) }
{
    let Some(mut host) = c.take(alloc) else {
        return CLOSED;
    };
    let answer = host.collect();
    *c = Collector::of(host);
    match answer {
        Ok(()) => OK,
        Err(hindrance) => of_hindrance(hindrance),
    }
}

/// A script collection, before which a script marking that goes on is dropped and a collection that runs is ended.
#[unsafe(no_mangle)]
pub extern "C" fn cc_gc(alloc: Global, c: &mut Collector) -> u32
    ensures stays { Stays c.old.handle.host c.new.handle.host result }
    ensures status { Reads c.old.handle.host (λ s. (result ≡ 0) ⊎ (result ≡ 11)) }
    ensures unfetched { result ≡ 11 → Open c.old.handle.host c.new.handle.host IsUnfetched }
    ensures collects { result ≡ 0 → Open c.old.handle.host c.new.handle.host (λ s t. Collects s.host t.host (told_all s.told) (told_all t.told)) }
    ensures swept { result ≡ 0 → Open c.old.handle.host c.new.handle.host
        (λ s t. IsSwept (machine s.host) (machine t.host) (told_all s.told) (told_all t.told)) }
    ensures over { result ≡ 0 → Open c.old.handle.host c.new.handle.host (λ s t. t.host.running ≡ None) }
    ensures unmarked { result ≡ 0 → Open c.old.handle.host c.new.handle.host (λ s t. t.host.marking ≡ false) }
    ensures aside { Open c.old.handle.host c.new.handle.host Aside }
    ensures takes { result ≡ 0 → Open c.old.handle.host c.new.handle.host (λ s t. (ds : List Name) → CannotMiss s.host ds
        → Takes ds (told_all s.told) (told_all t.told)) }
    ensures garbage { result ≡ 0 → Open c.old.handle.host c.new.handle.host (λ s t. TakesGarbage t.host) }
    // what nothing reaches then can't be missed by a collection that begins later, where the calls between are handed what is reached
    ensures lost { result ≡ 0 → Open c.old.handle.host c.new.handle.host (λ s t. IsOfAGraph s.host → WillTake t.host (lost_in t.host)) }
    // what was unlinked before is gone, and what led to it
    ensures frees { result ≡ 0 → Open c.old.handle.host c.new.handle.host (λ s t. IsUsedWell s.host
        → FreesTheUnlinked s.host.heaps.heap t.host.heaps.heap) }
    ensures lasts { Open c.old.handle.host c.new.handle.host (λ s t. Lasts None s.host t.host) }
    ensures freed_once { result ≡ 0 → Open c.old.handle.host c.new.handle.host (λ s t. TellsFreedOnce s.host t.host (told_all s.told) (told_all t.told)) }
{
    let Some(mut host) = c.take(alloc) else {
        return CLOSED;
    };
    let answer = host.gc();
    *c = Collector::of(host);
    match answer {
        Ok(()) => OK,
        Err(hindrance) => of_hindrance(hindrance),
    }
}

/// A few units of the script marking that goes on, or of one that begins here where none does. `over` is 1 where it came to its end. A
/// collection that runs is ended first.
#[unsafe(no_mangle)]
pub extern "C" fn cc_mark(alloc: Global, c: &mut Collector, units: u32, over: &mut u32) -> u32
    ensures stays { Stays c.old.handle.host c.new.handle.host result }
    ensures status { Reads c.old.handle.host (λ s. (result ≡ 0) ⊎ (result ≡ 11)) }
    ensures unfetched { result ≡ 11 → Open c.old.handle.host c.new.handle.host IsUnfetched }
    ensures flag { result ≡ 0 → (over.new ≡ 0) ⊎ (over.new ≡ 1) }
    ensures collects { result ≡ 0 → Open c.old.handle.host c.new.handle.host (λ s t. Collects s.host t.host (told_all s.told) (told_all t.told)) }
    ensures marked { result ≡ 0 → Open c.old.handle.host c.new.handle.host (λ s t. (steps : ℕ) ×
        IsMarkedOn units (machine s.host) (machine t.host) (ended_in over.new) 0 steps (told_all s.told) (told_all t.told)) }
    ensures idle { result ≡ 0 → Open c.old.handle.host c.new.handle.host (λ s t. t.host.running ≡ None) }
    ensures ended { result ≡ 0 → over.new ≡ 1 → Open c.old.handle.host c.new.handle.host (λ s t. t.host.marking ≡ false) }
    ensures goes_on { result ≡ 0 → over.new ≡ 0 → 0 < units → Open c.old.handle.host c.new.handle.host (λ s t. t.host.marking ≡ true) }
    ensures left { result ≢ 0 → over.new ≡ over.old }
    ensures aside { Open c.old.handle.host c.new.handle.host Aside }
    ensures takes { result ≡ 0 → Open c.old.handle.host c.new.handle.host (λ s t. (ds : List Name) →
        CannotMiss s.host ds → Takes ds (told_all s.told) (told_all t.told)) }
    ensures lasts { Open c.old.handle.host c.new.handle.host (λ s t. Lasts None s.host t.host) }
    ensures freed_once { result ≡ 0 → Open c.old.handle.host c.new.handle.host (λ s t. TellsFreedOnce s.host t.host (told_all s.told) (told_all t.told)) }
{
    let Some(mut host) = c.take(alloc) else {
        return CLOSED;
    };
    let answer = host.mark(units);
    *c = Collector::of(host);
    match answer {
        Ok(Ended::Yes) => {
            *over = 1;
            OK
        }
        Ok(Ended::No) => {
            *over = 0;
            OK
        }
        Err(hindrance) => of_hindrance(hindrance),
    }
}

/// Leaves exactly what the roots reach.
#[unsafe(no_mangle)]
pub extern "C" fn cc_settle(alloc: Global, c: &mut Collector) -> u32
    ensures stays { Stays c.old.handle.host c.new.handle.host result }
    ensures status { Reads c.old.handle.host (λ s. (result ≡ 0) ⊎ (result ≡ 8) ⊎ (result ≡ 11)) }
    ensures unfetched { result ≡ 11 → Open c.old.handle.host c.new.handle.host IsUnfetched }
    ensures exact { result ≡ 0 → Open c.old.handle.host c.new.handle.host (λ s t. HasWhatIsReached t.host.heaps.heap) }
    ensures collects { result ≢ 11 → Open c.old.handle.host c.new.handle.host (λ s t. Collects s.host t.host (told_all s.told) (told_all t.told)) }
    ensures over { result ≢ 11 → Open c.old.handle.host c.new.handle.host (λ s t. t.host.running ≡ None) }
    ensures unmarked { result ≢ 11 → Open c.old.handle.host c.new.handle.host (λ s t. t.host.marking ≡ false) }
    ensures aside { Open c.old.handle.host c.new.handle.host Aside }
    ensures takes { result ≢ 11 → Open c.old.handle.host c.new.handle.host (λ s t. (ds : List Name) → CannotMiss s.host ds
        → Takes ds (told_all s.told) (told_all t.told)) }
    ensures lasts { Open c.old.handle.host c.new.handle.host (λ s t. Lasts None s.host t.host) }
    ensures freed_once { result ≢ 11 → Open c.old.handle.host c.new.handle.host (λ s t. TellsFreedOnce s.host t.host (told_all s.told) (told_all t.told)) }
{
    let Some(mut host) = c.take(alloc) else {
        return CLOSED;
    };
    let answer = host.settle();
    *c = Collector::of(host);
    match answer {
        Ok(()) => OK,
        Err(hindrance) => of_hindrance(hindrance),
    }
}

/// Suspects that are alive are forgotten. `marks` is how many there were.
#[unsafe(no_mangle)]
pub extern "C" fn cc_forget(alloc: Global, c: &mut Collector, marks: &mut u32) -> u32
    ensures stays { Stays c.old.handle.host c.new.handle.host result }
    ensures ok { Reads c.old.handle.host (λ s. result ≡ 0) }
    ensures does { Open c.old.handle.host c.new.handle.host (λ s t. Does Always (λ g. g) s.host t.host) }
    ensures forgets { Open c.old.handle.host c.new.handle.host (λ s t. Forgets s.host t.host marks.new) }
    ensures left { result ≢ 0 → marks.new ≡ marks.old }
    ensures quiet { Open c.old.handle.host c.new.handle.host Quiet }
    ensures none_came { Open c.old.handle.host c.new.handle.host (λ s t. NoneComes s.host t.host) }
    ensures lasts { Open c.old.handle.host c.new.handle.host (λ s t. Lasts None s.host t.host) }
{
    let Some(mut host) = c.take(alloc) else {
        return CLOSED;
    };
    let answer = host.forget();
    *c = Collector::of(host);
    *marks = answer;
    OK
}

/// Whether a collection runs.
#[unsafe(no_mangle)]
pub extern "C" fn cc_running(alloc: Global, c: &mut Collector, running: &mut u32) -> u32
    ensures closed { c.old.handle.host ≡ None → result ≡ 1 }
    ensures ok { Reads c.old.handle.host (λ s. result ≡ 0) }
    ensures runs { result ≡ 0 → Reads c.old.handle.host (λ s. running.new ≡ flag (is_some s.host.running)) }
    ensures left { result ≢ 0 → running.new ≡ running.old }
    ensures same { c.new.handle.host ≡ c.old.handle.host }
{
    let Some(host) = c.take(alloc) else {
        return CLOSED;
    };
    let answer = host.running();
    *c = Collector::of(host);
    *running = flag(answer);
    OK
}

/// Whether a script marking goes on.
#[unsafe(no_mangle)]
pub extern "C" fn cc_marking(alloc: Global, c: &mut Collector, marking: &mut u32) -> u32
    ensures closed { c.old.handle.host ≡ None → result ≡ 1 }
    ensures ok { Reads c.old.handle.host (λ s. result ≡ 0) }
    ensures goes_on { result ≡ 0 → Reads c.old.handle.host (λ s. marking.new ≡ flag s.host.marking) }
    ensures left { result ≢ 0 → marking.new ≡ marking.old }
    ensures same { c.new.handle.host ≡ c.old.handle.host }
{
    let Some(host) = c.take(alloc) else {
        return CLOSED;
    };
    let answer = host.marking();
    *c = Collector::of(host);
    *marking = flag(answer);
    OK
}
