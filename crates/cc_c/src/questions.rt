//! Questions of objects, and the program's numbers.
ghost use Rattle.std.specs.Prelude.{◌≡◌, ◌≢◌, ◌⊎◌, ◌↔◌, List, [], length, map, None};
ghost use Rattle.cc_names.specs.declared.name.Name.{Name};
ghost use Rattle.cc_model.specs.Answers.{Step, item_of_step};
ghost use Rattle.cc_model.specs.Derivations.{is_led_to, leads_in, path_to};
ghost use Rattle.cc_host.specs.Hosted.{IsRooted};
ghost use Rattle.cc_host.specs.Stops.{stop_at};
ghost use Rattle.cc_host.specs.Hosts.{data_at};
ghost use Rattle.cc_host.specs.Ways.{IsWay};
ghost use Rattle.cc_c.specs.Calls.{Open, Reads, Stays};
ghost use Rattle.cc_c.specs.Values.{IsStatus, IsStatusOrRefused, flag, to_object};

use crate::collector::Collector;
use crate::status::{CLOSED, OK, of_stop};
use crate::values::{CObject, flag, object};
use std::alloc::Global;

/// Whether an object is there, and of this collector: its status.
#[unsafe(no_mangle)]
#[tactic(auto, using(crate::proofs::Statuses::by_stop))]
pub extern "C" fn cc_is_there(alloc: Global, c: &mut Collector, x: &CObject) -> u32
    ensures closed { c.old.handle.host ≡ None → result ≡ 1 }
    ensures stops { Reads c.old.handle.host (λ s. IsStatus (stop_at s.host (to_object x.now)) result) }
    ensures same { c.new.handle.host ≡ c.old.handle.host }
{
    let Some(host) = c.take(alloc) else {
        return CLOSED;
    };
    // It is refused exactly where the object is not there.
    let answer = host.slots(object(x));
    *c = Collector::of(host);
    match answer {
        Ok(_) => OK,
        Err(stop) => of_stop(stop),
    }
}

/// How many natives there are.
#[unsafe(no_mangle)]
pub extern "C" fn cc_natives(alloc: Global, c: &mut Collector, natives: &mut u64) -> u32
    ensures closed { c.old.handle.host ≡ None → result ≡ 1 }
    ensures ok { Reads c.old.handle.host (λ s. result ≡ 0) }
    ensures count { result ≡ 0 → Reads c.old.handle.host (λ s. natives.new ≡ length s.host.heaps.heap.natives) }
    ensures left { result ≢ 0 → natives.new ≡ natives.old }
    ensures same { c.new.handle.host ≡ c.old.handle.host }
{
    let Some(host) = c.take(alloc) else {
        return CLOSED;
    };
    let answer = host.natives();
    *c = Collector::of(host);
    *natives = answer as u64;
    OK
}

/// How many script objects there are.
#[unsafe(no_mangle)]
pub extern "C" fn cc_scripts(alloc: Global, c: &mut Collector, scripts: &mut u64) -> u32
    ensures closed { c.old.handle.host ≡ None → result ≡ 1 }
    ensures ok { Reads c.old.handle.host (λ s. result ≡ 0) }
    ensures count { result ≡ 0 → Reads c.old.handle.host (λ s. scripts.new ≡ length s.host.heaps.heap.scripts) }
    ensures left { result ≢ 0 → scripts.new ≡ scripts.old }
    ensures same { c.new.handle.host ≡ c.old.handle.host }
{
    let Some(host) = c.take(alloc) else {
        return CLOSED;
    };
    let answer = host.scripts();
    *c = Collector::of(host);
    *scripts = answer as u64;
    OK
}

/// Whether a collection has natives to look at.
#[unsafe(no_mangle)]
pub extern "C" fn cc_has_suspects(alloc: Global, c: &mut Collector, some: &mut u32) -> u32
    ensures closed { c.old.handle.host ≡ None → result ≡ 1 }
    ensures ok { Reads c.old.handle.host (λ s. result ≡ 0) }
    ensures some { result ≡ 0 → some.new ≡ 1 → Reads c.old.handle.host (λ s. s.host.heaps.heap.buffer ≢ []) }
    ensures none { result ≡ 0 → some.new ≡ 0 → Reads c.old.handle.host (λ s. s.host.heaps.heap.buffer ≡ []) }
    ensures flag { result ≡ 0 → (some.new ≡ 0) ⊎ (some.new ≡ 1) }
    ensures left { result ≢ 0 → some.new ≡ some.old }
    ensures same { c.new.handle.host ≡ c.old.handle.host }
{
    let Some(host) = c.take(alloc) else {
        return CLOSED;
    };
    let answer = host.has_suspects();
    *c = Collector::of(host);
    *some = flag(answer);
    OK
}

/// Why an object is there: `led` is 1 exactly where a root reaches it. Then the steps by which roots lead to it are fetched by
/// `cc_next_step` from then on (`IsWay`); where nothing leads to it there is none. Those of an earlier answer are gone.
#[unsafe(no_mangle)]
#[tactic(auto, using(crate::proofs::Statuses::by_stop_or_refusal))]
pub extern "C" fn cc_why(alloc: Global, c: &mut Collector, x: &CObject, led: &mut u32) -> u32
    ensures stays { Stays c.old.handle.host c.new.handle.host result }
    ensures stops { Open c.old.handle.host c.new.handle.host (λ s t. IsStatusOrRefused (stop_at s.host (to_object x.now)) result) }
    ensures reached { result ≡ 0 → Open c.old.handle.host c.new.handle.host (λ s t. (led.new ≡ 1) ↔ IsRooted s.host (to_object x.now)) }
    ensures way { result ≡ 0 → led.new ≡ 1 → Open c.old.handle.host c.new.handle.host (λ s t. (steps : List Step)
        × (t.steps ≡ map item_of_step steps) × IsWay s.host.heaps.heap (to_object x.now).name steps) }
    ensures no_steps { result ≡ 0 → led.new ≡ 0 → Reads c.new.handle.host (λ t. t.steps ≡ []) }
    // which way it is, where there are several
    ensures led { result ≡ 0 → Open c.old.handle.host c.new.handle.host (λ s t. led.new
        ≡ flag (is_led_to (leads_in s.host.heaps.heap) (to_object x.now).name)) }
    ensures told { result ≡ 0 → Open c.old.handle.host c.new.handle.host (λ s t. t.steps
        ≡ map item_of_step (path_to (leads_in s.host.heaps.heap) (to_object x.now).name)) }
    ensures none { result ≢ 0 → Reads c.new.handle.host (λ t. t.steps ≡ []) }
    ensures left { result ≢ 0 → led.new ≡ led.old }
    ensures rest { Open c.old.handle.host c.new.handle.host (λ s t. t ≡ record s { steps = t.steps }) }
{
    let Some(mut host) = c.take(alloc) else {
        return CLOSED;
    };
    let answer = host.why(object(x));
    *c = Collector::of(host);
    match answer {
        Ok(b) => {
            *led = flag(b);
            OK
        }
        Err(stop) => of_stop(stop),
    }
}

/// The number that the program gave an object, 0 where it gave none.
#[unsafe(no_mangle)]
#[tactic(auto, using(crate::proofs::Statuses::by_stop))]
pub extern "C" fn cc_data(alloc: Global, c: &mut Collector, x: &CObject, value: &mut u64) -> u32
    ensures closed { c.old.handle.host ≡ None → result ≡ 1 }
    ensures stops { Reads c.old.handle.host (λ s. IsStatus (stop_at s.host (to_object x.now)) result) }
    ensures value { result ≡ 0 → Reads c.old.handle.host (λ s. value.new ≡ data_at s.books (to_object x.now).name) }
    ensures left { result ≢ 0 → value.new ≡ value.old }
    ensures same { c.new.handle.host ≡ c.old.handle.host }
{
    let Some(host) = c.take(alloc) else {
        return CLOSED;
    };
    let answer = host.data(object(x));
    *c = Collector::of(host);
    match answer {
        Ok(number) => {
            *value = number;
            OK
        }
        Err(stop) => of_stop(stop),
    }
}

/// Gives an object a number, an address say, that the program finds again by `cc_data`, and in what is told of it.
#[unsafe(no_mangle)]
#[tactic(auto, using(crate::proofs::Statuses::by_stop_or_refusal))]
pub extern "C" fn cc_set_data(alloc: Global, c: &mut Collector, x: &CObject, value: u64) -> u32
    ensures stays { Stays c.old.handle.host c.new.handle.host result }
    ensures stops { Open c.old.handle.host c.new.handle.host (λ s t. IsStatusOrRefused (stop_at s.host (to_object x.now)) result) }
    ensures given { result ≡ 0 → Open c.old.handle.host c.new.handle.host (λ s t. data_at t.books (to_object x.now).name ≡ value) }
    ensures others { Open c.old.handle.host c.new.handle.host (λ s t. (y : Name) → y ≢ (to_object x.now).name →
        data_at t.books y ≡ data_at s.books y) }
    ensures refused { result ≢ 0 → Open c.old.handle.host c.new.handle.host (λ s t. (y : Name) → data_at t.books y ≡ data_at s.books y) }
    ensures rest { Open c.old.handle.host c.new.handle.host (λ s t. t ≡ record s { books = record s.books { given = t.books.given } }) }
{
    let Some(mut host) = c.take(alloc) else {
        return CLOSED;
    };
    let answer = host.set_data(object(x), value);
    *c = Collector::of(host);
    match answer {
        Ok(()) => OK,
        Err(stop) => of_stop(stop),
    }
}
