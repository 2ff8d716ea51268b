//! What was told.
ghost use Rattle.std.specs.Prelude.{◌≡◌, ◌≢◌, ◌⊎◌, [], None};
ghost use Rattle.cc_c.specs.Calls.{Open, Reads, Stays};
ghost use Rattle.cc_c.specs.Telling.{FetchesStep, FetchesTold};

use crate::collector::Collector;
use crate::showing::{next_step, next_told};
use crate::status::{CLOSED, NONE, OK};
use crate::values::{CStep, CTold};
use std::alloc::Global;

/// The first item that was told and not fetched yet, which is fetched then.
#[unsafe(no_mangle)]
pub extern "C" fn cc_next_told(alloc: Global, c: &mut Collector, told: &mut CTold) -> u32
    ensures stays { Stays c.old.handle.host c.new.handle.host result }
    ensures status { Reads c.old.handle.host (λ s. (result ≡ 0) ⊎ (result ≡ 10)) }
    ensures next { result ≡ 0 → Open c.old.handle.host c.new.handle.host (λ s t. FetchesTold s t told.new) }
    ensures none { result ≡ 10 → Reads c.old.handle.host (λ s. s.told ≡ []) }
    ensures same { result ≢ 0 → c.new.handle.host ≡ c.old.handle.host }
    ensures left { result ≢ 0 → told.new ≡ told.old }
{
    let Some(mut host) = c.take(alloc) else {
        return CLOSED;
    };
    let answer = next_told(&mut host);
    *c = Collector::of(host);
    match answer {
        Some(item) => {
            *told = item;
            OK
        }
        None => NONE,
    }
}

/// The next step of the last answer to `cc_why`, which is fetched then.
#[unsafe(no_mangle)]
pub extern "C" fn cc_next_step(alloc: Global, c: &mut Collector, step: &mut CStep) -> u32
    ensures stays { Stays c.old.handle.host c.new.handle.host result }
    ensures status { Reads c.old.handle.host (λ s. (result ≡ 0) ⊎ (result ≡ 10)) }
    ensures next { result ≡ 0 → Open c.old.handle.host c.new.handle.host (λ s t. FetchesStep s t step.new) }
    ensures none { result ≡ 10 → Reads c.old.handle.host (λ s. s.steps ≡ []) }
    ensures same { result ≢ 0 → c.new.handle.host ≡ c.old.handle.host }
    ensures left { result ≢ 0 → step.new ≡ step.old }
{
    let Some(mut host) = c.take(alloc) else {
        return CLOSED;
    };
    let answer = next_step(&mut host);
    *c = Collector::of(host);
    match answer {
        Some(item) => {
            *step = item;
            OK
        }
        None => NONE,
    }
}
