//! A collector opened and closed.
ghost use Rattle.std.specs.Prelude.{◌≡◌, ◌≢◌, ◌⊎◌, ◌<◌, ◌≤◌, IsSome, IfSome, None};
ghost use Rattle.cc_host.specs.Hosts.{IsNew};

use crate::collector::Collector;
use crate::status::{LIMIT, NO_MEMORY, OK, OPEN};
use cc_host::{Host, Stop};
use std::alloc::Global;

/// Opens a collector without objects, whose roots hold nothing; as many natives, and as many script objects, may ever be made as
/// the limits say. Its objects and roots have this mark. C calls it by way of `cc_open`, which draws a mark that none had before.
#[unsafe(no_mangle)]
pub extern "C" fn cc_open_with_mark(
    alloc: Global,
    c: &mut Collector,
    mark: u64,
    natives: u32,
    scripts: u32,
) -> u32
    ensures open { IsSome c.old.handle.host → result ≡ 2 }
    ensures limit { c.old.handle.host ≡ None → (1000000 < natives) ⊎ (1000000 < scripts) → result ≡ 9 }
    ensures opens { c.old.handle.host ≡ None → natives ≤ 1000000 → scripts ≤ 1000000 → (result ≡ 0) ⊎ (result ≡ 8) }
    ensures opened { result ≡ 0 → IsSome c.new.handle.host }
    ensures made { result ≡ 0 → IfSome c.new.handle.host (IsNew mark natives scripts) }
    ensures same { result ≢ 0 → c.new.handle.host ≡ c.old.handle.host }
{
    if c.is_open() {
        return OPEN;
    }
    let host = match Host::with_mark(alloc, natives, scripts, mark) {
        Ok(host) => host,
        Err(Stop::Index) => return LIMIT,
        Err(_) => return NO_MEMORY,
    };
    match Box::new(alloc, host) {
        Ok(host) => {
            *c = Collector::of(host);
            OK
        }
        Err(_) => NO_MEMORY,
    }
}

/// Closes a collector, and frees all that it has; nothing is told. A closed one stays closed.
#[unsafe(no_mangle)]
pub extern "C" fn cc_close(alloc: Global, c: &mut Collector)
    ensures { c.new.handle.host ≡ None }
{
    let _host = c.take(alloc);
}
