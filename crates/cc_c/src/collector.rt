//! What C holds of a collector.
ghost use Rattle.std.specs.Prelude.{◌≡◌, ◌↔◌, None, Some, IsSome, IsTrue, option_map};

use crate::handle::Handle;
use cc_host::Host;
use cc_host::loose::Loose;
use std::alloc::Global;
use std::mem;

/// What C holds of a collector. All bytes zero: it is closed.
#[repr(C)]
#[derive(Drop)]
pub struct Collector {
    state: u64,
    pub handle: Handle,
    ghost tied: { (state ≡ 1) ↔ IsSome handle.host },
}

impl Collector {
    /// A closed one.
    pub fn closed() -> Collector
        ensures { result.handle.host ≡ None }
    {
        Collector {
            state: 0,
            handle: Handle::closed(),
        }
    }

    /// One that is open, with this host.
    pub fn of(host: Box<Host, Global>) -> Collector
        ensures { result.handle.host ≡ Some host.value }
    {
        Collector {
            state: 1,
            handle: Handle::of(Loose::of(host)),
        }
    }

    /// Whether it is open.
    pub fn is_open(&self) -> bool
        ensures { IsTrue result ↔ IsSome self.now.handle.host }
    {
        self.state == 1
    }

    // The host of an open one.
    fn into_box(self, alloc: Global) -> Option<Box<Host, Global>>
        ensures { option_map (λ b. b.value) result ≡ self.handle.host }
    {
        let Collector { state, handle } = self;
        if state != 1 {
            return None;
        }
        Some(handle.into_loose(alloc).into_box())
    }

    /// The host of an open one, which is closed then.
    pub fn take(&mut self, alloc: Global) -> Option<Box<Host, Global>>
        ensures taken { option_map (λ b. b.value) result ≡ self.old.handle.host }
        ensures closed { self.new.handle.host ≡ None }
    {
        mem::replace(self, Collector::closed()).into_box(alloc)
    }
}
