//! A host's box as C holds it.
ghost use Rattle.std.specs.Prelude.{◌≡◌, Option, None, Some, IsSome};
ghost use Rattle.cc_host.specs.Hosts.{State};

use cc_host::Host;
use cc_host::loose::Loose;
use std::alloc::Global;
use std::marker::Model;

/// The pointer of a host's box, or nothing.
#[repr(C)]
#[derive(Drop)]
pub struct Handle {
    at: *mut u8,
    pub ghost host: { Option State },
}

impl Model for Handle {
    ghost use Rattle.cc_c.specs.Own.{opened};

    ghost also_owns = { λ h. opened h.at h.host };
}

impl Handle {
    /// Nothing.
    pub fn closed() -> Handle
        ensures { result.host ≡ None }
    {
        Handle {
            at: std::ptr::null_mut(),
        }
    }

    /// A host's box.
    pub fn of(host: Loose<Host, Global>) -> Handle
        ensures { result.host ≡ Some host.value }
    {
        let Loose { at, alloc: _ } = host;
        Handle { at: at as *mut u8 }
    }

    /// The box again.
    pub fn into_loose(self, alloc: Global) -> Loose<Host, Global>
        requires { IsSome self.host }
        ensures { Some result.value ≡ self.host }
    {
        let Handle { at } = self;
        Loose {
            at: at as *mut Host,
            alloc,
        }
    }
}
