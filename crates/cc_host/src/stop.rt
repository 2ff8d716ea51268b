//! Why a host did not do what was asked.
ghost use Rattle.std.specs.Prelude.{◌≡◌};
ghost use Rattle.cc_host.specs.Stops.{stop_of_making, out_of_memory};

use cc_heaps::MakeStop;
use cc_names::NoMemory;
use thiserror::Error;

/// Why a host did not do what was asked. Nothing changed; but at want of memory in `wrap`, `set_entry` and `new_proxy`, and at
/// `Full` in the last, an object may have been exposed, or have become a suspect. The graph is as it was then too. The calls that make
/// an object may have taken room for what can be told of it.
///
/// The objects of a call are tried in the order in which they are handed in, each for the first three; then the indexes,
/// then the limit, then memory; but where an object is made memory may be wanted before the limit is tried. What is no object (its
/// name has the number 0) is of the wrong kind before it is of another host.
#[derive(Clone, Copy, Debug, PartialEq, Eq, Drop, Error)]
pub enum Stop {
    /// An object is of another host.
    #[error("an object is of another host")]
    Foreign,
    /// An object of this host is not there: it was freed, or it is a native that was unlinked, or there never was one.
    #[error("an object is gone")]
    Gone,
    /// An object is of the wrong kind; or no object is handed in: its name has the number 0, which no object ever has.
    #[error("an object is of the wrong kind")]
    Kind,
    /// An index is not below the number of roots, or of an object's slots; or a number of slots is above 256, or a limit of a new host above
    /// 1 000 000.
    #[error("there is no such root or slot")]
    Index,
    /// As many objects as the limit were ever made; or no place or no serial number is left for a root, or no mark for a new host.
    #[error("no more may be made")]
    Full,
    /// Want of memory.
    #[error("out of memory")]
    NoMemory,
}

impl From<NoMemory> for Stop {
    ghost from_gives = { λ _ e. e ≡ out_of_memory };

    fn from(_error: NoMemory) -> Stop {
        Stop::NoMemory
    }
}

impl From<MakeStop> for Stop {
    ghost from_gives = { λ stop e. e ≡ stop_of_making stop };

    fn from(stop: MakeStop) -> Stop {
        match stop {
            MakeStop::Full => Stop::Full,
            MakeStop::NoMemory => Stop::NoMemory,
        }
    }
}
