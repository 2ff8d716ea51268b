//! The numbers by which calls answer.
ghost use Rattle.std.specs.Prelude.{◌≡◌, ◌≢◌};
ghost use Rattle.cc_c.specs.Values.{status_of, status_of_hindrance};

use cc_host::{Hindrance, Stop};

pub const OK: u32 = 0;

pub const CLOSED: u32 = 1;

pub const OPEN: u32 = 2;

pub const FOREIGN: u32 = 3;

pub const GONE: u32 = 4;

pub const KIND: u32 = 5;

pub const INDEX: u32 = 6;

pub const FULL: u32 = 7;

pub const NO_MEMORY: u32 = 8;

pub const LIMIT: u32 = 9;

pub const NONE: u32 = 10;

pub const UNFETCHED: u32 = 11;

/// The number of a stop.
pub fn of_stop(stop: Stop) -> u32
    ensures number { result ≡ status_of stop }
    ensures some { result ≢ 0 }
{
    match stop {
        Stop::Foreign => FOREIGN,
        Stop::Gone => GONE,
        Stop::Kind => KIND,
        Stop::Index => INDEX,
        Stop::Full => FULL,
        Stop::NoMemory => NO_MEMORY,
    }
}

/// The number of what hindered a collection.
pub fn of_hindrance(hindrance: Hindrance) -> u32
    ensures { result ≡ status_of_hindrance hindrance }
{
    match hindrance {
        Hindrance::NoMemory => NO_MEMORY,
        Hindrance::Unfetched => UNFETCHED,
    }
}
