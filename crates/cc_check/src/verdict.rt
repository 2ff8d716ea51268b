//! What a check comes to.

ghost use Rattle.std.specs.Prelude.{◌≡◌};
ghost use Rattle.cc_check.specs.Stops.{out_of_memory, stop_of};

use cc_names::NoMemory;
use cc_reader::ReadStop;
use thiserror::Error;

/// Whether a transcript is lawful.
#[derive(Clone, Copy, Debug, PartialEq, Eq, Drop)]
pub enum Verdict {
    /// It is exactly the text of answers that are lawful and quiet.
    Lawful,
    /// It is not.
    Unlawful,
}

/// Why there is no verdict.
#[derive(Clone, Copy, Debug, PartialEq, Eq, Drop, Error)]
pub enum CheckStop {
    /// A read failed.
    #[error("read failed")]
    Fault,
    /// Script and transcript together have more bytes than may be read.
    #[error("input over the byte limit")]
    Limit,
    /// There was no memory to check on.
    #[error("out of memory")]
    NoMemory,
}

impl From<ReadStop> for CheckStop {
    ghost from_gives = { λ stop e. e ≡ stop_of stop };

    fn from(stop: ReadStop) -> CheckStop {
        match stop {
            ReadStop::Fault => CheckStop::Fault,
            ReadStop::Limit => CheckStop::Limit,
        }
    }
}

impl From<NoMemory> for CheckStop {
    ghost from_gives = { λ _ e. e ≡ out_of_memory };

    fn from(_error: NoMemory) -> CheckStop {
        CheckStop::NoMemory
    }
}
