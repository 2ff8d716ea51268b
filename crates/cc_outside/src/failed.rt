//! The error of a read and of a write.

ghost use Rattle.std.specs.Prelude.{◌≡◌};
ghost use Rattle.cc_outside.specs.Counted.{raised};

use thiserror::Error;

/// A read or a write failed, and the count of faults rose. A source has given no byte then, and a sink that tells its
/// bytes has taken none; one that does not tell them may have handed on a front of the piece.
#[derive(Clone, Copy, Debug, PartialEq, Eq, Drop, Error)]
#[error("a read or a write failed")]
pub struct Failed;

impl Failed {
    /// The error of a call, which is counted in `faults`.
    pub(crate) fn counted(faults: &mut u64) -> Failed
        ensures { faults.new ≡ raised faults.old 1 }
    {
        *faults = faults.saturating_add(1);
        Failed
    }
}
