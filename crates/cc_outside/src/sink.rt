//! Where bytes go.

ghost use Rattle.std.specs.Prelude.{◌≡◌, ◌<◌, ℕ, List, length, take, IfOk, OnErr};
ghost use Rattle.std.specs.Io.{WritesAtMost};
ghost use Rattle.std.specs.Io.KnownBytes.{Appends, Keeps};
ghost use Rattle.std.specs.declared.option.Option.{Option};
ghost use Rattle.cc_lists.specs.Faults.{HasCause};
ghost use Rattle.cc_outside.specs.Writes.{Writes, writes_after};

use crate::failed::Failed;

/// Where bytes go.
pub trait Sink {
    /// The bytes written so far, in order, where the sink tells them.
    ghost written: { Self → Option (List ℕ) };

    /// How many writes failed. A count of 18446744073709551615 stays.
    ghost faults: { Self → ℕ };

    /// How many writes were answered, and whether the last one failed. A count of 18446744073709551615 stays.
    ghost writes: { Self → Writes };

    /// Writes the front of `bytes`, and says how many: of a piece that is not empty at least one byte.
    ///
    /// `Failed` where the write failed: a sink that tells its bytes has taken none then.
    fn write(&mut self, bytes: &[u8]) -> Result<usize, Failed>
        ensures bound { WritesAtMost result bytes.now }
        ensures more { IfOk result (λ m. 0 < length bytes.now → 0 < m) }
        ensures bytes { IfOk result (λ m. Appends (written self.old) (written self.new) (take m bytes.now)) }
        ensures unwritten { OnErr result (Keeps (written self.old) (written self.new)) }
        ensures cause { HasCause (faults self.old) (faults self.new) result }
        ensures counted { writes self.new ≡ writes_after (writes self.old) result };
}
