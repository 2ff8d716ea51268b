//! Where bytes come from.

ghost use Rattle.std.specs.Prelude.{◌≡◌, ◌<◌, ℕ, List, length, take, IfOk, OnErr};
ghost use Rattle.std.specs.Io.{ReadsAtMost};
ghost use Rattle.std.specs.Io.KnownBytes.{Consumes, IsAtEnd, Keeps};
ghost use Rattle.std.specs.declared.option.Option.{Option};
ghost use Rattle.cc_lists.specs.Faults.{HasCause};
ghost use Rattle.cc_outside.specs.Reads.{Reads, reads_after};

use crate::failed::Failed;

/// Where bytes come from.
pub trait Source {
    /// The bytes not yet read, in order, where the source tells them.
    ghost left: { Self → Option (List ℕ) };

    /// How many reads failed. A count of 18446744073709551615 stays.
    ghost faults: { Self → ℕ };

    /// How many reads were answered, how many of them gave no byte, and how many of those said the end: 0 in a buffer
    /// that is not empty. Each count stays at 18446744073709551615.
    ghost reads: { Self → Reads };

    /// Reads into the front of `buf`, and says how many bytes. What stands behind them is not said.
    ///
    /// 0 in a buffer that is not empty is the end of the input. `Failed` where the read failed.
    fn read(&mut self, buf: &mut [u8]) -> Result<usize, Failed>
        ensures bound { ReadsAtMost result buf.new }
        ensures bytes { IfOk result (λ m. Consumes (left self.old) (left self.new) (take m buf.new)) }
        ensures end { IfOk result (λ m. m ≡ 0 → 0 < length buf.new → IsAtEnd (left self.new)) }
        ensures unread { OnErr result (Keeps (left self.old) (left self.new)) }
        ensures cause { HasCause (faults self.old) (faults self.new) result }
        ensures counted { reads self.new ≡ reads_after (reads self.old) (length buf.new) result };
}
