//! The two banks of registers that are roots. Weak registers are none.
ghost use Rattle.std.specs.Prelude.{◌≡◌};
ghost use Rattle.cc_search.specs.Banks.{reg_in};

use cc_names::{Reg, RegNo};

/// A bank of registers.
#[derive(Clone, Copy, Debug, PartialEq, Eq, Drop)]
pub enum Bank {
    /// The native registers.
    Natives,
    /// The script registers.
    Scripts,
}

impl Bank {
    /// A register of it.
    pub fn register(self, r: RegNo) -> Reg
        ensures { result ≡ reg_in self r }
    {
        match self {
            Bank::Natives => Reg::N(r),
            Bank::Scripts => Reg::S(r),
        }
    }
}
