//! The limits of a run: how many objects may be made, and how many bytes read.

ghost use Rattle.std.specs.Prelude.{◌≡◌, ◌≤◌};

use std::marker::Model;

/// How many objects may ever be made, and how many bytes may be read.
#[derive(Clone, Copy, Debug, PartialEq, Eq, Drop)]
pub struct Limits {
    natives: u32,
    scripts: u32,
    bytes: u32,
}

impl Model for Limits {
    ghost use Rattle.std.specs.Prelude.{◌≤◌};
    ghost use Rattle.cc_names.specs.Allowance.{Allowance};

    ghost Value = { Allowance };

    ghost view = { λ l. record { natives = l.natives; scripts = l.scripts; bytes = l.bytes } };

    ghost invariant = { λ l. (l.natives ≤ 1000000) × (l.scripts ≤ 1000000) };

    ghost inverse = { λ a. record { natives = a.natives; scripts = a.scripts; bytes = a.bytes } };
}

impl Limits {
    /// The most natives, and the most plain objects, weak maps and proxies, that limits allow to be made.
    pub const MOST: u32 = 1_000_000;

    /// At most `natives` natives and `scripts` plain objects, weak maps and proxies may ever be made, each number 0 to
    /// 1000000, and at most `bytes` bytes read. Reflectors are not counted.
    pub fn new(natives: u32, scripts: u32, bytes: u32) -> Limits
        requires natives { natives ≤ 1000000 }
        requires scripts { scripts ≤ 1000000 }
        ensures natives { result.natives ≡ natives }
        ensures scripts { result.scripts ≡ scripts }
        ensures bytes { result.bytes ≡ bytes }
    {
        Limits {
            natives,
            scripts,
            bytes,
        }
    }

    /// The widest limits: 1000000 natives, 1000000 plain objects, weak maps and proxies, and 4294967295 bytes.
    pub fn widest() -> Limits
        ensures natives { result.natives ≡ 1000000 }
        ensures scripts { result.scripts ≡ 1000000 }
        ensures bytes { result.bytes ≡ 4294967295 }
    {
        Limits::new(Limits::MOST, Limits::MOST, u32::MAX)
    }

    /// The most natives that may ever be made.
    pub fn natives(self) -> u32
        ensures same { result ≡ self.natives }
        ensures within { result ≤ 1000000 }
    {
        self.natives
    }

    /// The most plain objects, weak maps and proxies that may ever be made.
    pub fn scripts(self) -> u32
        ensures same { result ≡ self.scripts }
        ensures within { result ≤ 1000000 }
    {
        self.scripts
    }

    /// The most bytes that may be read.
    pub fn bytes(self) -> u32
        ensures same { result ≡ self.bytes }
    {
        self.bytes
    }
}
