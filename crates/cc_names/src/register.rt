//! The registers, and their texts.

ghost use Rattle.std.specs.Prelude.{◌≡◌, ◌+◌, ◌≤◌, ◌++◌, length};
ghost use Rattle.cc_names.specs.Names.{text_of_register};

use crate::line::LineBuf;
use crate::sizes::{RegNo, WeakNo};
use itoa::Buffer;

/// A register: `n0`, `n1` and so on hold natives, `s0`, `s1` and so on hold script objects. These are the roots. Commands
/// name those up to 1023. `w0` to `w255` note natives and keep none: wherever a root is read they read as empty.
#[derive(Clone, Copy, Debug, PartialEq, Eq, Drop)]
pub enum Reg {
    /// A native register.
    N(RegNo),
    /// A script register.
    S(RegNo),
    /// A weak register, which is no root.
    W(WeakNo),
}

/// Appends the text of a register: `n`, `s` or `w`, then its number in its bank in decimal. It has at most 11 bytes, which must
/// be free.
pub fn write_register(register: Reg, out: &mut LineBuf)
    requires { length out.old + 11 ≤ 128 }
    ensures text { out.new ≡ out.old ++ text_of_register register }
    ensures short { length out.new ≤ length out.old + 11 }
{
    let (letter, number) = match register {
        Reg::N(k) => (b"n", k),
        Reg::S(k) => (b"s", k),
        Reg::W(k) => (b"w", k as RegNo),
    };
    out.push(letter);
    out.push(Buffer::new().format(number).as_bytes());
}
