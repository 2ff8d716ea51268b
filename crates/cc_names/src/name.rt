//! The names of objects, their order and their texts.

ghost use Rattle.std.specs.Prelude.{◌≡◌, ◌+◌, ◌≤◌, ◌++◌, length};
ghost use Rattle.cc_names.specs.Names.{text_of_name};

use crate::line::LineBuf;
use crate::number::{NativeNo, ScriptNo};
use itoa::Buffer;

/// The name of an object. Natives come first, then plain objects, weak maps and proxies, then reflectors, each by number.
#[derive(Clone, Copy, Debug, PartialEq, Eq, PartialOrd, Ord, Drop)]
pub enum Name {
    /// `#k`
    Native(NativeNo),
    /// `@k`, a plain script object, a weak map or a proxy
    Script(ScriptNo),
    /// `~k`, the reflector of native `#k`
    Reflector(NativeNo),
}

/// Appends the text of a name: `#`, `@` or `~`, then the number in decimal. It has at most 11 bytes, which must be free.
pub fn write_name(name: &Name, out: &mut LineBuf)
    requires { length out.old + 11 ≤ 128 }
    ensures text { out.new ≡ out.old ++ text_of_name name.now }
    ensures short { length out.new ≤ length out.old + 11 }
{
    let (mark, number) = match name {
        Name::Native(k) => (b"#", k.0),
        Name::Script(k) => (b"@", k.0),
        Name::Reflector(k) => (b"~", k.0),
    };
    out.push(mark);
    out.push(Buffer::new().format(number).as_bytes());
}
