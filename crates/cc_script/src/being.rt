//! What an object is.
ghost use Rattle.std.specs.Prelude.{◌≡◌};
ghost use Rattle.cc_script.specs.Beings.{delegate_of, kind_of, name_of, native_of};

use cc_names::{Kind, NKey, Name, NativeNo, SKey, ScriptNo};

/// What an object is, with its number, and where the native of a reflector or the delegate of a proxy stands: its kind, its
/// name and these in 12 bytes.
#[derive(Clone, Copy, Drop)]
pub(crate) enum Being {
    Plain(ScriptNo),
    Map(ScriptNo),
    Proxy(ScriptNo, SKey),
    Reflector(NativeNo, NKey),
}

impl Being {
    /// The name, which it never shares with another.
    pub(crate) fn name(&self) -> Name
        ensures { result ≡ name_of self.now }
    {
        match *self {
            Being::Plain(no) | Being::Map(no) | Being::Proxy(no, _) => Name::Script(no),
            Being::Reflector(no, _) => Name::Reflector(no),
        }
    }

    /// The kind.
    pub(crate) fn kind(&self) -> Kind
        ensures { result ≡ kind_of self.now }
    {
        match *self {
            Being::Plain(_) => Kind::Plain,
            Being::Map(_) => Kind::Map,
            Being::Proxy(_, _) => Kind::Proxy,
            Being::Reflector(_, _) => Kind::Reflector,
        }
    }

    /// Where its native stands, of a reflector.
    pub(crate) fn native(&self) -> Option<NKey>
        ensures { result ≡ native_of self.now }
    {
        match *self {
            Being::Plain(_) | Being::Map(_) | Being::Proxy(_, _) => None,
            Being::Reflector(_, native) => Some(native),
        }
    }

    /// Its delegate, of a proxy.
    pub(crate) fn delegate(&self) -> Option<SKey>
        ensures { result ≡ delegate_of self.now }
    {
        match *self {
            Being::Plain(_) | Being::Map(_) | Being::Reflector(_, _) => None,
            Being::Proxy(_, delegate) => Some(delegate),
        }
    }
}
