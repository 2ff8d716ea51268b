//! Script objects by keys: an even one is that of a plain object, a weak map or a proxy, an odd one that of a reflector.
ghost use Rattle.std.specs.Prelude.{◌≡◌, ◌<◌, option_map, IfSome, IfNone};
ghost use Rattle.cc_object_graph.specs.Keyed.{HasKey, keys};
ghost use Rattle.cc_object_graph.specs.Keys.{object_of};

use cc_names::{Name, NativeNo, SKey, ScriptNo};

/// The greatest number of an object that has a key.
const MOST: u32 = 2_147_483_647;

/// The object of a key.
pub(crate) fn name_of(key: SKey) -> Name
    ensures { result ≡ object_of key.0 }
{
    if key.0 % 2 == 0 {
        Name::Script(ScriptNo(key.0 / 2))
    } else {
        Name::Reflector(NativeNo(key.0 / 2))
    }
}

/// The key of a script object. None for a native, and for a number past `MOST`.
pub(crate) fn key_of(name: &Name) -> Option<SKey>
    ensures key { IfSome result (λ key. object_of key.0 ≡ name.now) }
    ensures fits { IfSome result (λ key. key.0 < keys) }
    ensures none { IfNone result (¬ (HasKey name.now)) }
{
    match *name {
        Name::Native(_) => None,
        Name::Script(k) if k.0 <= MOST => Some(SKey(2 * k.0)),
        Name::Reflector(k) if k.0 <= MOST => Some(SKey(2 * k.0 + 1)),
        _ => None,
    }
}

/// The key of a script object that has one.
pub(crate) fn the_key_of(name: &Name) -> SKey
    requires { HasKey name.now }
    ensures key { object_of result.0 ≡ name.now }
    ensures fits { result.0 < keys }
{
    match key_of(name) {
        Some(key) => key,
        None => unreachable!(),
    }
}

/// The key of a script object that may be there, and has one where it is.
pub(crate) fn key_of_it(name: Option<Name>) -> Option<SKey>
    requires { IfSome name HasKey }
    ensures key { option_map (λ k. object_of k.0) result ≡ name }
    ensures fits { IfSome result (λ key. key.0 < keys) }
{
    match name {
        Some(name) => Some(the_key_of(&name)),
        None => None,
    }
}

/// The object of a key that may be there.
pub(crate) fn name_of_it(key: Option<SKey>) -> Option<Name>
    ensures { result ≡ option_map (λ k. object_of k.0) key }
{
    match key {
        Some(key) => Some(name_of(key)),
        None => None,
    }
}
