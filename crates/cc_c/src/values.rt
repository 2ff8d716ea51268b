//! What crosses between C and Rattle, and what it stands for.
ghost use Rattle.std.specs.Prelude.{◌≡◌, Some};
ghost use Rattle.cc_c.specs.Values.{flag, number_of_kind, to_content, to_object, to_root, to_weak};

use cc_host::{Object, Root, Weak};
use cc_names::{Kind, NKey, Name, NativeNo, ScriptNo};

/// What C holds of an object: nothing (kind 0), a native (1), a script object (2), or the reflector of a native (3).
#[repr(C)]
#[derive(Clone, Copy, Drop)]
pub struct CObject {
    pub mark: u64,
    pub key: u32,
    pub number: u32,
    pub kind: u32,
}

/// What C holds of a root.
#[repr(C)]
#[derive(Clone, Copy, Drop)]
pub struct CRoot {
    pub mark: u64,
    pub serial: u64,
    pub index: u32,
}

/// What C holds of a native that it does not keep.
#[repr(C)]
#[derive(Clone, Copy, Drop)]
pub struct CWeak {
    pub mark: u64,
    pub key: u32,
    pub number: u32,
}

/// What was told: a native was unlinked (1), an object was freed (2), a collection was abandoned (3). `value` is the program's
/// number for the object.
#[repr(C)]
#[derive(Clone, Copy, Drop)]
pub struct CTold {
    pub value: u64,
    pub what: u32,
    pub kind: u32,
    pub number: u32,
}

/// An object, and why it is reached: a numbered root holds it (1), an object refers to it (2), an entry of a weak map gives it (3), or
/// a root without number holds it (4).
#[repr(C)]
#[derive(Clone, Copy, Drop)]
pub struct CStep {
    pub kind: u32,
    pub number: u32,
    pub why: u32,
    pub by_kind: u32,
    pub by_number: u32,
    pub key_kind: u32,
    pub key_number: u32,
}

/// The object that C means. What is of no kind names none that was ever made.
pub fn object(x: &CObject) -> Object
    ensures { result ≡ to_object x.now }
{
    let name = match x.kind {
        1 => Name::Native(NativeNo(x.number)),
        2 => Name::Script(ScriptNo(x.number)),
        3 => Name::Reflector(NativeNo(x.number)),
        _ => Name::Script(ScriptNo(0)),
    };
    Object {
        name,
        key: x.key,
        mark: x.mark,
    }
}

/// The object that C means, or nothing.
#[tactic(auto, unfolding(crate::specs::Values::to_content))]
pub fn content(x: &CObject) -> Option<Object>
    ensures { result ≡ to_content x.now }
{
    if x.kind == 0 {
        return None;
    }
    Some(object(x))
}

/// An object for C.
#[tactic(auto, unfolding(crate::specs::Values::to_content))]
pub fn show(x: Object) -> CObject
    ensures object { to_object result ≡ x }
    ensures content { to_content result ≡ Some x }
{
    let (kind, number) = match x.name {
        Name::Native(k) => (1, k.0),
        Name::Script(k) => (2, k.0),
        Name::Reflector(k) => (3, k.0),
    };
    CObject {
        mark: x.mark,
        key: x.key,
        number,
        kind,
    }
}

/// An object for C, or nothing.
#[tactic(auto, unfolding(crate::specs::Values::to_content))]
pub fn show_any(x: Option<Object>) -> CObject
    ensures { to_content result ≡ x }
{
    match x {
        Some(x) => show(x),
        None => CObject {
            mark: 0,
            key: 0,
            number: 0,
            kind: 0,
        },
    }
}

/// The root that C means.
pub fn root_of(x: &CRoot) -> Root
    ensures { result ≡ to_root x.now }
{
    Root {
        index: x.index,
        serial: x.serial,
        mark: x.mark,
    }
}

/// A root for C.
pub fn show_root(x: Root) -> CRoot
    ensures { to_root result ≡ x }
{
    CRoot {
        mark: x.mark,
        serial: x.serial,
        index: x.index,
    }
}

/// The weak reference that C means.
pub fn weak_of(x: &CWeak) -> Weak
    ensures { result ≡ to_weak x.now }
{
    Weak {
        number: NativeNo(x.number),
        key: NKey(x.key),
        mark: x.mark,
    }
}

/// A weak reference for C.
pub fn show_weak(x: Weak) -> CWeak
    ensures { to_weak result ≡ x }
{
    CWeak {
        mark: x.mark,
        key: x.key.0,
        number: x.number.0,
    }
}

/// Yes or no for C.
pub fn flag(yes: bool) -> u32
    ensures { result ≡ flag yes }
{
    if yes { 1 } else { 0 }
}

/// The kind of a script object for C.
pub fn kind_number(kind: Kind) -> u32
    ensures { result ≡ number_of_kind kind }
{
    match kind {
        Kind::Plain => 1,
        Kind::Map => 2,
        Kind::Reflector => 3,
        Kind::Proxy => 4,
    }
}
