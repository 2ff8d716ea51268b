//! What a program keeps of an object.

use cc_names::Name;

/// An object by its name, the key at which it stands, and the mark of its host.
///
/// The key finds it, and the name tells whether it is still that one: no name but a reflector's is used twice, and a
/// reflector's only for the same native. To keep one keeps nothing alive.
#[derive(Clone, Copy, Debug, PartialEq, Eq, Drop)]
pub struct Object {
    pub name: Name,
    pub key: u32,
    pub mark: u64,
}
