//! What a slot of a native holds.
ghost use Rattle.std.specs.Prelude.{◌≡◌};
ghost use Rattle.cc_counted.specs.Counts.{held_of_native, native_held};

use cc_names::{NKey, SKey};

/// What a slot of a native holds.
#[derive(Clone, Copy, Debug, PartialEq, Eq, Drop)]
pub enum Held {
    /// A native, by a counted reference.
    Native(NKey),
    /// A script object, by its key in its own heap. Nothing counts it here: to give it up gives up nothing.
    Script(SKey),
}

impl Held {
    /// What a native register holds, as a slot holds it.
    pub fn of_native(content: Option<NKey>) -> Option<Held>
        ensures { result ≡ held_of_native content }
    {
        match content {
            Some(key) => Some(Held::Native(key)),
            None => None,
        }
    }
}

/// The key of the native in a slot; none of an empty slot, and of one that holds a script object.
pub fn native_held(slot: Option<Held>) -> Option<NKey>
    ensures { result ≡ native_held slot }
{
    match slot {
        Some(Held::Native(key)) => Some(key),
        Some(Held::Script(_)) | None => None,
    }
}
