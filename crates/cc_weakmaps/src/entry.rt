//! One entry.
ghost use Rattle.std.specs.Prelude.{◌≡◌, IsTrue};
ghost use Rattle.cc_weakmaps.specs.Entries.{is_entry_of};
ghost use Rattle.cc_weakmaps.specs.Index.{has_object};
ghost use Rattle.cc_weakmaps.specs.Living.{Stays, script_key};

use cc_names::SKey;
use std::marker::Model;

/// The value that a key has in a map, with the key's delegate where it is a proxy.
#[derive(Clone, Copy, Drop)]
pub(crate) struct Entry {
    pub(crate) the_map: SKey,
    pub(crate) key: SKey,
    pub(crate) delegate: Option<SKey>,
    pub(crate) value: SKey,
}

impl Model for Entry {
    ghost use Rattle.std.specs.Prelude.{option_map};
    ghost use Rattle.cc_weakmaps.specs.Entries.{KeyedEntry, entry};
    ghost use Rattle.cc_weakmaps.specs.Living.{script_key};

    ghost Value = { KeyedEntry };

    ghost view = { λ e. entry e.the_map.0 e.key.0 (option_map (λ k. k.0) e.delegate) e.value.0 };

    ghost inverse = { λ e. record { the_map = script_key e.the_map; key = script_key e.key; delegate = option_map script_key e.delegate; value = script_key e.value } };
}

impl Entry {
    /// Whether it is the entry of a map and a key.
    pub(crate) fn is_of(&self, the_map: SKey, key: SKey) -> bool
        ensures { result ≡ is_entry_of the_map.0 key.0 self.now }
    {
        self.the_map == the_map && self.key == key
    }

    /// Whether it has an object for its map, its key or its delegate.
    pub(crate) fn has(&self, object: SKey) -> bool
        ensures { result ≡ has_object object.0 self.now }
    {
        self.the_map == object || self.key == object || self.delegate == Some(object)
    }

    /// Whether another one has the same delegate, or none as well.
    pub(crate) fn is_alike(&self, other: Entry) -> bool
        ensures { IsTrue result → self.now.delegate ≡ other.delegate }
    {
        match (self.delegate, other.delegate) {
            (Some(one), Some(two)) => one == two,
            (None, None) => true,
            _ => false,
        }
    }

    /// Whether both its map and its key live. `alive` says of a key whether the object that stands there does.
    pub(crate) fn stays<F: Fn(SKey) -> bool>(&self, alive: &F) -> bool
        requires the_map { F.pre alive.now (script_key self.now.the_map) }
        requires key { F.pre alive.now (script_key self.now.key) }
        ensures { Stays (F.post alive.now) self.now result }
    {
        alive(self.the_map) && alive(self.key)
    }
}
