//! The entries as callers see them.
ghost use Rattle.std.specs.Prelude.{◌≡◌, ◌↔◌, ◌<◌, length, [], Some, option_map, slice_get, IfSome, IsOk, IsTrue, OnErr, OnOk};
ghost use Rattle.cc_weakmaps.specs.Entries.{HasOneEach, entry, has_value_in, value_in, with_entry, without_entry};
ghost use Rattle.cc_weakmaps.specs.Living.{AreLiving, MayBeAsked};
ghost use Rattle.cc_weakmaps.specs.Index.{IsPlaceOf, place_below};

use crate::entry_list::EntryList;
use cc_names::{NoMemory, SKey};
use std::alloc::Global;
use std::marker::Model;

/// The entries of all weak maps, in the order in which they were first set; at most one for each map and key.
#[derive(Drop)]
pub struct WeakMaps {
    list: EntryList,
}

impl Model for WeakMaps {
    ghost use Rattle.std.specs.Prelude.{List};
    ghost use Rattle.cc_weakmaps.specs.Entries.{KeyedEntry};

    ghost Value = { List KeyedEntry };

    ghost view = { λ w. w.list.entries };
}

impl WeakMaps {
    /// No entries, and no memory taken.
    pub fn new(alloc: Global) -> WeakMaps
        ensures { result ≡ [] }
    {
        WeakMaps {
            list: EntryList::new(alloc),
        }
    }

    /// A key has a value in a map from then on: its entry keeps its place, or goes last where there was none. It has the
    /// delegate of the key, where that is a proxy.
    ///
    /// Memory is taken for a new entry, and for the places of all keys up to the greatest of its map, its key and its delegate:
    /// keys are those of a slab, so they lie close together. Places are kept in 32 bits, so `NoMemory` comes too where that of a new entry needs more.
    /// `NoMemory` changes nothing, and comes only where there was no entry.
    pub fn set(
        &mut self,
        the_map: SKey,
        key: SKey,
        delegate: Option<SKey>,
        value: SKey,
    ) -> Result<(), NoMemory>
        ensures entries { OnOk result (self.new ≡ with_entry self.old the_map.0 key.0 (option_map (λ k. k.0) delegate) value.0) }
        ensures err { OnErr result (self.new ≡ self.old) }
        ensures in_place { IsTrue (has_value_in self.old the_map.0 key.0) → IsOk result }
        ensures at_most_one { HasOneEach self.new }
    {
        self.list.set(the_map, key, delegate, value)
    }

    /// A key has no value in a map from then on; later entries close up.
    pub fn unset(&mut self, the_map: SKey, key: SKey)
        ensures entries { self.new ≡ without_entry self.old the_map.0 key.0 }
        ensures at_most_one { HasOneEach self.new }
    {
        self.list.unset(the_map, key);
    }

    /// The value that a key has in a map; none where it has none.
    pub fn get(&self, the_map: SKey, key: SKey) -> Option<SKey>
        ensures { option_map (λ k. k.0) result ≡ value_in self.now the_map.0 key.0 }
    {
        self.list.get(the_map, key)
    }

    /// How many entries there are.
    pub fn len(&self) -> usize
        ensures count { result ≡ length self.now }
        ensures at_most_one { HasOneEach self.now }
    {
        self.list.len()
    }

    /// Whether there is no entry.
    pub fn is_empty(&self) -> bool
        ensures { IsTrue result ↔ (self.now ≡ []) }
    {
        self.list.is_empty()
    }

    /// Map, key, the key's delegate and value of the entry at a place, counted from 0.
    pub fn entry(&self, i: usize) -> (SKey, SKey, Option<SKey>, SKey)
        requires within { i < length self.now }
        ensures { slice_get self.now i ≡ Some (entry result.0.0 result.1.0 (option_map (λ k. k.0) result.2) result.3.0) }
    {
        self.list.entry(i)
    }

    /// The place of an entry that has an object for its map, its key or its delegate: of the last one; none where there is none. From it
    /// `next_with` goes on to the others.
    pub fn first_with(&self, object: SKey) -> Option<usize>
        ensures place { result ≡ place_below self.now object.0 (length self.now) }
        ensures there { IfSome result (IsPlaceOf self.now object.0) }
        ensures within { IfSome result (λ i. i < length self.now) }
    {
        self.list.first_with(object)
    }

    /// The last place before this one of an entry that has the object; none where this is the first of them.
    ///
    /// So from `first_with` on each of its entries comes once, by falling places.
    pub fn next_with(&self, object: SKey, place: usize) -> Option<usize>
        requires { IsPlaceOf self.now object.0 place }
        ensures place { result ≡ place_below self.now object.0 place }
        ensures there { IfSome result (IsPlaceOf self.now object.0) }
        ensures within { IfSome result (λ i. i < length self.now) }
        ensures before { IfSome result (λ i. i < place) }
    {
        self.list.next_with(object, place)
    }

    /// Drops each entry of which the map or the key does not live, and keeps the others in order.
    ///
    /// `alive` says of a key whether the object that stands there lives.
    pub fn drop_dead<F: Fn(SKey) -> bool>(&mut self, alive: F)
        requires { MayBeAsked (F.pre alive) self.old }
        ensures entries { AreLiving (F.post alive) self.old self.new }
        ensures at_most_one { HasOneEach self.new }
    {
        self.list.drop_dead(alive);
    }
}
