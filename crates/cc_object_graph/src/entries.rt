//! The entries of all weak maps, by the names of their objects.
ghost use Rattle.std.specs.Prelude.{◌≡◌, ◌<◌, length, [], Some, slice_get, IfSome, OnOk};
ghost use Rattle.cc_model.specs.Entries.{entry, value_in, with_entry, without_entry};
ghost use Rattle.cc_object_graph.specs.Keyed.{HasKey};
ghost use Rattle.cc_search.specs.Members.{IsPlaceOf, place_below};

use crate::keys::{key_of, key_of_it, name_of, name_of_it, the_key_of};
use cc_names::{Name, NoMemory};
use cc_weakmaps::WeakMaps;
use std::alloc::Global;
use std::marker::Model;

/// The entries of all weak maps, in the order in which they were first set.
#[derive(Drop)]
pub(crate) struct Entries {
    maps: WeakMaps,
}

impl Model for Entries {
    ghost use Rattle.std.specs.Prelude.{List};
    ghost use Rattle.cc_model.specs.Entries.{Entry};
    ghost use Rattle.cc_object_graph.specs.Keys.{named_entries};
    ghost use Rattle.cc_object_graph.specs.Keyed.{AreKeyed};

    ghost Value = { List Entry };

    ghost view = { λ e. named_entries e.maps };

    ghost invariant = { λ e. AreKeyed e.maps };
}

impl Entries {
    /// None yet.
    pub(crate) fn new(alloc: Global) -> Entries
        ensures { result ≡ [] }
    {
        Entries {
            maps: WeakMaps::new(alloc),
        }
    }

    /// A key has a value in a map from then on: its entry keeps its place, or goes last where there was none.
    pub(crate) fn set(
        &mut self,
        the_map: &Name,
        key: &Name,
        delegate: Option<Name>,
        value: &Name,
    ) -> Result<(), NoMemory>
        requires the_map { HasKey the_map.now }
        requires key { HasKey key.now }
        requires delegate { IfSome delegate HasKey }
        requires value { HasKey value.now }
        ensures { OnOk result (self.new ≡ with_entry self.old the_map.now key.now delegate value.now) }
    {
        self.maps.set(
            the_key_of(the_map),
            the_key_of(key),
            key_of_it(delegate),
            the_key_of(value),
        )
    }

    /// A key has no value in a map from then on; later entries close up.
    pub(crate) fn unset(&mut self, the_map: &Name, key: &Name)
        requires the_map { HasKey the_map.now }
        requires key { HasKey key.now }
        ensures { self.new ≡ without_entry self.old the_map.now key.now }
    {
        self.maps.unset(the_key_of(the_map), the_key_of(key));
    }

    /// The value that a key has in a map; none where it has none.
    pub(crate) fn value(&self, the_map: &Name, key: &Name) -> Option<Name>
        ensures { result ≡ value_in self.now the_map.now key.now }
    {
        let maps = &self.maps;
        let Some(the_map) = key_of(the_map) else {
            return None;
        };
        let Some(key) = key_of(key) else {
            return None;
        };
        name_of_it(maps.get(the_map, key))
    }

    /// The place of the last entry of which an object is the map, the key or the key's delegate; none where there is none.
    pub(crate) fn first_with(&self, name: &Name) -> Option<usize>
        ensures place { result ≡ place_below self.now name.now (length self.now) }
        ensures there { IfSome result (IsPlaceOf self.now name.now) }
        ensures within { IfSome result (λ i. i < length self.now) }
    {
        let maps = &self.maps;
        match key_of(name) {
            Some(key) => maps.first_with(key),
            None => None,
        }
    }

    /// The last place before this one of an entry of which the object is a member; none where this is the first of them.
    pub(crate) fn next_with(&self, name: &Name, place: usize) -> Option<usize>
        requires { IsPlaceOf self.now name.now place }
        ensures place { result ≡ place_below self.now name.now place }
        ensures there { IfSome result (IsPlaceOf self.now name.now) }
        ensures within { IfSome result (λ i. i < length self.now) }
        ensures before { IfSome result (λ i. i < place) }
    {
        let maps = &self.maps;
        match key_of(name) {
            Some(key) => maps.next_with(key, place),
            None => None,
        }
    }

    /// Map, key, the key's delegate and value of the entry at a place, counted from 0.
    pub(crate) fn entry(&self, i: usize) -> (Name, Name, Option<Name>, Name)
        requires within { i < length self.now }
        ensures { slice_get self.now i ≡ Some (entry result.0 result.1 result.2 result.3) }
    {
        let (the_map, key, delegate, value) = self.maps.entry(i);
        (
            name_of(the_map),
            name_of(key),
            name_of_it(delegate),
            name_of(value),
        )
    }
}
