//! The places of an object, in which it may refer to another.
ghost use Rattle.std.specs.Prelude.{◌≡◌, length, None, slice_index_or};
ghost use Rattle.cc_names.specs.declared.name.Name.TheVariants as name;
ghost use Rattle.cc_model.specs.Checks.{slots_or_none};
ghost use Rattle.cc_model.specs.Places.{places_made};

use crate::object_graph::ObjectGraph;
use crate::rows::{content_with, content_with_two};
use cc_names::{Name, NativeNo, ScriptNo};

impl ObjectGraph {
    /// How many places an object has in which it may refer to another: its slots, and those for a reflector, a delegate and a native.
    pub(crate) fn places_of(&self, name: &Name) -> usize
        ensures { result ≡ length (slots_or_none (places_made self.now name.now)) }
    {
        match *name {
            Name::Native(k) => self.places_of_native(k),
            Name::Script(k) => self.places_of_script(k),
            Name::Reflector(k) => self.places_of_reflector(k),
        }
    }

    /// What a place of an object holds, counted from 0.
    pub(crate) fn place_of(&self, name: &Name, i: usize) -> Option<Name>
        ensures { result ≡ slice_index_or (slots_or_none (places_made self.now name.now)) i None }
    {
        match *name {
            Name::Native(k) => self.place_of_native(k, i),
            Name::Script(k) => self.place_of_script(k, i),
            Name::Reflector(k) => self.place_of_reflector(k, i),
        }
    }

    fn places_of_native(&self, k: NativeNo) -> usize
        ensures { result ≡ length (slots_or_none (places_made self.now (name.Native k))) }
    {
        match self.natives.get(k) {
            Some(native) => native.slots().len() + 1,
            None => 0,
        }
    }

    fn places_of_script(&self, k: ScriptNo) -> usize
        ensures { result ≡ length (slots_or_none (places_made self.now (name.Script k))) }
    {
        match self.scripts.get(k) {
            Some(object) => object.all_slots().len() + 2,
            None => 0,
        }
    }

    fn places_of_reflector(&self, k: NativeNo) -> usize
        ensures { result ≡ length (slots_or_none (places_made self.now (name.Reflector k))) }
    {
        match self.reflector_slots(k) {
            Some(slots) => slots.len() + 2,
            None => 0,
        }
    }

    fn place_of_native(&self, k: NativeNo, i: usize) -> Option<Name>
        ensures { result ≡ slice_index_or (slots_or_none (places_made self.now (name.Native k))) i None }
    {
        match self.natives.get(k) {
            Some(native) => content_with(native.slots(), native.preserved_reflector(k), i),
            None => None,
        }
    }

    fn place_of_script(&self, k: ScriptNo, i: usize) -> Option<Name>
        ensures { result ≡ slice_index_or (slots_or_none (places_made self.now (name.Script k))) i None }
    {
        match self.scripts.get(k) {
            Some(object) => content_with_two(object.all_slots(), object.delegate(), None, i),
            None => None,
        }
    }

    fn place_of_reflector(&self, k: NativeNo, i: usize) -> Option<Name>
        ensures { result ≡ slice_index_or (slots_or_none (places_made self.now (name.Reflector k))) i None }
    {
        match self.reflector_slots(k) {
            Some(slots) => content_with_two(slots, None, Some(Name::Native(k)), i),
            None => None,
        }
    }
}
