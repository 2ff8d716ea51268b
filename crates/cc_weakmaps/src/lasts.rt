//! Of each object, the last place at which an entry has it for its map, its key or its delegate.
ghost use Rattle.std.specs.Prelude.{◌≡◌, ℕ, ◌+◌, ◌<◌, ◌≤◌, ◌==◌, [], length, max, if◌then◌else◌, IsOk, OnOk, option_map, vec_capacity};
ghost use Rattle.cc_weakmaps.specs.Index.{IsBelow, kept_with, last_kept, last_of};

use cc_names::{NoMemory, SKey};
use std::alloc::Global;

/// The last places by the objects' keys, up to the greatest key that was known. Places are kept in 32 bits. An object can
/// be known without a place, so that one is kept later without memory.
// Keys are those of a slab, so they lie close together: a place costs 8 bytes, and a look-up one access.
#[derive(Drop)]
pub(crate) struct Lasts {
    pub(crate) places: Vec<Option<u32>>,
}

impl Lasts {
    ghost use Rattle.cc_weakmaps.specs.Lasts.{KeepsRoom};

    /// No object is known, and no memory is taken.
    pub(crate) fn new(alloc: Global) -> Lasts
        ensures places { result.places.items ≡ [] }
        ensures memory { vec_capacity result.places ≡ 0 }
    {
        Lasts {
            places: Vec::new(alloc),
        }
    }

    /// The last place of an object; none where it has none.
    pub(crate) fn last(&self, object: u32) -> Option<u32>
        ensures { result ≡ last_kept self.now.places.items object }
    {
        match self.places.get(object as usize) {
            Some(place) => *place,
            None => None,
        }
    }

    /// Two objects are known from then on, with all of lower keys and no other. `NoMemory` changes nothing, and comes only
    /// where one of them was not known.
    pub(crate) fn know_both(&mut self, one: u32, other: u32) -> Result<(), NoMemory>
        ensures one { OnOk result (one < length self.new.places.items) }
        ensures other { OnOk result (other < length self.new.places.items) }
        ensures others { length self.old.places.items ≤ length self.new.places.items }
        ensures most { length self.new.places.items ≤ max (length self.old.places.items) (max one other + 1) }
        ensures places { (k : ℕ) → last_kept self.new.places.items k ≡ last_kept self.old.places.items k }
        ensures known { max one other < length self.old.places.items → IsOk result × KeepsRoom self.old self.new }
    {
        let greater = one.max(other) as usize;
        if greater >= self.places.len() {
            self.places.resize(greater + 1, None)?;
        }
        Ok(())
    }

    /// The last place of an object that is known is this from then on.
    pub(crate) fn keep(&mut self, object: u32, place: Option<u32>)
        requires known { object < length self.old.places.items }
        ensures places { (k : ℕ) → last_kept self.new.places.items k ≡ (if object == k then place else last_kept self.old.places.items k) }
        ensures memory { KeepsRoom self.old self.new }
    {
        self.places[object as usize] = place;
    }

    /// The last place of an object that may be there; none where it is not, or has none.
    pub(crate) fn last_of(&self, object: Option<SKey>) -> Option<u32>
        ensures { result ≡ last_of self.now.places.items (option_map (λ k. k.0) object) }
    {
        match object {
            Some(object) => self.last(object.0),
            None => None,
        }
    }

    /// The last place of an object that may be there is this from then on.
    pub(crate) fn keep_of(&mut self, object: Option<SKey>, place: Option<u32>)
        requires known { IsBelow (length self.old.places.items) (option_map (λ k. k.0) object) }
        ensures places { (k : ℕ) → last_kept self.new.places.items k ≡ kept_with (option_map (λ k. k.0) object) place k (last_kept self.old.places.items k) }
        ensures memory { KeepsRoom self.old self.new }
    {
        if let Some(object) = object {
            self.keep(object.0, place);
        }
    }
}
