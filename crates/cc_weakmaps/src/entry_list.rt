//! The entries in order, with their index, and how much memory they have.
ghost use Rattle.std.specs.Prelude.{◌≡◌, ◌↔◌, ◌+◌, ◌<◌, ◌≤◌, ◌++◌, ◌∷◌, length, max, remove, take, vec_capacity, false, [], Some, option_map, slice_get, IfNone, IfSome, IsOk, IsTrue, OnErr, OnOk};
ghost use Rattle.cc_weakmaps.specs.Entries.{HasOneEach, entry, has_value_in, value_in, with_entry, without_entry};
ghost use Rattle.cc_weakmaps.specs.Living.{AreLiving, MayBeAsked, StayBefore};
ghost use Rattle.cc_weakmaps.specs.Index.{IsPlaceOf, greatest, place_below};
ghost use Rattle.cc_weakmaps.specs.Kept.{TakesNoMemory};
ghost use Rattle.cc_weakmaps.specs.Places.{StandsAt};

use crate::entry::Entry;
use crate::index::{know, put_in, put_in_from, take_out_from};
use crate::lasts::Lasts;
use crate::links::Links;
use cc_names::{NoMemory, SKey};
use std::alloc::Global;
use std::marker::Model;

/// The entries of all weak maps, in the order in which they were first set; at most one for each map and key.
// An entry is looked for by its map and its key at once, in as many steps as the one of the two has entries that has fewer.
// `unset` of an entry moves those behind it one place down, and gives each its place in the index anew: O(k) for k of them.
// `drop_dead` asks of each entry whether it stays, and does the same for those behind the first that does not.
#[derive(Drop)]
pub(crate) struct EntryList {
    entries: Vec<Entry>,
    // of each entry, where those before it stand that have its map, its key or its delegate
    links: Vec<Links>,
    lasts: Lasts,
    // cleared where an entry is set again with another delegate, for whose place there may be no room; entries are looked for
    // one by one then. Where a delegate is for good, it is never cleared
    has_index: bool,
}

impl Model for EntryList {
    ghost use Rattle.std.specs.Prelude.{◌+◌, length, vec_capacity};
    ghost use Rattle.cc_weakmaps.specs.Index.{IsKept};
    ghost use Rattle.cc_weakmaps.specs.Kept.{Kept};

    ghost Value = { Kept };

    ghost view = { λ w. record {
      entries = w.entries.items;
      known = length w.lasts.places.items;
      room = vec_capacity w.entries + vec_capacity w.links + vec_capacity w.lasts.places;
    } };

    ghost invariant = { λ w. IsKept w.entries.items w.links.items w.lasts.places.items w.has_index };
}

impl EntryList {
    /// No entries, and no memory taken.
    pub(crate) fn new(alloc: Global) -> EntryList
        ensures { result ≡ record { entries = []; known = 0; room = 0 } }
    {
        EntryList {
            entries: Vec::new(alloc),
            links: Vec::new(alloc),
            lasts: Lasts::new(alloc),
            has_index: true,
        }
    }

    /// A key has a value in a map from then on: its entry keeps its place, or goes last where there was none. It has the
    /// delegate of the key.
    ///
    /// `NoMemory` changes no entry, and comes only where there was none. Where there was one, no memory is taken.
    #[tactic(auto, using(crate::proofs::Stands::stands))]
    pub(crate) fn set(
        &mut self,
        the_map: SKey,
        key: SKey,
        delegate: Option<SKey>,
        value: SKey,
    ) -> Result<(), NoMemory>
        ensures entries { OnOk result (self.new.entries ≡ with_entry self.old.entries the_map.0 key.0 (option_map (λ k. k.0) delegate) value.0) }
        ensures err { OnErr result (self.new.entries ≡ self.old.entries) }
        ensures in_place { IsTrue (has_value_in self.old.entries the_map.0 key.0) → IsOk result × TakesNoMemory self.old self.new }
        ensures known { self.new.known ≤ max self.old.known (greatest the_map.0 key.0 (option_map (λ k. k.0) delegate) + 1) }
        ensures at_most_one { HasOneEach self.new.entries }
    {
        let entry = Entry {
            the_map,
            key,
            delegate,
            value,
        };
        match self.place_of(the_map, key) {
            Some(place) => self.renew(place, entry),
            None => self.add(entry)?,
        }
        Ok(())
    }

    /// A key has no value in a map from then on; later entries close up.
    #[tactic(auto, using(crate::proofs::Stands::stands))]
    pub(crate) fn unset(&mut self, the_map: SKey, key: SKey)
        ensures entries { self.new.entries ≡ without_entry self.old.entries the_map.0 key.0 }
        ensures at_most_one { HasOneEach self.new.entries }
        ensures memory { TakesNoMemory self.old self.new }
    {
        if let Some(place) = self.place_of(the_map, key) {
            self.remove(place);
        }
    }

    /// The value that a key has in a map; none where it has none.
    #[tactic(auto, using(crate::proofs::Stands::stands))]
    pub(crate) fn get(&self, the_map: SKey, key: SKey) -> Option<SKey>
        ensures { option_map (λ k. k.0) result ≡ value_in self.now.entries the_map.0 key.0 }
    {
        match self.place_of(the_map, key) {
            Some(place) => Some(self.entries[place].value),
            None => None,
        }
    }

    /// How many entries there are.
    pub(crate) fn len(&self) -> usize
        ensures count { result ≡ length self.now.entries }
        ensures at_most_one { HasOneEach self.now.entries }
    {
        self.entries.len()
    }

    /// Whether there is no entry.
    pub(crate) fn is_empty(&self) -> bool
        ensures { IsTrue result ↔ (self.now.entries ≡ []) }
    {
        self.entries.is_empty()
    }

    /// Map, key, the key's delegate and value of the entry at a place, counted from 0.
    pub(crate) fn entry(&self, i: usize) -> (SKey, SKey, Option<SKey>, SKey)
        requires within { i < length self.now.entries }
        ensures { slice_get self.now.entries i ≡ Some (entry result.0.0 result.1.0 (option_map (λ k. k.0) result.2) result.3.0) }
    {
        let entry = &self.entries[i];
        (entry.the_map, entry.key, entry.delegate, entry.value)
    }

    /// The place of an entry that has an object for its map, its key or its delegate: of the last one; none where there is none. From it
    /// `next_with` goes on to the others.
    pub(crate) fn first_with(&self, object: SKey) -> Option<usize>
        ensures place { result ≡ place_below self.now.entries object.0 (length self.now.entries) }
        ensures there { IfSome result (IsPlaceOf self.now.entries object.0) }
        ensures within { IfSome result (λ i. i < length self.now.entries) }
    {
        if !self.has_index {
            return last_below(self.entries.as_slice(), object, self.entries.len());
        }
        widen(self.lasts.last(object.0))
    }

    /// The last place before this one of an entry that has the object; none where this is the first of them.
    ///
    /// So from `first_with` on each of its entries comes once, by falling places.
    pub(crate) fn next_with(&self, object: SKey, place: usize) -> Option<usize>
        requires { IsPlaceOf self.now.entries object.0 place }
        ensures place { result ≡ place_below self.now.entries object.0 place }
        ensures there { IfSome result (IsPlaceOf self.now.entries object.0) }
        ensures within { IfSome result (λ i. i < length self.now.entries) }
        ensures before { IfSome result (λ i. i < place) }
    {
        if !self.has_index {
            return last_below(self.entries.as_slice(), object, place);
        }
        let links = self.links[place];
        let entry = &self.entries[place];
        if entry.the_map == object {
            return widen(links.by_map);
        }
        if entry.key == object {
            return widen(links.by_key);
        }
        widen(links.by_delegate)
    }

    /// Drops each entry of which the map or the key does not live, and keeps the others in order.
    ///
    /// `alive` says of a key whether the object that stands there lives.
    pub(crate) fn drop_dead<F: Fn(SKey) -> bool>(&mut self, alive: F)
        requires { MayBeAsked (F.pre alive) self.old.entries }
        ensures entries { AreLiving (F.post alive) self.old.entries self.new.entries }
        ensures at_most_one { HasOneEach self.new.entries }
        ensures memory { TakesNoMemory self.old self.new }
    {
        if !self.has_index {
            keep_living(&mut self.entries, 0, &alive);
            return;
        }
        let start = first_dead(self.entries.as_slice(), &alive);
        take_out_from(
            &mut self.lasts,
            self.links.as_slice(),
            self.entries.as_slice(),
            start,
        );
        keep_living(&mut self.entries, start, &alive);
        put_in_from(
            &mut self.lasts,
            &mut self.links,
            self.entries.as_slice(),
            start,
        );
        self.links.truncate(self.entries.len());
    }

    /// Where the entry of a map and a key stands, counted from 0.
    #[tactic(auto, using(crate::proofs::Stands::stands))]
    fn place_of(&self, the_map: SKey, key: SKey) -> Option<usize>
        ensures found { IfSome result (λ place. StandsAt self.now.entries the_map.0 key.0 place) }
        ensures none { IfNone result (has_value_in self.now.entries the_map.0 key.0 ≡ false) }
        ensures at_most_one { HasOneEach self.now.entries }
    {
        let mut of_map = self.first_with(the_map);
        let mut of_key = self.first_with(key);
        while let Some(place) = of_map {
            let other = of_key?;
            if self.entries[place].is_of(the_map, key) {
                return Some(place);
            }
            if self.entries[other].is_of(the_map, key) {
                return Some(other);
            }
            of_map = self.next_with(the_map, place);
            of_key = self.next_with(key, other);
        }
        None
    }

    /// A new entry goes last. `NoMemory` comes also where its place needs more than 32 bits, and changes nothing.
    fn add(&mut self, entry: Entry) -> Result<(), NoMemory>
        requires { has_value_in self.old.entries entry.the_map entry.key ≡ false }
        ensures entries { OnOk result (self.new.entries ≡ self.old.entries ++ entry ∷ []) }
        ensures err { OnErr result (self.new.entries ≡ self.old.entries) }
        ensures known { self.new.known ≤ max self.old.known (greatest entry.the_map entry.key entry.delegate + 1) }
        ensures at_most_one { HasOneEach self.new.entries }
    {
        let place = self.entries.len();
        u32::try_from(place).map_err(|_| NoMemory)?;
        self.entries.reserve(1)?;
        if !self.has_index {
            self.entries.push_reserved(entry);
            return Ok(());
        }
        self.links.reserve(1)?;
        know(&mut self.lasts, entry)?;
        self.entries.push_reserved(entry);
        self.links.push_reserved(Links {
            by_map: None,
            by_key: None,
            by_delegate: None,
        });
        put_in(
            &mut self.lasts,
            &mut self.links,
            self.entries.as_slice(),
            place,
        );
        Ok(())
    }

    /// Writes the entry of a map and a key again, at the place where it stands. Takes no memory.
    fn renew(&mut self, place: usize, entry: Entry)
        requires { StandsAt self.old.entries entry.the_map entry.key place }
        ensures entries { self.new.entries ≡ with_entry self.old.entries entry.the_map entry.key entry.delegate entry.value }
        ensures at_most_one { HasOneEach self.new.entries }
        ensures memory { TakesNoMemory self.old self.new }
    {
        let is_alike = self.entries[place].is_alike(entry);
        self.has_index = keeps_index(self.has_index, is_alike);
        self.entries[place] = entry;
    }

    /// Takes out the entry at a place; later ones close up.
    fn remove(&mut self, place: usize)
        requires { place < length self.old.entries }
        ensures entries { self.new.entries ≡ remove self.old.entries place }
        ensures at_most_one { HasOneEach self.new.entries }
        ensures memory { TakesNoMemory self.old self.new }
    {
        if !self.has_index {
            self.entries.remove(place);
            return;
        }
        take_out_from(
            &mut self.lasts,
            self.links.as_slice(),
            self.entries.as_slice(),
            place,
        );
        self.entries.remove(place);
        put_in_from(
            &mut self.lasts,
            &mut self.links,
            self.entries.as_slice(),
            place,
        );
        self.links.truncate(self.entries.len());
    }
}

/// Whether there is an index where an entry was written again: where there was one, and the entry has the delegate that it had.
fn keeps_index(has_index: bool, is_alike: bool) -> bool
    ensures { IsTrue result → IsTrue has_index × IsTrue is_alike }
{
    has_index && is_alike
}

/// The last place below another of an entry that has an object, by a look at one after another; none where none has.
fn last_below(entries: &[Entry], object: SKey, end: usize) -> Option<usize>
    requires within { end ≤ length entries.now }
    ensures { result ≡ place_below entries.now object.0 end }
{
    let mut place = end;
    while place > 0 {
        place -= 1;
        if entries[place].has(object) {
            return Some(place);
        }
    }
    None
}

/// A place that is kept in 32 bits, as places are told; none where there is none.
fn widen(place: Option<u32>) -> Option<usize>
    ensures { result ≡ place }
{
    match place {
        Some(place) => Some(place as usize),
        None => None,
    }
}

/// The place of the first entry of which the map or the key does not live, counted from 0; past the last where all live.
fn first_dead<F: Fn(SKey) -> bool>(entries: &[Entry], alive: &F) -> usize
    requires { MayBeAsked (F.pre alive.now) entries.now }
    ensures within { result ≤ length entries.now }
    ensures stay { StayBefore (F.post alive.now) entries.now result }
{
    for place in 0..entries.len() {
        if !entries[place].stays(alive) {
            return place;
        }
    }
    entries.len()
}

/// Keeps the entries of which map and key live, in order. Those before a place all do, and stay where they are.
fn keep_living<F: Fn(SKey) -> bool>(entries: &mut Vec<Entry>, start: usize, alive: &F)
    requires asked { MayBeAsked (F.pre alive.now) entries.old.items }
    requires within { start ≤ length entries.old.items }
    requires stay { StayBefore (F.post alive.now) entries.old.items start }
    ensures living { AreLiving (F.post alive.now) entries.old.items entries.new.items }
    ensures memory { vec_capacity entries.new ≡ vec_capacity entries.old }
    ensures front { take start entries.new.items ≡ take start entries.old.items }
{
    let mut kept = start;
    for place in start..entries.len() {
        let entry = entries[place];
        if entry.stays(alive) {
            entries[kept] = entry;
            kept += 1;
        }
    }
    entries.truncate(kept);
}
