//! One page: what is known of so many numbers that follow one another.
ghost use Rattle.std.specs.Prelude.{◌≡◌, ℕ, ◌<◌, ◌≤◌, ◌==◌, [], length, if◌then◌else◌, IfNone, IfSome, OnOk};
ghost use Rattle.cc_holders.specs.declared.entry.Entry.TheVariants.{Unknown};
ghost use Rattle.cc_holders.specs.Entries.{IsFirst, IsGivenBack, has_marked, in_page, key_of, one_if};

use crate::entry::Entry;
use cc_names::NoMemory;
use std::alloc::Global;
use std::marker::Model;

/// How many places a page has, one for each of its numbers.
pub(crate) const PLACES: usize = 32;

/// A page; one that was not taken is empty.
#[derive(Drop)]
pub(crate) struct Page {
    entries: Vec<Entry>,
    /// How many of its numbers are known, and how many are marked.
    known: u32,
    marked: u32,
}

impl Model for Page {
    ghost use Rattle.std.specs.Prelude.{List};
    ghost use Rattle.cc_holders.specs.declared.entry.Entry.{Entry};
    ghost use Rattle.cc_holders.specs.Entries.{IsCounted};

    ghost Value = { List Entry };

    ghost view = { λ p. p.entries.items };

    ghost invariant = { λ p. IsCounted p.entries.items p.known p.marked };
}

impl Page {
    /// No number is known. Takes no memory.
    pub(crate) fn new(alloc: Global) -> Page
        ensures { result ≡ [] }
    {
        Page {
            entries: Vec::new(alloc),
            known: 0,
            marked: 0,
        }
    }

    /// What is known of the number at a place; nothing past the end.
    pub(crate) fn entry(&self, place: usize) -> Entry
        ensures { result ≡ in_page self.now place }
    {
        match self.entries.get(place) {
            Some(entry) => *entry,
            None => Entry::Unknown,
        }
    }

    /// One where some number is marked, and else none.
    pub(crate) fn count_marked(&self) -> usize
        ensures { result ≡ one_if (has_marked self.now) }
    {
        if self.marked == 0 { 0 } else { 1 }
    }

    /// All places are there. `NoMemory` changes nothing.
    pub(crate) fn fill(&mut self) -> Result<(), NoMemory>
        ensures room { OnOk result (32 ≤ length self.new) }
        ensures same { (i : ℕ) → in_page self.new i ≡ in_page self.old i }
        ensures marked { has_marked self.new ≡ has_marked self.old }
    {
        if self.entries.is_empty() {
            self.entries.resize(PLACES, Entry::Unknown)?;
        }
        Ok(())
    }

    /// This is known of the number at a place. A page is given back where no number is known then.
    pub(crate) fn put(&mut self, place: usize, entry: Entry)
        requires { place < length self.old }
        ensures put { (i : ℕ) → in_page self.new i ≡ (if place == i then entry else in_page self.old i) }
        ensures given_back { IsGivenBack self.new }
    {
        let old = self.entries[place];
        self.entries[place] = entry;
        self.known = self.known + entry.count_known() - old.count_known();
        self.marked = self.marked + entry.count_marked() - old.count_marked();
        if self.known == 0 {
            self.entries = Vec::new(*self.entries.allocator());
        }
    }

    /// The first marked number from a place on, by its place, and its key; none where there is none.
    pub(crate) fn first_marked(&self, start: usize) -> Option<(usize, u32)>
        ensures found { IfSome result (λ r. IsFirst (λ i. key_of (in_page self.now i)) start r.0 r.1) }
        ensures within { IfSome result (λ r. r.0 < 32) }
        ensures none { IfNone result ((i : ℕ) → start ≤ i → key_of (in_page self.now i) ≡ None) }
    {
        if self.marked == 0 {
            return None;
        }
        for place in start..self.entries.len() {
            if let Some(key) = self.entries[place].marked_key() {
                return Some((place, key));
            }
        }
        None
    }
}
