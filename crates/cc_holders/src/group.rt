//! A group of pages.
ghost use Rattle.std.specs.Prelude.{◌≡◌, ℕ, ◌+◌, ◌<◌, ◌≤◌, ◌^◌, [], length, count_by, get_or, IfNone, IfSome, OnOk};
ghost use Rattle.cc_holders.specs.declared.entry.Entry.{Entry};
ghost use Rattle.cc_holders.specs.Entries.{IsFirst, IsGivenBack, has_marked, in_group, in_page, key_of};

use crate::entry::Entry;
use crate::page::Page;
use cc_names::NoMemory;
use std::alloc::Global;
use std::marker::Model;

/// How many pages a group has.
pub(crate) const PAGES: usize = 128;

/// A group of pages.
#[derive(Drop)]
pub(crate) struct Group {
    pages: Vec<Page>,
    /// How many of them have a number that is marked.
    marked: usize,
}

impl Model for Group {
    ghost use Rattle.std.specs.Prelude.{◌≡◌, List, count_by};
    ghost use Rattle.cc_holders.specs.declared.entry.Entry.{Entry};
    ghost use Rattle.cc_holders.specs.Entries.{has_marked};

    ghost Value = { List (List Entry) };

    ghost view = { λ g. g.pages.items };

    ghost invariant = { λ g. g.marked ≡ count_by has_marked g.pages.items };
}

impl Group {
    /// No pages. Takes no memory.
    pub(crate) fn new(alloc: Global) -> Group
        ensures { result ≡ [] }
    {
        Group {
            pages: Vec::new(alloc),
            marked: 0,
        }
    }

    /// What is known of the number at a place of a page, by the page's place in the group.
    pub(crate) fn entry(&self, page: usize, place: usize) -> Entry
        ensures { result ≡ in_group self.now page place }
    {
        match self.pages.get(page) {
            Some(page) => page.entry(place),
            None => Entry::Unknown,
        }
    }

    /// A page is there, with all its places. `NoMemory` leaves what is known as it was.
    pub(crate) fn reach(&mut self, page: usize) -> Result<(), NoMemory>
        requires { page < 128 }
        ensures page { OnOk result (page < length self.new) }
        ensures places { OnOk result (32 ≤ length (get_or self.new page [])) }
        ensures same { (k i : ℕ) → in_group self.new k i ≡ in_group self.old k i }
    {
        reach_page(&mut self.pages, page)?;
        self.pages[page].fill()
    }

    /// This is known of the number at a place of a page.
    pub(crate) fn put(&mut self, page: usize, place: usize, entry: Entry)
        requires page { page < length self.old }
        requires place { place < length (get_or self.old page []) }
        ensures here { in_group self.new page place ≡ entry }
        ensures others { (k i : ℕ) → (k ≡ page → i ≡ place → ⊥) → in_group self.new k i ≡ in_group self.old k i }
        ensures given_back { IsGivenBack (get_or self.new page []) }
    {
        let written = &mut self.pages[page];
        let before = written.count_marked();
        written.put(place, entry);
        let after = written.count_marked();
        self.marked = self.marked + after - before;
    }

    /// The first page behind this one that has a number that is marked; the end of the group where there is none.
    pub(crate) fn next_marked_page(&self, page: usize) -> usize
        requires { page < 128 }
        ensures behind { page < result }
        ensures within { result ≤ 128 }
        ensures passed { (k i : ℕ) → page < k → k < result → key_of (in_group self.now k i) ≡ None }
    {
        if self.marked == 0 {
            return PAGES;
        }
        for next in page + 1..self.pages.len().min(PAGES) {
            if self.pages[next].count_marked() > 0 {
                return next;
            }
        }
        PAGES
    }

    /// The first marked number of a page, from a place on, by its place, and its key; none where there is none.
    pub(crate) fn first_marked(&self, page: usize, start: usize) -> Option<(usize, u32)>
        ensures found { IfSome result (λ r. IsFirst (λ i. key_of (in_group self.now page i)) start r.0 r.1) }
        ensures within { IfSome result (λ r. r.0 < 32) }
        ensures none { IfNone result ((i : ℕ) → start ≤ i → key_of (in_group self.now page i) ≡ None) }
    {
        match self.pages.get(page) {
            Some(page) => page.first_marked(start),
            None => None,
        }
    }
}

/// There is a page at a place, which is empty where there was none, as are those before it. `NoMemory` adds none.
fn reach_page(pages: &mut Vec<Page>, place: usize) -> Result<(), NoMemory>
    requires { place < 128 }
    ensures room { OnOk result (place < length pages.new.items) }
    ensures same { (k : ℕ) → get_or pages.new.items k [] ≡ get_or pages.old.items k [] }
    ensures marked { count_by has_marked pages.new.items ≡ count_by has_marked pages.old.items }
{
    while pages.len() <= place {
        pages.reserve(1)?;
        let page = Page::new(*pages.allocator());
        pages.push_reserved(page);
    }
    Ok(())
}
