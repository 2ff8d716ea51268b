//! The table: keys and counts by number.
ghost use Rattle.std.specs.Prelude.{◌≡◌, ℕ, ◌<◌, ◌≤◌, ◌/◌, ◌==◌, ◌^◌, [], None, if◌then◌else◌, vec_capacity, IfNone, IfSome, IsTrue, OnErr, OnOk};
ghost use Rattle.cc_holders.specs.declared.entry.Entry.TheVariants.{Unknown, Known};
ghost use Rattle.cc_holders.specs.Entries.{IsFirst, IsGivenBack, behind, count_of, is_known, one_less, one_more, page_in};
ghost use Rattle.cc_holders.specs.Known.{entry_at, key_at};

use crate::entry::Entry;
use crate::table::{Table, entry_of, first_marked, put, reach};
use cc_names::NoMemory;
use std::alloc::Global;

/// Keys and counts by number. A number is marked as long as its count is above zero.
///
/// `add` alone takes memory: that of a page, where the number is the first of its page.
#[derive(Drop)]
pub struct Holders {
    groups: Table,
}

impl Holders {
    /// No number is known. Takes no memory.
    pub fn new(alloc: Global) -> Holders
        ensures entries { (n : ℕ) → entry_at result n ≡ Unknown }
        ensures memory { vec_capacity result.groups ≡ 0 }
    {
        Holders {
            groups: Vec::new(alloc),
        }
    }

    /// What is known of a number.
    pub fn get(&self, number: u32) -> Entry
        ensures { result ≡ entry_at self.now number }
    {
        entry_of(&self.groups, number as usize)
    }

    /// The number is known from now on, with this key and the count zero.
    ///
    /// `NoMemory`, where its page is not there and can't be had, leaves all as it was.
    pub fn add(&mut self, number: u32, key: u32) -> Result<(), NoMemory>
        ensures entries { OnOk result ((n : ℕ) → entry_at self.new n ≡ (if number == n then Known 0 key else entry_at self.old n)) }
        ensures err { OnErr result ((n : ℕ) → entry_at self.new n ≡ entry_at self.old n) }
    {
        reach(&mut self.groups, number as usize)?;
        put(&mut self.groups, number as usize, Entry::Known(0, key));
        Ok(())
    }

    /// Nothing is known of the number from now on. Its page is given back where nothing is known of any number of it then.
    /// Takes no memory.
    #[inline(always)]
    pub fn remove(&mut self, number: u32)
        ensures entries { (n : ℕ) → entry_at self.new n ≡ (if number == n then Unknown else entry_at self.old n) }
        ensures given_back { IsTrue (is_known (entry_at self.old number)) → IsGivenBack (page_in self.new.groups.items number) }
        ensures memory { vec_capacity self.new.groups ≡ vec_capacity self.old.groups }
    {
        if self.get(number).is_known() {
            put(&mut self.groups, number as usize, Entry::Unknown);
        }
    }

    /// Raises the count of the number, where it is known, by one. Takes no memory.
    pub fn raise(&mut self, number: u32)
        requires { count_of (entry_at self.old number) < 65535 }
        ensures entries { (n : ℕ) → entry_at self.new n ≡ (if number == n then one_more (entry_at self.old number) else entry_at self.old n) }
        ensures memory { vec_capacity self.new.groups ≡ vec_capacity self.old.groups }
    {
        let entry = self.get(number);
        if entry.is_known() {
            put(&mut self.groups, number as usize, entry.raised());
        }
    }

    /// Lowers the count of the number, where it is known and above zero, by one. Takes no memory.
    pub fn lower(&mut self, number: u32)
        ensures entries { (n : ℕ) → entry_at self.new n ≡ (if number == n then one_less (entry_at self.old number) else entry_at self.old n) }
        ensures memory { vec_capacity self.new.groups ≡ vec_capacity self.old.groups }
    {
        let entry = self.get(number);
        if entry.is_known() {
            put(&mut self.groups, number as usize, entry.lowered());
        }
    }

    /// The least marked number above `after`, or the least of all where there is no `after`, and its key; none where there is
    /// no such number.
    pub fn next_marked_after(&self, after: Option<u32>) -> Option<(u32, u32)>
        ensures next { IfSome result (λ r. IsFirst (key_at self.now) (behind after) r.0 r.1) }
        ensures small { IfSome result (λ r. r.0 < 2 ^ 32) }
        ensures last { IfNone result ((n : ℕ) → behind after ≤ n → key_at self.now n ≡ None) }
    {
        match first_marked(&self.groups, next(after)) {
            Some((number, key)) => Some((number as u32, key)),
            None => None,
        }
    }
}

/// The number behind one, and the first of all where there is none.
fn next(after: Option<u32>) -> usize
    ensures value { result ≡ behind after }
    ensures small { result ≤ 2 ^ 32 }
{
    match after {
        Some(after) => after as usize + 1,
        None => 0,
    }
}
