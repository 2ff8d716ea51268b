//! The table: values by number.
ghost use Rattle.std.specs.Prelude.{◌≡◌, ℕ, ◌<◌, ◌≤◌, ◌==◌, ◌^◌, if◌then◌else◌, vec_capacity, unwrap_or, IfNone, IfOk, IfSome, OnErr, OnOk};
ghost use Rattle.cc_pages.specs.Values.{IsFirst, behind, value_at};

use crate::group::{Table, first_in, get_or_put, put, take, value_of};
use cc_names::NoMemory;
use std::alloc::Global;

/// Values by number, of 32 bits each.
///
/// `insert` alone takes memory: that of a page, where the number is the first of its page that has a value.
#[derive(Drop)]
pub struct Pages {
    groups: Table,
}

impl Pages {
    /// No number has a value. Takes no memory.
    pub fn new(alloc: Global) -> Pages
        ensures values { (n : ℕ) → value_at result n ≡ None }
        ensures memory { vec_capacity result.groups ≡ 0 }
    {
        Pages {
            groups: Vec::new(alloc),
        }
    }

    /// No number has a value any more. All pages are given back, at a cost of those that were taken.
    pub fn clear(&mut self)
        ensures values { (n : ℕ) → value_at self.new n ≡ None }
        ensures memory { vec_capacity self.new.groups ≡ vec_capacity self.old.groups }
    {
        self.groups.clear();
    }

    /// The value of a number; none where it has none.
    pub fn get(&self, number: u32) -> Option<u32>
        ensures { result ≡ value_at self.now number }
    {
        value_of(&self.groups, number as usize)
    }

    /// The number has this value from now on, in place of one that it had.
    ///
    /// `NoMemory`, where its page is not there and can't be had, leaves all values as they were.
    pub fn insert(&mut self, number: u32, value: u32) -> Result<(), NoMemory>
        ensures values { OnOk result ((n : ℕ) → value_at self.new n ≡ (if number == n then Some value else value_at self.old n)) }
        ensures err { OnErr result ((n : ℕ) → value_at self.new n ≡ value_at self.old n) }
    {
        put(&mut self.groups, number as usize, value)
    }

    /// The value of a number, which is this one from now on where it had none.
    ///
    /// `NoMemory`, only where it had none and its page is not there and can't be had, leaves all values as they were.
    pub fn get_or_insert(&mut self, number: u32, value: u32) -> Result<u32, NoMemory>
        ensures found { IfOk result (λ v. v ≡ unwrap_or (value_at self.old number) value) }
        ensures values { IfOk result (λ v. (n : ℕ) → value_at self.new n ≡ (if number == n then Some v else value_at self.old n)) }
        ensures err { OnErr result ((n : ℕ) → value_at self.new n ≡ value_at self.old n) }
        ensures absent { OnErr result (value_at self.old number ≡ None) }
    {
        get_or_put(&mut self.groups, number as usize, value)
    }

    /// The number has no value from now on. Its page stays.
    pub fn remove(&mut self, number: u32)
        ensures values { (n : ℕ) → value_at self.new n ≡ (if number == n then None else value_at self.old n) }
        ensures memory { vec_capacity self.new.groups ≡ vec_capacity self.old.groups }
    {
        take(&mut self.groups, number as usize);
    }

    /// The least number above `after` that has a value, or the least of all where there is no `after`, and its value; none
    /// where there is no such number.
    pub fn next_after(&self, after: Option<u32>) -> Option<(u32, u32)>
        ensures next { IfSome result (λ r. IsFirst (value_at self.now) (behind after) r.0 r.1) }
        ensures small { IfSome result (λ r. r.0 < 2 ^ 32) }
        ensures last { IfNone result ((n : ℕ) → behind after ≤ n → value_at self.now n ≡ None) }
    {
        match first_in(&self.groups, next(after)) {
            Some((number, value)) => Some((number as u32, value)),
            None => None,
        }
    }
}

/// The number behind one, and the first of all where there is none.
fn next(after: Option<u32>) -> usize
    ensures value { result ≡ behind after }
    ensures small { result ≤ 2 ^ 32 }
{
    match after {
        Some(after) => after as usize + 1,
        None => 0,
    }
}
