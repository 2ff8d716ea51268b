//! The groups, by the numbers that they have.
ghost use Rattle.std.specs.Prelude.{◌≡◌, ℕ, ◌<◌, ◌≤◌, ◌/◌, ◌%◌, ◌^◌, ◌≢◌, ◌⊎◌, [], length, get_or, vec_capacity, IfNone, IfSome, IsTrue, OnOk};
ghost use Rattle.cc_holders.specs.declared.entry.Entry.{Entry};
ghost use Rattle.cc_holders.specs.Entries.{HasRoom, IsFirst, IsGivenBack, in_groups, in_page_of, key_of, page_in};

use crate::entry::Entry;
use crate::group::{Group, PAGES};
use crate::page::PLACES;
use cc_names::NoMemory;

/// How many groups there are at most: numbers have 32 bits.
const GROUPS: usize = 1_048_576;

/// The groups, by the numbers that they have.
pub(crate) type Table = Vec<Group>;

/// What is known of a number.
pub(crate) fn entry_of(groups: &Table, number: usize) -> Entry
    ensures { result ≡ in_groups groups.now.items number }
{
    let page = number / PLACES;
    match groups.get(page / PAGES) {
        Some(group) => group.entry(page % PAGES, number % PLACES),
        None => Entry::Unknown,
    }
}

/// There is room for what is known of a number. `NoMemory` leaves all as it was.
pub(crate) fn reach(groups: &mut Table, number: usize) -> Result<(), NoMemory>
    requires { number < 2 ^ 32 }
    ensures room { OnOk result (HasRoom groups.new.items number) }
    ensures same { (n : ℕ) → in_groups groups.new.items n ≡ in_groups groups.old.items n }
{
    let page = number / PLACES;
    reach_group(groups, page / PAGES)?;
    groups[page / PAGES].reach(page % PAGES)
}

/// This is known of a number.
#[inline(always)]
pub(crate) fn put(groups: &mut Table, number: usize, entry: Entry)
    requires { HasRoom groups.old.items number }
    ensures here { in_groups groups.new.items number ≡ entry }
    ensures others { (n : ℕ) → n ≢ number → in_groups groups.new.items n ≡ in_groups groups.old.items n }
    ensures given_back { IsGivenBack (page_in groups.new.items number) }
    ensures memory { vec_capacity groups.new ≡ vec_capacity groups.old }
{
    let page = number / PLACES;
    groups[page / PAGES].put(page % PAGES, number % PLACES, entry);
}

/// The first marked number from a number on, and its key; none where there is none, of numbers that have 32 bits.
pub(crate) fn first_marked(groups: &Table, start: usize) -> Option<(usize, u32)>
    ensures found { IfSome result (λ r. IsFirst (λ n. key_of (in_groups groups.now.items n)) start r.0 r.1) }
    ensures small { IfSome result (λ r. r.0 < 2 ^ 32) }
    ensures none { IfNone result ((n : ℕ) → n < 2 ^ 32 → start ≤ n → key_of (in_groups groups.now.items n) ≡ None) }
{
    let last = end(groups);
    let mut number = start;
    while number < last {
        if let Some(found) = first_from(groups, number) {
            return Some(found);
        }
        number = end_of_page(groups, number);
    }
    None
}

/// The first marked number in the page of a number, from this on, and its key; none where there is none.
fn first_from(groups: &Table, number: usize) -> Option<(usize, u32)>
    requires { number < 2 ^ 32 }
    ensures found { IfSome result (λ r. IsFirst (λ n. key_of (in_groups groups.now.items n)) number r.0 r.1) }
    ensures page { IfSome result (λ r. r.0 / 32 ≡ number / 32) }
    ensures none { IfNone result ((n : ℕ) → number ≤ n → n / 32 ≡ number / 32 → key_of (in_groups groups.now.items n) ≡ None) }
{
    let page = number / PLACES;
    match first_in_page(groups, page, number % PLACES) {
        Some((place, key)) => Some((page * PLACES + place, key)),
        None => None,
    }
}

/// The first marked number in a page, from a place on, by its place, and its key; none where there is none.
fn first_in_page(groups: &Table, page: usize, start: usize) -> Option<(usize, u32)>
    ensures found { IfSome result (λ r. IsFirst (λ i. key_of (in_page_of groups.now.items page i)) start r.0 r.1) }
    ensures within { IfSome result (λ r. r.0 < 32) }
    ensures none { IfNone result ((i : ℕ) → start ≤ i → key_of (in_page_of groups.now.items page i) ≡ None) }
{
    match groups.get(page / PAGES) {
        Some(group) => group.first_marked(page % PAGES, start),
        None => None,
    }
}

/// Where the next page of a number's group begins that has a marked number; where there is none, where the group ends.
fn end_of_page(groups: &Table, number: usize) -> usize
    requires { number < 2 ^ 32 }
    ensures rises { number < result }
    ensures passed { (n : ℕ) → number ≤ n → n < result → (n / 32 ≡ number / 32) ⊎ (key_of (in_groups groups.now.items n) ≡ None) }
{
    let page = number / PLACES;
    (page / PAGES * PAGES + next_page(groups, page)) * PLACES
}

/// A number that is above all that are known and have 32 bits.
fn end(groups: &Table) -> usize
    ensures small { result ≤ 2 ^ 32 }
    ensures past { (n : ℕ) → n < 2 ^ 32 → result ≤ n → key_of (in_groups groups.now.items n) ≡ None }
{
    groups.len().min(GROUPS) * PAGES * PLACES
}

/// The first page behind a page that has a marked number, by its place in their group; the end of the group where there is none.
fn next_page(groups: &Table, page: usize) -> usize
    ensures behind { page % 128 < result }
    ensures within { result ≤ 128 }
    ensures passed { (n : ℕ) → n / 32 / 128 ≡ page / 128 → page % 128 < n / 32 % 128 → n / 32 % 128 < result → key_of (in_groups groups.now.items n) ≡ None }
{
    match groups.get(page / PAGES) {
        Some(group) => group.next_marked_page(page % PAGES),
        None => PAGES,
    }
}

/// There is a group at a place, which is empty where there was none, as are those before it. `NoMemory` adds none.
fn reach_group(groups: &mut Table, place: usize) -> Result<(), NoMemory>
    requires { place < 2 ^ 32 }
    ensures room { OnOk result (place < length groups.new.items) }
    ensures same { (k : ℕ) → get_or groups.new.items k [] ≡ get_or groups.old.items k [] }
{
    while groups.len() <= place {
        groups.reserve(1)?;
        let group = Group::new(*groups.allocator());
        groups.push_reserved(group);
    }
    Ok(())
}
