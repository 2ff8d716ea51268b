//! Groups of pages, and the pages in them. They are made where they are wanted, and empty at first.
ghost use Rattle.std.specs.Prelude.{◌≡◌, ℕ, ◌+◌, ◌<◌, ◌≤◌, ◌/◌, ◌^◌, ◌≢◌, ◌⊎◌, length, vec_capacity, unwrap_or, true, false, IfNone, IfOk, IfSome, IsTrue, OnErr, OnOk};
ghost use Rattle.cc_pages.specs.Values.{HasEmpty, IsFirst, at_number, in_group, in_groups, within_group};

use crate::page::{
    PLACES, Page, first_in_page, put_if_there_in_page, put_in_page, take_from_page, value_in_page,
};
use cc_names::NoMemory;

/// How many pages a group has.
const PAGES: usize = 64;

/// How many numbers a group has.
const NUMBERS: usize = PAGES * PLACES;

/// How many groups there are at most: numbers have 32 bits.
const GROUPS: usize = 524_288;

/// A group of pages; one of which no page was taken is empty.
type Group = Vec<Page>;

/// The groups, by the numbers that they have.
pub(crate) type Table = Vec<Group>;

/// The value of a number; none where it has none.
pub(crate) fn value_of(groups: &Table, number: usize) -> Option<u32>
    ensures { result ≡ in_groups groups.now.items number }
{
    let page = number / PLACES;
    match groups.get(page / PAGES) {
        Some(group) => value_in_group(group, page % PAGES, number % PLACES),
        None => None,
    }
}

/// The number has a value. `NoMemory` leaves all values as they were.
// where its page is there nothing is called, so that this can be laid into its callers
pub(crate) fn put(groups: &mut Table, number: usize, value: u32) -> Result<(), NoMemory>
    ensures here { OnOk result (in_groups groups.new.items number ≡ Some value) }
    ensures others { OnOk result ((n : ℕ) → n ≢ number → in_groups groups.new.items n ≡ in_groups groups.old.items n) }
    ensures err { OnErr result ((n : ℕ) → in_groups groups.new.items n ≡ in_groups groups.old.items n) }
{
    if put_if_there(groups, number, value) {
        return Ok(());
    }
    put_in_new(groups, number, value)
}

/// The number has a value, where its page is there; else all values stay. Whether its page is there.
fn put_if_there(groups: &mut Table, number: usize, value: u32) -> bool
    ensures here { IsTrue result → in_groups groups.new.items number ≡ Some value }
    ensures others { (n : ℕ) → n ≢ number → in_groups groups.new.items n ≡ in_groups groups.old.items n }
    ensures same { result ≡ false → (n : ℕ) → in_groups groups.new.items n ≡ in_groups groups.old.items n }
{
    let page = number / PLACES;
    if page / PAGES >= groups.len() {
        return false;
    }
    put_if_there_in_group(
        &mut groups[page / PAGES],
        page % PAGES,
        number % PLACES,
        value,
    )
}

/// The number has a value; its page is taken where it is not there. `NoMemory` leaves all values as they were.
#[inline(never)]
fn put_in_new(groups: &mut Table, number: usize, value: u32) -> Result<(), NoMemory>
    ensures here { OnOk result (in_groups groups.new.items number ≡ Some value) }
    ensures others { OnOk result ((n : ℕ) → n ≢ number → in_groups groups.new.items n ≡ in_groups groups.old.items n) }
    ensures err { OnErr result ((n : ℕ) → in_groups groups.new.items n ≡ in_groups groups.old.items n) }
{
    let page = number / PLACES;
    reach(groups, page / PAGES)?;
    let group = &mut groups[page / PAGES];
    put_in_group(group, page % PAGES, number % PLACES, value)
}

/// The value of a number, which is this one from now on where it had none. `NoMemory`, only where it had none, leaves all
/// values as they were.
pub(crate) fn get_or_put(groups: &mut Table, number: usize, value: u32) -> Result<u32, NoMemory>
    ensures found { IfOk result (λ v. v ≡ unwrap_or (in_groups groups.old.items number) value) }
    ensures here { IfOk result (λ v. in_groups groups.new.items number ≡ Some v) }
    ensures others { OnOk result ((n : ℕ) → n ≢ number → in_groups groups.new.items n ≡ in_groups groups.old.items n) }
    ensures err { OnErr result ((n : ℕ) → in_groups groups.new.items n ≡ in_groups groups.old.items n) }
    ensures absent { OnErr result (in_groups groups.old.items number ≡ None) }
{
    if let Some(found) = value_of(groups, number) {
        return Ok(found);
    }
    put(groups, number, value)?;
    Ok(value)
}

/// The number has no value. Takes no memory.
pub(crate) fn take(groups: &mut Table, number: usize)
    ensures here { in_groups groups.new.items number ≡ None }
    ensures others { (n : ℕ) → n ≢ number → in_groups groups.new.items n ≡ in_groups groups.old.items n }
    ensures memory { vec_capacity groups.new ≡ vec_capacity groups.old }
{
    let page = number / PLACES;
    if page / PAGES < groups.len() {
        take_from_group(&mut groups[page / PAGES], page % PAGES, number % PLACES);
    }
}

/// The first value from a number on, and its number; none where there is none, of numbers that have 32 bits.
// a number that is followed by the next one costs a look-up and no walk
pub(crate) fn first_in(groups: &Table, start: usize) -> Option<(usize, u32)>
    ensures found { IfSome result (λ r. IsFirst (in_groups groups.now.items) start r.0 r.1) }
    ensures small { IfSome result (λ r. r.0 < 2 ^ 32) }
    ensures none { IfNone result ((n : ℕ) → n < 2 ^ 32 → start ≤ n → in_groups groups.now.items n ≡ None) }
{
    if start < GROUPS * NUMBERS {
        if let Some(value) = value_of(groups, start) {
            return Some((start, value));
        }
    }
    walk(groups, start)
}

/// The same, by a walk over the groups.
#[inline(never)]
fn walk(groups: &Table, start: usize) -> Option<(usize, u32)>
    ensures found { IfSome result (λ r. IsFirst (in_groups groups.now.items) start r.0 r.1) }
    ensures small { IfSome result (λ r. r.0 < 2 ^ 32) }
    ensures none { IfNone result ((n : ℕ) → n < 2 ^ 32 → start ≤ n → in_groups groups.now.items n ≡ None) }
{
    let last = end(groups);
    let mut number = start;
    while number < last {
        if let Some(found) = first_from(groups, number) {
            return Some(found);
        }
        number = end_of_group(number);
    }
    None
}

/// The first value in the group of a number, from this number on, and its number; none where there is none.
fn first_from(groups: &Table, number: usize) -> Option<(usize, u32)>
    requires { number < 2 ^ 32 }
    ensures found { IfSome result (λ r. IsFirst (in_groups groups.now.items) number r.0 r.1) }
    ensures group { IfSome result (λ r. r.0 / 8192 ≡ number / 8192) }
    ensures none { IfNone result ((n : ℕ) → number ≤ n → n / 8192 ≡ number / 8192 → in_groups groups.now.items n ≡ None) }
{
    let group = number / NUMBERS;
    match first_in_groups(groups, group, number % NUMBERS) {
        Some((within, value)) => Some((group * NUMBERS + within, value)),
        None => None,
    }
}

/// Where the group of a number ends.
fn end_of_group(number: usize) -> usize
    requires { number < 2 ^ 32 }
    ensures rises { number < result }
    ensures group { (n : ℕ) → number ≤ n → n < result → n / 8192 ≡ number / 8192 }
{
    (number / NUMBERS + 1) * NUMBERS
}

/// A number that is above all that have a value and have 32 bits.
fn end(groups: &Table) -> usize
    ensures small { result ≤ 2 ^ 32 }
    ensures past { (n : ℕ) → n < 2 ^ 32 → result ≤ n → in_groups groups.now.items n ≡ None }
{
    groups.len().min(GROUPS) * NUMBERS
}

/// The first value in a group, from a number within the group on, and its number within the group; none where there is
/// none.
fn first_in_groups(groups: &Table, group: usize, start: usize) -> Option<(usize, u32)>
    ensures found { IfSome result (λ r. IsFirst (within_group groups.now.items group) start r.0 r.1) }
    ensures small { IfSome result (λ r. r.0 < 8192) }
    ensures none { IfNone result ((m : ℕ) → start ≤ m → m < 8192 → within_group groups.now.items group m ≡ None) }
{
    match groups.get(group) {
        Some(group) => first_in_group(group, start),
        None => None,
    }
}

/// The first value in a group, from a number within it on, and its number within it; none where there is none.
fn first_in_group(group: &Group, start: usize) -> Option<(usize, u32)>
    ensures found { IfSome result (λ r. IsFirst (at_number group.now.items) start r.0 r.1) }
    ensures small { IfSome result (λ r. r.0 < 8192) }
    ensures none { IfNone result ((m : ℕ) → start ≤ m → m < 8192 → at_number group.now.items m ≡ None) }
{
    let pages = group.len().min(PAGES);
    let mut from = start % PLACES;
    for page in start / PLACES..pages {
        if let Some((place, value)) = first_at(group, page, from) {
            return Some((page * PLACES + place, value));
        }
        from = 0;
    }
    None
}

/// The first value in a page, by its place in the group, from a place on, and its place; none where there is none.
fn first_at(group: &Group, page: usize, start: usize) -> Option<(usize, u32)>
    ensures found { IfSome result (λ r. IsFirst (in_group group.now.items page) start r.0 r.1) }
    ensures within { IfSome result (λ r. r.0 < 128) }
    ensures none { IfNone result ((i : ℕ) → start ≤ i → i < 128 → in_group group.now.items page i ≡ None) }
{
    match group.get(page) {
        Some(page) => first_in_page(page, start),
        None => None,
    }
}

/// The value at a place of a page, by the page's place in the group; none where none is.
fn value_in_group(group: &Group, page: usize, place: usize) -> Option<u32>
    ensures { result ≡ in_group group.now.items page place }
{
    match group.get(page) {
        Some(page) => value_in_page(page, place),
        None => None,
    }
}

/// A value stands at a place of a page. `NoMemory` leaves all values as they were.
fn put_in_group(group: &mut Group, page: usize, place: usize, value: u32) -> Result<(), NoMemory>
    requires page { page < 64 }
    requires place { place < 128 }
    ensures here { OnOk result (in_group group.new.items page place ≡ Some value) }
    ensures others { OnOk result ((k i : ℕ) → (k ≡ page → i ≡ place → ⊥) → in_group group.new.items k i ≡ in_group group.old.items k i) }
    ensures err { OnErr result ((k i : ℕ) → in_group group.new.items k i ≡ in_group group.old.items k i) }
{
    reach(group, page)?;
    put_in_page(&mut group[page], place, value)
}

/// A value stands at a place of a page, where the page is there; else all values stay. Whether the page is there.
fn put_if_there_in_group(group: &mut Group, page: usize, place: usize, value: u32) -> bool
    ensures here { IsTrue result → in_group group.new.items page place ≡ Some value }
    ensures others { (k i : ℕ) → (k ≡ page → i ≡ place → ⊥) → in_group group.new.items k i ≡ in_group group.old.items k i }
    ensures same { result ≡ false → (k i : ℕ) → in_group group.new.items k i ≡ in_group group.old.items k i }
{
    if page >= group.len() {
        return false;
    }
    put_if_there_in_page(&mut group[page], place, value)
}

/// No value stands at a place of a page. Takes no memory.
fn take_from_group(group: &mut Group, page: usize, place: usize)
    ensures here { in_group group.new.items page place ≡ None }
    ensures others { (k i : ℕ) → (k ≡ page → i ≡ place → ⊥) → in_group group.new.items k i ≡ in_group group.old.items k i }
{
    if page < group.len() {
        take_from_page(&mut group[page], place);
    }
}

/// There is a list at a place, which is empty where there was none, as are those before it. `NoMemory` adds none.
fn reach<T>(lists: &mut Vec<Vec<T>>, place: usize) -> Result<(), NoMemory>
    requires { place < 2 ^ 63 }
    ensures added { HasEmpty lists.old.items lists.new.items }
    ensures room { OnOk result (place < length lists.new.items) }
    ensures absent { OnErr result (length lists.old.items ≤ place) }
{
    let count = lists.len();
    if place < count {
        return Ok(());
    }
    let missing = place - count + 1;
    lists.reserve(missing)?;
    for _ in 0..missing {
        add_empty(lists);
    }
    Ok(())
}

/// One more list goes last, which is empty. Takes no memory.
fn add_empty<T>(lists: &mut Vec<Vec<T>>)
    requires { length lists.old.items < vec_capacity lists.old }
    ensures added { HasEmpty lists.old.items lists.new.items }
    ensures longer { length lists.new.items ≡ length lists.old.items + 1 }
    ensures capacity { vec_capacity lists.new ≡ vec_capacity lists.old }
{
    let list = Vec::new(*lists.allocator());
    lists.push_reserved(list);
}
