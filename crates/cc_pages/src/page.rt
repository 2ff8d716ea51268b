//! One page: the values of so many numbers that follow one another.
ghost use Rattle.std.specs.Prelude.{◌≡◌, ℕ, ◌<◌, ◌≤◌, ◌==◌, length, if◌then◌else◌, false, IfNone, IfSome, IsTrue, OnErr, OnOk};
ghost use Rattle.cc_pages.specs.Values.{IsFirst, in_page};

use cc_names::NoMemory;

/// How many places a page has, one for each of its numbers.
pub(crate) const PLACES: usize = 128;

/// A page; one that was not taken is empty.
pub(crate) type Page = Vec<Option<u32>>;

/// The value at a place; none where none is, and past the end.
pub(crate) fn value_in_page(page: &Page, place: usize) -> Option<u32>
    ensures { result ≡ in_page page.now place }
{
    match page.get(place) {
        Some(value) => *value,
        None => None,
    }
}

/// A value stands at a place. `NoMemory` leaves all values as they were.
pub(crate) fn put_in_page(page: &mut Page, place: usize, value: u32) -> Result<(), NoMemory>
    requires { place < 128 }
    ensures put { OnOk result ((i : ℕ) → in_page page.new i ≡ (if place == i then Some value else in_page page.old i)) }
    ensures err { OnErr result ((i : ℕ) → in_page page.new i ≡ in_page page.old i) }
{
    fill(page)?;
    write(page, place, Some(value));
    Ok(())
}

/// A value stands at a place, where the page has it; else all values stay. Whether it has it.
pub(crate) fn put_if_there_in_page(page: &mut Page, place: usize, value: u32) -> bool
    ensures put { IsTrue result → (i : ℕ) → in_page page.new i ≡ (if place == i then Some value else in_page page.old i) }
    ensures same { result ≡ false → (i : ℕ) → in_page page.new i ≡ in_page page.old i }
{
    if place >= page.len() {
        return false;
    }
    write(page, place, Some(value));
    true
}

/// No value stands at a place. Takes no memory.
pub(crate) fn take_from_page(page: &mut Page, place: usize)
    ensures { (i : ℕ) → in_page page.new i ≡ (if place == i then None else in_page page.old i) }
{
    if place < page.len() {
        write(page, place, None);
    }
}

/// The first value from a place on, and its place; none where there is none.
pub(crate) fn first_in_page(page: &Page, start: usize) -> Option<(usize, u32)>
    ensures found { IfSome result (λ r. IsFirst (in_page page.now) start r.0 r.1) }
    ensures within { IfSome result (λ r. r.0 < 128) }
    ensures none { IfNone result ((i : ℕ) → start ≤ i → i < 128 → in_page page.now i ≡ None) }
{
    let end = page.len().min(PLACES);
    for place in start..end {
        if let Some(value) = page[place] {
            return Some((place, value));
        }
    }
    None
}

/// All places of a page are there. `NoMemory` leaves all values as they were.
fn fill(page: &mut Page) -> Result<(), NoMemory>
    ensures room { OnOk result (128 ≤ length page.new.items) }
    ensures same { (i : ℕ) → in_page page.new i ≡ in_page page.old i }
{
    if page.len() < PLACES {
        page.resize(PLACES, None)?;
    }
    Ok(())
}

/// A value stands at a place that is there, or none does.
fn write(page: &mut Page, place: usize, value: Option<u32>)
    requires { place < length page.old.items }
    ensures { (i : ℕ) → in_page page.new i ≡ (if place == i then value else in_page page.old i) }
{
    page[place] = value;
}
