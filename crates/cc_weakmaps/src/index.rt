//! The index of entries by the objects that they have for their map, their key or their delegate.
//!
//! Each entry has the last places before it of its map, of its key and of its delegate, and of each object the last
//! place of all is kept: so from an object a chain goes through its entries, from the last one to the first. Entries come into the index in order
//! and leave it from its end, each with two last places written, and a third where it has a delegate.
ghost use Rattle.std.specs.Prelude.{◌≡◌, ℕ, ◌+◌, ◌<◌, ◌≤◌, length, max, vec_capacity, OnOk};
ghost use Rattle.cc_weakmaps.specs.Index.{AreFew, AreKnown, IsIndexed, IsKnown, greatest, last_kept};
ghost use Rattle.cc_weakmaps.specs.Lasts.{KeepsRoom};

use crate::entry::Entry;
use crate::lasts::Lasts;
use crate::links::Links;
use cc_names::NoMemory;

/// Map, key and delegate of an entry are known from then on, with all of lower keys and no other. `NoMemory` comes only where
/// one of them was not known.
pub(crate) fn know(lasts: &mut Lasts, entry: Entry) -> Result<(), NoMemory>
    ensures known { OnOk result (IsKnown (length lasts.new.places.items) entry) }
    ensures others { length lasts.old.places.items ≤ length lasts.new.places.items }
    ensures most { length lasts.new.places.items ≤ max (length lasts.old.places.items) (greatest entry.the_map entry.key entry.delegate + 1) }
    ensures places { (k : ℕ) → last_kept lasts.new.places.items k ≡ last_kept lasts.old.places.items k }
{
    lasts.know_both(entry.the_map.0, entry.key.0)?;
    if let Some(delegate) = entry.delegate {
        lasts.know_both(entry.key.0, delegate.0)?;
    }
    Ok(())
}

/// Puts the entry at a place into the index, which has those before it. Each place must fit in 32 bits.
pub(crate) fn put_in(lasts: &mut Lasts, links: &mut Vec<Links>, entries: &[Entry], place: usize)
    requires within { place < length entries.now }
    requires room { length entries.now ≤ length links.old.items }
    requires few { AreFew entries.now }
    requires known { AreKnown entries.now lasts.old.places.items }
    requires indexed { IsIndexed entries.now links.old.items lasts.old.places.items place }
    ensures indexed { IsIndexed entries.now links.new.items lasts.new.places.items (place + 1) }
    ensures count { length links.new.items ≡ length links.old.items }
    ensures known { AreKnown entries.now lasts.new.places.items }
    ensures memory { KeepsRoom lasts.old lasts.new }
    ensures links_memory { vec_capacity links.new ≡ vec_capacity links.old }
{
    let entry = entries[place];
    let (the_map, key) = (entry.the_map.0, entry.key.0);
    links[place] = Links {
        by_map: lasts.last(the_map),
        by_key: lasts.last(key),
        by_delegate: lasts.last_of(entry.delegate),
    };
    lasts.keep(the_map, Some(place as u32));
    lasts.keep(key, Some(place as u32));
    lasts.keep_of(entry.delegate, Some(place as u32));
}

/// Takes the entry at a place out of the index, of which it is the last.
pub(crate) fn take_out(lasts: &mut Lasts, links: &[Links], entries: &[Entry], place: usize)
    requires within { place < length entries.now }
    requires count { length links.now ≡ length entries.now }
    requires known { AreKnown entries.now lasts.old.places.items }
    requires indexed { IsIndexed entries.now links.now lasts.old.places.items (place + 1) }
    ensures indexed { IsIndexed entries.now links.now lasts.new.places.items place }
    ensures known { AreKnown entries.now lasts.new.places.items }
    ensures memory { KeepsRoom lasts.old lasts.new }
{
    let entry = entries[place];
    let (the_map, key) = (entry.the_map.0, entry.key.0);
    let before = links[place];
    lasts.keep(the_map, before.by_map);
    lasts.keep(key, before.by_key);
    lasts.keep_of(entry.delegate, before.by_delegate);
}

/// Puts the entries from a place on into the index, which has those before it. Each place must fit in 32 bits. Takes no
/// memory.
pub(crate) fn put_in_from(
    lasts: &mut Lasts,
    links: &mut Vec<Links>,
    entries: &[Entry],
    start: usize,
)
    requires within { start ≤ length entries.now }
    requires room { length entries.now ≤ length links.old.items }
    requires few { AreFew entries.now }
    requires known { AreKnown entries.now lasts.old.places.items }
    requires indexed { IsIndexed entries.now links.old.items lasts.old.places.items start }
    ensures indexed { IsIndexed entries.now links.new.items lasts.new.places.items (length entries.now) }
    ensures count { length links.new.items ≡ length links.old.items }
    ensures memory { KeepsRoom lasts.old lasts.new }
    ensures links_memory { vec_capacity links.new ≡ vec_capacity links.old }
{
    for place in start..entries.len() {
        put_in(lasts, links, entries, place);
    }
}

/// Takes the entries from a place on out of the index, which has all, the last one first. Takes no memory.
pub(crate) fn take_out_from(lasts: &mut Lasts, links: &[Links], entries: &[Entry], start: usize)
    requires within { start ≤ length entries.now }
    requires count { length links.now ≡ length entries.now }
    requires indexed { IsIndexed entries.now links.now lasts.old.places.items (length entries.now) }
    ensures indexed { IsIndexed entries.now links.now lasts.new.places.items start }
    ensures known { AreKnown entries.now lasts.new.places.items }
    ensures memory { KeepsRoom lasts.old lasts.new }
{
    let mut end = entries.len();
    while end > start {
        end -= 1;
        take_out(lasts, links, entries, end);
    }
}
