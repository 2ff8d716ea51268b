//! Entries of weak maps: the greatest key, and another delegate for the same key, which no command asks for.
use cc_names::SKey;
use cc_weakmaps::WeakMaps;
use std::alloc::Global;

/// Whether the greatest key is kept as a value, and is replaced by another.
fn keeps_the_greatest_key(alloc: Global) -> bool {
    let mut maps = WeakMaps::new(alloc);
    let made = maps.set(SKey(1), SKey(2), None, SKey(u32::MAX)).is_ok();
    let read = maps.get(SKey(1), SKey(2)) == Some(SKey(u32::MAX));
    let again = maps.set(SKey(1), SKey(2), None, SKey(3)).is_ok();
    made & read & again & (maps.get(SKey(1), SKey(2)) == Some(SKey(3)))
}

/// The delegate that stands with the first entry that an object leads to.
fn first_delegate(maps: &WeakMaps, object: SKey) -> Option<SKey> {
    let place = maps.first_with(object)?;
    maps.entry(place).2
}

/// Sets an entry whose key has a delegate, and again with another one, which no entry had; whether each leads to it while it
/// stands with it.
fn follows_a_delegate(alloc: Global) -> bool {
    let mut maps = WeakMaps::new(alloc);
    let made = maps.set(SKey(1), SKey(2), Some(SKey(3)), SKey(4)).is_ok();
    let read = first_delegate(&maps, SKey(3)) == Some(SKey(3));
    let again = maps.set(SKey(1), SKey(2), Some(SKey(9)), SKey(4)).is_ok();
    let gone = maps.first_with(SKey(3)).is_none();
    let there = first_delegate(&maps, SKey(9)) == Some(SKey(9));
    let by_key = first_delegate(&maps, SKey(2)) == Some(SKey(9));
    made & read & again & gone & there & by_key
}

#[test]
fn entries_are_set_again(rt: HostRuntime) {
    assert!(rt; keeps_the_greatest_key(rt.alloc()));
    assert!(rt; follows_a_delegate(rt.alloc()));
}
