//! Each call once, over the borders of pages and groups.

use cc_holders::{Entry, Holders};
use cc_names::NoMemory;

/// Seven numbers: the first and the last of all, and two on both sides of a border of pages and of one of groups.
fn fill(holders: &mut Holders) -> Result<(), NoMemory> {
    holders.add(u32::MAX, 7)?;
    holders.add(31, 2)?;
    holders.add(0, 1)?;
    holders.add(32, 3)?;
    holders.add(4095, 4)?;
    holders.add(4096, 5)?;
    holders.add(100_000, 6)
}

/// Whether each of these numbers is known as that, with a count of 0; or not known.
fn are_known(holders: &Holders, wanted: &[(u32, Option<u32>)]) -> bool {
    let mut known = true;
    for (number, key) in wanted {
        known &= match key {
            Some(key) => holders.get(*number) == Entry::Known(0, *key),
            None => holders.get(*number) == Entry::Unknown,
        };
    }
    known
}

/// Whether these are the marked numbers, with their keys, in order.
fn are_marked(holders: &Holders, wanted: &[(u32, u32)]) -> bool {
    let mut marked = true;
    let mut last = None;
    for (number, key) in wanted {
        marked &= holders.next_marked_after(last) == Some((*number, *key));
        last = Some(*number);
    }
    marked & holders.next_marked_after(last).is_none()
}

/// Raises the count of a number, where it is below the greatest.
fn raise(holders: &mut Holders, number: u32) {
    let count = match holders.get(number) {
        Entry::Known(count, _) => count,
        Entry::Unknown => 0,
    };
    if count < u16::MAX {
        holders.raise(number);
    }
}

fn raise_each(holders: &mut Holders, numbers: &[u32]) {
    for number in numbers {
        raise(holders, *number);
    }
}

/// Whether numbers are known once they were added, and none is marked.
fn knows(holders: &mut Holders) -> bool {
    let filled = fill(holders).is_ok();
    let known = are_known(
        holders,
        &[(0, Some(1)), (32, Some(3)), (u32::MAX, Some(7)), (33, None)],
    );
    filled & known & are_marked(holders, &[])
}

/// Whether marked numbers come in order.
fn marks(holders: &mut Holders) -> bool {
    raise_each(holders, &[u32::MAX, 32, 31, 4096, 4095, 33]);
    are_marked(
        holders,
        &[(31, 2), (32, 3), (4095, 4), (4096, 5), (u32::MAX, 7)],
    )
}

/// Whether the mark of one number goes, and another number, which is added again.
fn changes(holders: &mut Holders) -> bool {
    holders.lower(31);
    holders.remove(32);
    let gone = are_known(holders, &[(31, Some(2)), (32, None)]);
    let added = holders.add(32, 8).is_ok();
    gone & added & are_known(holders, &[(32, Some(8))])
}

#[test]
fn numbers_are_known_and_marked_ones_come_in_order(rt: HostRuntime) {
    let mut holders = Holders::new(rt.alloc());
    assert!(rt; knows(&mut holders));
    assert!(rt; marks(&mut holders));
    assert!(rt; changes(&mut holders));
    assert!(rt; are_marked(&holders, &[(4095, 4), (4096, 5), (u32::MAX, 7)]));
}
