//! Each call once, over a border of its blocks.

use cc_names::NoMemory;
use cc_pool::Pool;

/// The value at a place; none past the end.
fn value(pool: &Pool<u64, 4>, place: usize) -> Option<u64> {
    if place < pool.len() {
        Some(*pool.at(place))
    } else {
        None
    }
}

/// Puts a value last, for which room is taken where there is none. Whether it stands there.
fn grow(pool: &mut Pool<u64, 4>, value: u64) -> bool {
    if pool.reserve(1).is_err() {
        return false;
    }
    pool.push(value);
    true
}

/// Writes the value at a place, where there is one.
fn write(pool: &mut Pool<u64, 4>, place: usize, value: u64) {
    if place < pool.len() {
        pool.set(place, value);
    }
}

/// Nine values, of which one is written again.
fn fill(pool: &mut Pool<u64, 4>) -> bool {
    let mut grown = pool.is_empty();
    for i in 0..9 {
        grown &= grow(pool, i);
    }
    write(pool, 4, 7);
    grown
}

/// Whether these are the values.
fn has(pool: &Pool<u64, 4>, wanted: &[u64]) -> bool {
    let mut same = pool.len() == wanted.len();
    for (place, wanted) in wanted.iter().enumerate() {
        same &= value(pool, place) == Some(*wanted);
    }
    same
}

#[test]
fn values_are_known_by_place(rt: HostRuntime) {
    let mut pool = Pool::new(rt.alloc());
    assert!(rt; fill(&mut pool));
    assert!(rt; has(&pool, &[0, 1, 2, 3, 7, 5, 6, 7, 8]));
    assert_eq!(rt; pool.reserve(usize::MAX), Err(NoMemory));
    pool.clear();
    assert!(rt; pool.is_empty());
    assert_eq!(rt; pool.reserve(9), Ok(()));
}
