//! The order of names, limits, and want of memory.

use cc_names::{Limits, Name, NativeNo, NoMemory, ScriptNo};
use std::alloc::AllocError;

/// Whether names are compared as their places are.
fn are_in_order(names: &[Name]) -> bool {
    let mut same = true;
    for (i, x) in names.iter().enumerate() {
        for (j, y) in names.iter().enumerate() {
            same &= x.cmp(y) == i.cmp(&j);
        }
    }
    same
}

#[test]
fn natives_come_before_scripts_before_reflectors(rt: HostRuntime) {
    let in_order = [
        Name::Native(NativeNo(2)),
        Name::Native(NativeNo(10)),
        Name::Script(ScriptNo(1)),
        Name::Script(ScriptNo(3)),
        Name::Reflector(NativeNo(1)),
    ];
    assert!(rt; are_in_order(&in_order));
}

/// Whether these are what limits were made of.
fn are(limits: Limits, natives: u32, scripts: u32, bytes: u32) -> bool {
    (limits.natives() == natives) & (limits.scripts() == scripts) & (limits.bytes() == bytes)
}

#[test]
fn limits_give_back_what_they_were_made_of(rt: HostRuntime) {
    let narrow = Limits::new(Limits::MOST, 0, 12);
    assert!(rt; are(narrow, 1000000, 0, 12));
    assert!(rt; are(Limits::widest(), 1000000, 1000000, 4294967295));
}

#[test]
fn want_of_memory_is_passed_on(rt: HostRuntime) {
    assert!(rt; NoMemory::from(AllocError) == NoMemory);
}
