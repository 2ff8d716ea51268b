//! Each call once, and a list in which most places were emptied.

use cc_listed::Listed;
use cc_names::{Name, NativeNo, ScriptNo};
use std::alloc::Global;

fn native(number: u32) -> Name {
    Name::Native(NativeNo(number))
}

fn object(number: u32) -> Name {
    Name::Script(ScriptNo(number))
}

fn reflector(number: u32) -> Name {
    Name::Reflector(NativeNo(number))
}

/// The name goes last, where it is not there. Whether there was memory.
fn add(listed: &mut Listed, name: Name) -> bool {
    listed.has(&name) || listed.push(name).is_ok()
}

fn add_each(listed: &mut Listed, names: &[Name]) -> bool {
    let mut added = true;
    for name in names {
        added &= add(listed, *name);
    }
    added
}

/// Whether these names are there, or these are not.
fn are_there(listed: &Listed, names: &[Name], there: bool) -> bool {
    let mut same = true;
    for name in names {
        same &= listed.has(name) == there;
    }
    same
}

/// Whether these names are listed, in this order.
fn lists(alloc: Global, listed: &mut Listed, wanted: &[Name]) -> bool {
    match listed.census(alloc) {
        Ok(names) => (names.as_slice() == wanted) & (listed.len() == wanted.len()),
        Err(_) => false,
    }
}

#[test]
fn names_come_and_go(rt: HostRuntime) {
    let mut listed = Listed::new(rt.alloc());
    let names = [object(2), native(3), reflector(1), native(1), object(1)];
    assert!(rt; add_each(&mut listed, &names) & are_there(&listed, &names, true));
    listed.remove(&object(2));
    listed.remove(&native(3));
    listed.remove(&native(7));
    assert!(rt; are_there(&listed, &[object(2), native(3), native(7)], false));
    assert!(rt; add(&mut listed, object(2)));
    assert!(rt;
        lists(
            rt.alloc(),
            &mut listed,
            &[native(1), reflector(1), object(1), object(2)]
        )
    );
}

/// Of a hundred names all but two go.
fn empties(listed: &mut Listed) -> bool {
    let mut added = true;
    for number in 0..100 {
        added &= add(listed, native(number));
    }
    for number in 0..100 {
        if number % 40 != 20 {
            listed.remove(&native(number));
        }
    }
    added
}

#[test]
fn names_close_up(rt: HostRuntime) {
    let mut listed = Listed::new(rt.alloc());
    assert!(rt; empties(&mut listed));
    assert!(rt; lists(rt.alloc(), &mut listed, &[native(20), native(60)]));
    assert!(rt; add(&mut listed, native(7)));
    listed.remove(&native(20));
    assert!(rt; lists(rt.alloc(), &mut listed, &[native(60), native(7)]));
}
