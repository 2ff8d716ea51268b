//! Natives of the counted heap: one is unlinked, and known as such; one that leaves the heap leaves a walk.
ghost use Rattle.std.specs.Prelude.{◌≡◌, []};
ghost use Rattle.cc_counted.specs.Owning.{AreOwned};

use cc_counted::Counted;
use cc_model::Counter;
use cc_names::{NKey, NativeNo};
use std::alloc::Global;

/// Whether a native stands at a key, and was unlinked.
fn is_unlinked(natives: &Counted, key: NKey) -> bool {
    match natives.number(key) {
        Some(_) => natives.unlinked(key),
        None => false,
    }
}

/// Whether a native stands at a key, and is in the walk.
fn is_walked(natives: &Counted, key: NKey) -> bool {
    match natives.number(key) {
        Some(_) => natives.walked(key),
        None => false,
    }
}

/// Whether a native is unlinked once `unlink` was called, and not before.
fn unlinks(natives: &mut Counted, out: &mut Counter) -> bool
    requires first { AreOwned [] natives.old }
    requires empty { natives.old.natives ≡ [] }
{
    match natives.create(NativeNo(1), 1) {
        Ok(key) => {
            let before = is_unlinked(natives, key);
            natives.unlink(key, out);
            !before & is_unlinked(natives, key)
        }
        Err(_) => false,
    }
}

fn new_native_unlinks(alloc: Global) -> bool {
    let mut natives = Counted::new(alloc);
    let mut out = Counter::new();
    unlinks(&mut natives, &mut out)
}

#[test]
fn unlinked_native_is_known(rt: HostRuntime) {
    assert!(rt; new_native_unlinks(rt.alloc()));
}

/// Of two natives that wait in a walk one is released: whether the other alone is given, once, and is out of it in the end.
fn walks(natives: &mut Counted, out: &mut Counter) -> bool
    requires first { AreOwned [] natives.old }
    requires empty { natives.old.natives ≡ [] }
{
    let Ok(kept) = natives.create(NativeNo(1), 0) else {
        return false;
    };
    let Ok(released) = natives.create(NativeNo(2), 0) else {
        return false;
    };
    natives.walk_add(kept);
    natives.walk_add(released);
    natives.release(released, out);
    let given = is_walked(natives, kept) & (natives.walk_next() == Some(kept));
    let none = natives.walk_next().is_none();
    natives.walk_clear();
    given & none & !is_walked(natives, kept)
}

fn new_natives_are_walked(alloc: Global) -> bool {
    let mut natives = Counted::new(alloc);
    let mut out = Counter::new();
    walks(&mut natives, &mut out)
}

#[test]
fn a_walk_does_not_give_a_native_that_is_gone(rt: HostRuntime) {
    assert!(rt; new_natives_are_walked(rt.alloc()));
}
