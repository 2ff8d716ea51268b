//! A walk over both heaps: natives are given first, and what leaves its heap is not given.
ghost use Rattle.std.specs.Prelude.{[]};
ghost use Rattle.cc_heaps.specs.Keyed.{IsInOrder};

use cc_counted::Held;
use cc_heaps::Heaps;
use cc_model::Notebook;
use cc_names::Limits;
use std::alloc::Global;

// Whether the first register of each kind holds what is in the walk, or what is not.
fn are_walked(heaps: &Heaps, wanted: bool) -> bool {
    let native = match heaps.native_reg(0) {
        Some(key) => heaps.walked(Held::Native(key)) == wanted,
        None => false,
    };
    let object = match heaps.script_reg(0) {
        Some(key) => heaps.walked(Held::Script(key)) == wanted,
        None => false,
    };
    native & object
}

// A native and a script object are given once each, the native first, and are in the walk until it is emptied.
fn walks(heaps: &mut Heaps, out: &mut Notebook) -> bool
    requires { IsInOrder [] heaps.old }
{
    let made = heaps.new_native(0, 0, out).is_ok() & heaps.new_plain(0, 0).is_ok();
    let (Some(native), Some(object)) = (heaps.native_reg(0), heaps.script_reg(0)) else {
        return false;
    };
    heaps.walk_add(Held::Script(object));
    heaps.walk_add(Held::Native(native));
    let first = heaps.walk_next() == Some(Held::Native(native));
    let second = heaps.walk_next() == Some(Held::Script(object));
    let given = first & second & heaps.walk_next().is_none() & are_walked(heaps, true);
    heaps.walk_clear();
    made & given & are_walked(heaps, false)
}

fn new_objects_are_walked(alloc: Global) -> bool {
    let mut out = Notebook::new(alloc);
    match Heaps::new(alloc, Limits::new(1, 1, 0)) {
        Ok(mut heaps) => walks(&mut heaps, &mut out),
        Err(_) => false,
    }
}

#[test]
fn a_walk_gives_natives_first(rt: HostRuntime) {
    assert!(rt; new_objects_are_walked(rt.alloc()));
}

// A native that is freed while it waits is not given.
fn leaves(heaps: &mut Heaps, out: &mut Notebook) -> bool
    requires { IsInOrder [] heaps.old }
{
    let made = heaps.new_native(0, 0, out).is_ok();
    let Some(native) = heaps.native_reg(0) else {
        return false;
    };
    heaps.walk_add(Held::Native(native));
    heaps.set_native_reg(0, None, out);
    made & heaps.walk_next().is_none()
}

fn freed_native_leaves(alloc: Global) -> bool {
    let mut out = Notebook::new(alloc);
    match Heaps::new(alloc, Limits::new(1, 1, 0)) {
        Ok(mut heaps) => leaves(&mut heaps, &mut out),
        Err(_) => false,
    }
}

#[test]
fn what_is_freed_leaves_the_walk(rt: HostRuntime) {
    assert!(rt; freed_native_leaves(rt.alloc()));
}
