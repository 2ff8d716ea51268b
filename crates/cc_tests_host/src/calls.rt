//! A host in use: each call that takes memory goes well, and ten thousand roots hold.
//!
//! Each function makes two or three calls alone, since the check of a long one takes minutes. What a host answers else, its
//! stops among it, is tried through the C interface (`tools/c`).
use cc_host::{Ended, Host, Marks, Name, Object, Root, ScriptNo, Stop, Weak};
use std::alloc::Global;

// What a call made; where it made none, an object that never was, which every call refuses.
fn made(answer: Result<Object, Stop>) -> Object {
    match answer {
        Ok(x) => x,
        Err(_) => Object {
            name: Name::Script(ScriptNo(999)),
            key: 4_294_967_295,
            mark: 1,
        },
    }
}

// A native with as many slots as one may have, and a plain object.
fn make_two(s: &mut Host) -> (Object, Object) {
    (made(s.new_native(0, 256)), made(s.new_plain(0, 1)))
}

// A proxy of an object has that for its value in a weak map.
fn enters(s: &mut Host, object: Object) -> bool {
    let the_map = made(s.new_map(1));
    let proxy = made(s.new_proxy(2, object));
    s.set_entry(the_map, proxy, object).is_ok()
}

// The number of a native, and why its reflector is there.
fn explains(s: &mut Host, native: Object) -> bool {
    let given = s.set_data(native, 77).is_ok();
    let reflector = made(s.wrap(native));
    given & s.why(reflector).is_ok()
}

// The native that was wrapped is a suspect, and a root holds it.
fn collects(s: &mut Host) -> bool {
    let forgotten = s.forget() == 1;
    let sliced = s.slice(1_000) == Ok(Ended::Yes);
    forgotten & sliced & s.collect().is_ok()
}

// So many roots hold an object, as many times.
fn holds_often(s: &mut Host, x: Object) -> bool {
    let mut held = true;
    for _ in 0..10_000 {
        held &= s.root(x).is_ok();
    }
    held
}

// What roots hold stays when its numbered root is empty. The roots are no objects, so there is one native.
fn stays(s: &mut Host) -> bool {
    let emptied = s.set_native_root(0, None).is_ok();
    emptied & s.settle().is_ok() & (s.natives() == 1)
}

fn goes_well(s: &mut Host) -> bool {
    let (x, y) = make_two(s);
    let used = enters(s, y) & explains(s, x) & collects(s);
    used & holds_often(s, x) & stays(s)
}

fn opens_and_goes_well(alloc: Global) -> bool {
    match Host::new(alloc, 1, 3, &mut Marks::new()) {
        Ok(mut s) => goes_well(&mut s),
        Err(_) => false,
    }
}

#[test]
fn each_call_that_takes_memory_goes_well(rt: HostRuntime) {
    assert!(rt; opens_and_goes_well(rt.alloc()));
}

// A root holds what it was given until it is released, and is refused from then on. The next one stands at its place.
fn lets_go(s: &mut Host, x: Object, root: Root) -> bool {
    let holds = s.held(root) == Ok(x);
    let released = s.release(root).is_ok();
    let refused = (s.held(root) == Err(Stop::Gone)) & (s.release(root) == Err(Stop::Gone));
    holds & released & refused & takes_its_place(s, x, root)
}

fn takes_its_place(s: &mut Host, x: Object, root: Root) -> bool {
    match s.root(x) {
        Ok(next) => (next.index == root.index) & (next != root) & (s.held(next) == Ok(x)),
        Err(_) => false,
    }
}

fn holds_until_released(s: &mut Host, x: Object) -> bool {
    match s.root(x) {
        Ok(root) => lets_go(s, x, root),
        Err(_) => false,
    }
}

fn opens_and_lets_go(alloc: Global) -> bool {
    match Host::new(alloc, 1, 1, &mut Marks::new()) {
        Ok(mut s) => {
            let x = made(s.new_native(0, 1));
            let y = made(s.new_plain(0, 1));
            holds_until_released(&mut s, x) & holds_until_released(&mut s, y)
        }
        Err(_) => false,
    }
}

#[test]
fn a_root_holds_until_it_is_released(rt: HostRuntime) {
    assert!(rt; opens_and_lets_go(rt.alloc()));
}

// A native that no root holds is brought back by a weak reference, into a numbered root and into one without number.
fn comes_back(s: &mut Host, w: Weak) -> bool {
    let emptied = s.set_native_root(0, None).is_ok();
    let into = matches!(s.upgrade_into(1, w), Ok(Some(_)));
    emptied & into & matches!(s.upgrade(w), Ok(Some(_)))
}

// A native that holds itself stays while it is not collected.
fn refers(s: &mut Host, x: Object) -> bool {
    let stored = s.store(x, 0, Some(x)).is_ok();
    match s.weak(x) {
        Ok(w) => stored & comes_back(s, w) & (s.has_ended(w) == Ok(false)),
        Err(_) => false,
    }
}

fn opens_and_refers(alloc: Global) -> bool {
    match Host::new(alloc, 1, 3, &mut Marks::new()) {
        Ok(mut s) => {
            let x = made(s.new_native(0, 1));
            refers(&mut s, x)
        }
        Err(_) => false,
    }
}

#[test]
fn a_native_comes_back(rt: HostRuntime) {
    assert!(rt; opens_and_refers(rt.alloc()));
}

// Once it was told as unlinked and freed there is none.
fn ends(s: &mut Host, x: Object) -> bool {
    let stored = s.store(x, 0, Some(x)).is_ok() & s.set_native_root(0, None).is_ok();
    match s.weak(x) {
        Ok(w) => stored & s.settle().is_ok() & (s.upgrade_into(0, w) == Ok(None)),
        Err(_) => false,
    }
}

fn opens_and_ends(alloc: Global) -> bool {
    match Host::new(alloc, 1, 3, &mut Marks::new()) {
        Ok(mut s) => {
            let x = made(s.new_native(0, 1));
            ends(&mut s, x)
        }
        Err(_) => false,
    }
}

#[test]
fn a_native_that_was_collected_does_not(rt: HostRuntime) {
    assert!(rt; opens_and_ends(rt.alloc()));
}

// One unit of a marking, and it goes on.
fn begins_marking(s: &mut Host) -> bool {
    let begun = s.mark(1) == Ok(Ended::No);
    begun & s.marking()
}

// An object that is made meanwhile is stored in one that a root holds.
fn stores_late(s: &mut Host, object: Object) -> bool {
    let late = made(s.new_plain(1, 0));
    s.store(object, 0, Some(late)).is_ok()
}

// The one that no root held when it began is freed, and no other.
fn ends_marking(s: &mut Host) -> bool {
    let ended = s.mark(100) == Ok(Ended::Yes);
    ended & !s.marking() & (s.scripts() == 2)
}

fn opens_and_marks(alloc: Global) -> bool {
    match Host::new(alloc, 1, 3, &mut Marks::new()) {
        Ok(mut s) => {
            let lost = made(s.new_plain(0, 1));
            let object = made(s.new_plain(0, 1));
            let goes_on = begins_marking(&mut s) & stores_late(&mut s, object);
            goes_on & ends_marking(&mut s) & !s.is_there(lost)
        }
        Err(_) => false,
    }
}

#[test]
fn a_marking_frees_what_no_root_held(rt: HostRuntime) {
    assert!(rt; opens_and_marks(rt.alloc()));
}
