//! Suspects forgotten: those that the registers reach, once, and no others.
ghost use Rattle.std.specs.Prelude.{[]};
ghost use Rattle.cc_heaps.specs.Keyed.{IsInOrder};

use cc_counted::Held;
use cc_heaps::Heaps;
use cc_model::Notebook;
use cc_names::Limits;
use cc_skip::forget;
use std::alloc::Global;

// A suspect that a register holds loses its mark, and stays in the buffer.
fn forgets(heaps: &mut Heaps, out: &mut Notebook) -> bool
    requires { IsInOrder [] heaps.old }
{
    let none = forget(heaps);
    let made = heaps.new_native(0, 0, out).is_ok();
    let Some(native) = heaps.native_reg(0) else {
        return false;
    };
    heaps.give_back(native);
    let first = forget(heaps);
    let second = forget(heaps);
    let stays = heaps.counted().first_in_buffer() == Some(native);
    made & (none == 0) & (first == 1) & (second == 0) & stays
}

// A native that holds itself, and that no register holds, stays a suspect.
fn remembers(heaps: &mut Heaps, out: &mut Notebook) -> bool
    requires { IsInOrder [] heaps.old }
{
    let made = heaps.new_native(0, 1, out).is_ok();
    let Some(native) = heaps.native_reg(0) else {
        return false;
    };
    if heaps.counted().slots(native) == 0 {
        return false;
    }
    heaps.store_native(native, 0, Some(Held::Native(native)), out);
    heaps.set_native_reg(0, None, out);
    let forgotten = forget(heaps);
    match heaps.counted().first_in_buffer() {
        Some(key) => made & (forgotten == 0) & heaps.counted().purple(key),
        None => false,
    }
}

fn forgets_in_new_heaps(alloc: Global) -> bool {
    let mut out = Notebook::new(alloc);
    match Heaps::new(alloc, Limits::new(1, 1, 0)) {
        Ok(mut heaps) => forgets(&mut heaps, &mut out),
        Err(_) => false,
    }
}

fn remembers_in_new_heaps(alloc: Global) -> bool {
    let mut out = Notebook::new(alloc);
    match Heaps::new(alloc, Limits::new(1, 1, 0)) {
        Ok(mut heaps) => remembers(&mut heaps, &mut out),
        Err(_) => false,
    }
}

#[test]
fn suspect_that_is_reached_is_forgotten_once(rt: HostRuntime) {
    assert!(rt; forgets_in_new_heaps(rt.alloc()));
}

#[test]
fn suspect_that_is_not_reached_stays_one(rt: HostRuntime) {
    assert!(rt; remembers_in_new_heaps(rt.alloc()));
}
