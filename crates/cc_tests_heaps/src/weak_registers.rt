//! Weak registers beside heaps.
ghost use Rattle.std.specs.Prelude.{[]};
ghost use Rattle.cc_heaps.specs.Keyed.{IsInOrder};

use cc_heaps::Heaps;
use cc_model::Notebook;
use cc_names::{Limits, NKey, NativeNo, NoMemory};
use cc_weakrefs::WeakRegs;
use std::alloc::Global;

// A register finds its native as long as that is there, and no other native that has its key then.
fn finds_no_other(heaps: &mut Heaps, weak: &mut WeakRegs, key: NKey, out: &mut Notebook) -> bool
    requires { IsInOrder [] heaps.old }
{
    weak.set(7, key, NativeNo(1));
    let found = weak.resolve(heaps, 7) == Some(key);
    heaps.set_native_reg(0, None, out);
    let gone = weak.resolve(heaps, 7).is_none();
    let made = heaps.new_native(0, 1, out).is_ok();
    let same_key = heaps.native_reg(0) == Some(key);
    let other = weak.resolve(heaps, 7).is_none();
    weak.set(255, key, NativeNo(2));
    let its_own = weak.resolve(heaps, 255) == Some(key);
    weak.clear(255);
    let cleared = weak.resolve(heaps, 255).is_none();
    found & gone & made & same_key & other & its_own & cleared
}

fn natives_are_found(heaps: &mut Heaps, weak: &mut WeakRegs, out: &mut Notebook) -> bool
    requires { IsInOrder [] heaps.old }
{
    let made = heaps.new_native(0, 1, out).is_ok();
    match heaps.native_reg(0) {
        Some(key) => made & finds_no_other(heaps, weak, key, out),
        None => false,
    }
}

// Weak registers. Where memory is refused there are none, and the next call makes them.
fn registers_at_last(alloc: Global) -> Option<WeakRegs> {
    match WeakRegs::new(alloc) {
        Ok(weak) => Some(weak),
        Err(NoMemory) => WeakRegs::new(alloc).ok(),
    }
}

fn registers_find(alloc: Global) -> bool {
    let mut out = Notebook::new(alloc);
    let Some(mut weak) = registers_at_last(alloc) else {
        return false;
    };
    match Heaps::new(alloc, Limits::new(2, 1, 0)) {
        Ok(mut heaps) => natives_are_found(&mut heaps, &mut weak, &mut out),
        Err(_) => false,
    }
}

#[test]
fn weak_registers_find_their_natives(rt: HostRuntime) {
    assert!(rt; registers_find(rt.alloc()));
}
