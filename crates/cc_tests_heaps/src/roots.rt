//! Heaps with a root at a far place.
ghost use Rattle.std.specs.Prelude.{[]};
ghost use Rattle.cc_heaps.specs.Keyed.{IsInOrder};

use cc_heaps::{Heaps, Rooted};
use cc_model::Notebook;
use cc_names::Limits;
use std::alloc::Global;

// A native that a register held is held at a far place alone.
fn holds_far(heaps: &mut Heaps, out: &mut Notebook) -> bool
    requires { IsInOrder [] heaps.old }
{
    let made = heaps.new_native(0, 1, out).is_ok();
    let held = heaps.native_reg(0);
    let far = heaps.root_at(5000, Rooted::Native(held), out).is_ok();
    heaps.set_native_reg(0, None, out);
    let kept = held.is_some() & (heaps.native_reg(5000) == held);
    made & far & kept & (heaps.native_reg_count() == 5001) & (heaps.script_reg_count() == 1024)
}

fn far_root_holds(alloc: Global) -> bool {
    let mut out = Notebook::new(alloc);
    match Heaps::new(alloc, Limits::new(1, 1, 0)) {
        Ok(mut heaps) => holds_far(&mut heaps, &mut out),
        Err(_) => false,
    }
}

#[test]
fn root_at_a_far_place_holds(rt: HostRuntime) {
    assert!(rt; far_root_holds(rt.alloc()));
}
