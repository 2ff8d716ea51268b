//! A marking of script objects that goes to its end by steps: it frees what was let go, and nothing else.
ghost use Rattle.std.specs.Prelude.{◌≡◌, [], None};
ghost use Rattle.cc_heaps.specs.Keyed.{IsInOrder};

use cc_counted::Held;
use cc_heaps::Heaps;
use cc_markslice::{MarkStep, Marking};
use cc_model::Notebook;
use cc_names::Limits;
use std::alloc::Global;

// A marking that begins here, to its end.
fn mark_to_the_end(heaps: &mut Heaps, out: &mut Notebook)
    requires order { IsInOrder [] heaps.old }
    requires idle { heaps.old.marking ≡ None }
    ensures order { IsInOrder [] heaps.new }
    ensures idle { heaps.new.marking ≡ None }
{
    let mut marking = Marking::begin(heaps);
    'steps: while let MarkStep::Scanned = marking.step(heaps, out) {}
}

// A native holds an object, a script register another one, and nothing a third: that one is freed.
fn frees(heaps: &mut Heaps, out: &mut Notebook) -> bool
    requires order { IsInOrder [] heaps.old }
    requires idle { heaps.old.marking ≡ None }
{
    let made = heaps.new_native(0, 1, out).is_ok() & heaps.new_plain(0, 0).is_ok();
    let (Some(native), Some(object)) = (heaps.native_reg(0), heaps.script_reg(0)) else {
        return false;
    };
    if heaps.counted().slots(native) == 0 {
        return false;
    }
    heaps.store_native(native, 0, Some(Held::Script(object)), out);
    let more = heaps.new_plain(0, 0).is_ok() & heaps.new_plain(1, 0).is_ok();
    mark_to_the_end(heaps, out);
    let nothing = out.text() == b"".as_slice();
    heaps.set_script_reg(1, None);
    mark_to_the_end(heaps, out);
    made & more & nothing & (out.text() == b"- free @3\n".as_slice())
}

fn frees_in_new_heaps(alloc: Global) -> bool {
    let mut out = Notebook::new(alloc);
    match Heaps::new(alloc, Limits::new(1, 3, 0)) {
        Ok(mut heaps) => frees(&mut heaps, &mut out),
        Err(_) => false,
    }
}

#[test]
fn what_was_let_go_is_freed_at_the_end(rt: HostRuntime) {
    assert!(rt; frees_in_new_heaps(rt.alloc()));
}
