//! Script objects marked in slices: those that registers and natives hold are scanned, once each, and no others.
ghost use Rattle.std.specs.Prelude.{◌≡◌, [], None};
ghost use Rattle.cc_heaps.specs.Keyed.{IsInOrder};

use cc_counted::Held;
use cc_heaps::Heaps;
use cc_model::Notebook;
use cc_names::Limits;
use std::alloc::Global;

// Three scans of a marking that begins here, and whether there was something to scan each time.
fn three_scans(heaps: &mut Heaps) -> (bool, bool, bool)
    requires order { IsInOrder [] heaps.old }
    requires idle { heaps.old.marking ≡ None }
    ensures order { IsInOrder [] heaps.new }
    ensures idle { heaps.new.marking ≡ None }
{
    heaps.begin_new();
    let first = heaps.scan_new();
    let second = heaps.scan_new();
    let third = heaps.scan_new();
    heaps.drop_new();
    (first, second, third)
}

// A script register holds an object, a native another one, and nothing a third.
fn scans(heaps: &mut Heaps, out: &mut Notebook) -> bool
    requires order { IsInOrder [] heaps.old }
    requires idle { heaps.old.marking ≡ None }
{
    let nothing = three_scans(heaps) == (false, false, false);
    let made = heaps.new_native(0, 1, out).is_ok() & heaps.new_plain(0, 0).is_ok();
    let (Some(native), Some(object)) = (heaps.native_reg(0), heaps.script_reg(0)) else {
        return false;
    };
    if heaps.counted().slots(native) == 0 {
        return false;
    }
    heaps.store_native(native, 0, Some(Held::Script(object)), out);
    let more = heaps.new_plain(0, 0).is_ok() & heaps.new_plain(1, 0).is_ok();
    let three = three_scans(heaps) == (true, true, true);
    heaps.set_script_reg(1, None);
    let two = three_scans(heaps) == (true, true, false);
    heaps.set_script_reg(0, None);
    let one = three_scans(heaps) == (true, false, false);
    nothing & made & more & three & two & one
}

fn scans_in_new_heaps(alloc: Global) -> bool {
    let mut out = Notebook::new(alloc);
    match Heaps::new(alloc, Limits::new(1, 3, 0)) {
        Ok(mut heaps) => scans(&mut heaps, &mut out),
        Err(_) => false,
    }
}

#[test]
fn what_is_held_is_scanned_once(rt: HostRuntime) {
    assert!(rt; scans_in_new_heaps(rt.alloc()));
}
