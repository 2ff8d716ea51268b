//! A collector that marks script objects in units: the units end, and a slice ends a marking first.
ghost use Rattle.std.specs.Prelude.{◌≡◌, ◌<◌, [], None};
ghost use Rattle.cc_model.specs.Colours.{HasColourInvariant};
ghost use Rattle.cc_model.specs.View.{view};
ghost use Rattle.cc_heaps.specs.Keyed.{IsInOrder};
ghost use Rattle.cc_collector.specs.Kept.{RunsIn};

use cc_collector::{Collector, Ended, Steps};
use cc_heaps::Heaps;
use cc_model::Notebook;
use cc_names::Limits;
use std::alloc::Global;
use std::marker::Brand;
use std::sync::ledger::{Blank, Ledger};

// Two units go on, the end is one of the next ten, and a slice ends the marking that begins then.
fn marks<L: Ledger>(
    heaps: &mut Heaps,
    collector: &mut Collector,
    out: &mut Notebook,
    blank: Blank,
) -> bool
    requires runs { RunsIn heaps.old collector.old }
    requires name { blank.name ≡ L.name }
    requires parts { blank.parts ≡ L.parts }
    requires some { 0 < L.parts }
{
    let mut steps = Steps::<L>::new(blank);
    let goes_on = (collector.mark(heaps, 2, out, &mut steps) == Ended::No) & collector.marking();
    let nothing = out.text() == b"".as_slice();
    let over = (collector.mark(heaps, 10, out, &mut steps) == Ended::Yes) & !collector.marking();
    let freed = out.text() == b"- free @2\n".as_slice();
    let again = (collector.mark(heaps, 1, out, &mut steps) == Ended::No) & collector.marking();
    let sliced = collector.slice(heaps, 1, out, &mut steps).is_ok() & collector.running();
    goes_on & nothing & over & freed & again & sliced & !collector.marking()
}

// A script register holds an object, and nothing another one.
fn frees(alloc: Global, heaps: &mut Heaps, out: &mut Notebook) -> bool
    requires order { IsInOrder [] heaps.old }
    requires colours { HasColourInvariant (view heaps.old.heap) }
    requires idle { heaps.old.marking ≡ None }
{
    let made = heaps.new_plain(0, 0).is_ok() & heaps.new_plain(1, 0).is_ok();
    heaps.set_script_reg(1, None);
    let mut collector = Collector::new(alloc);
    made & marks::<Brand>(heaps, &mut collector, out, Blank::new(1))
}

fn frees_in_new_heaps(alloc: Global) -> bool {
    let mut out = Notebook::new(alloc);
    match Heaps::new(alloc, Limits::new(1, 2, 0)) {
        Ok(mut heaps) => frees(alloc, &mut heaps, &mut out),
        Err(_) => false,
    }
}

#[test]
fn a_collector_marks_to_the_end(rt: HostRuntime) {
    assert!(rt; frees_in_new_heaps(rt.alloc()));
}
