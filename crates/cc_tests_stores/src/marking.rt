//! Marks carried on over the entries of weak maps: an entry gives its value the lesser mark of its map and its key.
ghost use Rattle.std.specs.Prelude.{◌≡◌, ◌<◌};

use cc_marking::mark_on;
use cc_names::{Colour, ScriptNo};
use cc_script::Scripts;
use cc_steps::Steps;
use cc_weakmaps::WeakMaps;
use std::alloc::Global;
use std::marker::Brand;
use std::sync::ledger::{Blank, Ledger};

/// Whether a value gets gray from a black map and a gray key.
fn gives_the_lesser_mark<L: Ledger>(alloc: Global, blank: Blank) -> bool
    requires name { blank.name ≡ L.name }
    requires parts { blank.parts ≡ L.parts }
    requires some { 0 < L.parts }
{
    let mut scripts = Scripts::new(alloc);
    let mut weak = WeakMaps::new(alloc);
    let mut steps = Steps::<L>::new(blank);
    let Ok(the_map) = scripts.create_map(ScriptNo(1)) else {
        return false;
    };
    let Ok(key) = scripts.create_plain(ScriptNo(2), 0) else {
        return false;
    };
    let Ok(value) = scripts.create_plain(ScriptNo(3), 0) else {
        return false;
    };
    if weak.set(the_map, key, None, value).is_err() {
        return false;
    }
    scripts.clear_marks();
    scripts.mark_from(the_map, Colour::Black);
    scripts.mark_from(key, Colour::Gray);
    let before = scripts.colour(value) == Colour::White;
    mark_on(&mut scripts, &weak, &mut steps);
    before & (scripts.colour(value) == Colour::Gray) & (scripts.colour(the_map) == Colour::Black)
}

#[test]
fn an_entry_gives_the_lesser_mark(rt: HostRuntime) {
    let gives = gives_the_lesser_mark::<Brand>(rt.alloc(), Blank::new(1));
    assert!(rt; gives);
}
