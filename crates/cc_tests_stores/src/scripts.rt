//! The script heap: its set for walks, in which an object comes, is given once, and which it leaves once the set is emptied; and
//! the new mark of an object.
use cc_names::{Colour, ScriptNo};
use cc_script::Scripts;
use std::alloc::Global;

/// Whether an object is in no walk as it is made, waits once it came in, is given once, and not again once all are out.
fn is_given_once(alloc: Global) -> bool {
    let mut scripts = Scripts::new(alloc);
    let Ok(key) = scripts.create_plain(ScriptNo(1), 0) else {
        return false;
    };
    let out = !scripts.walked(key);
    scripts.walk_add(key);
    let inside = scripts.walked(key);
    let given = scripts.walk_next() == Some(key);
    let none = scripts.walk_next().is_none();
    scripts.walk_clear();
    out & inside & given & none & scripts.walk_next().is_none()
}

#[test]
fn a_walk_gives_each_object_once(rt: HostRuntime) {
    assert!(rt; is_given_once(rt.alloc()));
}

/// Whether an object is black by the new mark as it is made, is gray by it once it was made so, and stays black by its colour.
fn is_marked_beside_its_colour(alloc: Global) -> bool {
    let mut scripts = Scripts::new(alloc);
    let Ok(key) = scripts.create_plain(ScriptNo(1), 0) else {
        return false;
    };
    let black = scripts.new_mark(key) == Colour::Black;
    scripts.set_new_mark(key, Colour::Gray);
    let gray = scripts.new_mark(key) == Colour::Gray;
    black & gray & (scripts.colour(key) == Colour::Black)
}

#[test]
fn a_new_mark_stands_beside_the_colour(rt: HostRuntime) {
    assert!(rt; is_marked_beside_its_colour(rt.alloc()));
}
