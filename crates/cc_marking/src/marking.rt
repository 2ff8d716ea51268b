//! The script objects marked from two lists of roots, over slots, to delegates, and over the entries of weak maps.
ghost use Rattle.std.specs.Prelude.{◌≡◌, ◌+◌, ◌*◌, ◌≤◌, ℕ, not, [], ◌++◌, length, count_by, option_map, IsTrue};
ghost use Rattle.cc_lists.specs.Members.{Among};
ghost use Rattle.cc_names.specs.declared.kind.Colour.TheVariants.{Gray, Black};
ghost use Rattle.cc_script.specs.ColourOrder.{HasColourOrder};
ghost use Rattle.cc_script.specs.Objects.{AreWhole, HaveOwnKeys, is_below, is_there, raised_among};
ghost use Rattle.cc_script.specs.Underway.{marks_of};
ghost use Rattle.cc_weakmaps.specs.Entries.{entry};
ghost use Rattle.cc_marking.specs.Carrying.{IsCarriedSoFar, carried_on, is_looked_into, marked_on};
ghost use Rattle.cc_marking.specs.Joints.{joint, joints};
ghost use Rattle.cc_weakmaps.specs.Index.{has_object};
ghost use Rattle.cc_marking.specs.Levels.{AreFollowed, AreOrdered, has_at_least, keys_at_least};
ghost use Rattle.cc_marking.specs.Marking.{AreDelegatesOfKeys, AreEntriesThere, AreLeast, IsEntryThere, IsJointThere, keys_marked, marked_from};
ghost use Rattle.cc_marking.specs.Looking.{sides_left, with_all_given, with_all_started, with_given, with_joint, with_joints};

use crate::roots::Roots;
use cc_names::{Colour, SKey};
use cc_script::{Marking, Scripts};
use cc_steps::Steps;
use cc_weakmaps::WeakMaps;
use std::sync::ledger::Ledger;

/// Whether a colour is at least another: white below gray below black.
fn is_at_least(colour: Colour, to: Colour) -> bool
    ensures { result ≡ not (is_below colour to) }
{
    colour == to || colour == Colour::Black || to == Colour::White
}

/// Gives the roots the colour of the marking, one after another.
fn start_each<R: Roots>(marking: &mut Marking, roots: &mut R)
    requires live { (key : ℕ) → Among key (R.left roots.old) → IsTrue (is_there marking.old.objects key) }
    requires whole { AreWhole marking.old.objects }
    ensures started { marks_of marking.new ≡ with_all_started marking.old.to (R.left roots.old) (marks_of marking.old) }
    ensures colour { marking.new.to ≡ marking.old.to }
    ensures whole { AreWhole marking.new.objects }
    ensures none_left { R.left roots.new ≡ [] }
{
    while let Some(key) = roots.next_root() {
        marking.start(key);
    }
}

/// Where map and key have at least the colour of the marking, `to`, the value has it from then on.
// so the value gets the lesser colour of the two
fn mark_value(marking: &mut Marking, to: Colour, the_map: SKey, key: SKey, value: SKey)
    requires there { IsJointThere marking.old.objects (joint the_map.0 key.0 value.0) }
    requires colour { to ≡ marking.old.to }
    requires whole { AreWhole marking.old.objects }
    ensures valued { marks_of marking.new ≡ with_joint to (joint the_map.0 key.0 value.0) (marks_of marking.old) }
    ensures colour { marking.new.to ≡ marking.old.to }
    ensures there { (k : ℕ) → is_there marking.new.objects k ≡ is_there marking.old.objects k }
    ensures whole { AreWhole marking.new.objects }
{
    if is_at_least(marking.colour(the_map), to) && is_at_least(marking.colour(key), to) {
        marking.start(value);
    }
}

/// Looks at an entry: its key gets the lesser colour of its map and its delegate, where it has one, and then its value that of
/// its map and its key.
// so an entry gives its own key a colour by its delegate alone, and none without the map's
fn mark_entry(
    marking: &mut Marking,
    to: Colour,
    the_map: SKey,
    key: SKey,
    delegate: Option<SKey>,
    value: SKey,
)
    requires there { IsEntryThere marking.old.objects (entry the_map.0 key.0 (option_map (λ k. k.0) delegate) value.0) }
    requires colour { to ≡ marking.old.to }
    requires whole { AreWhole marking.old.objects }
    ensures given { marks_of marking.new ≡ with_given to (entry the_map.0 key.0 (option_map (λ k. k.0) delegate) value.0) (marks_of marking.old) }
    ensures colour { marking.new.to ≡ marking.old.to }
    ensures there { (k : ℕ) → is_there marking.new.objects k ≡ is_there marking.old.objects k }
    ensures whole { AreWhole marking.new.objects }
{
    if let Some(delegate) = delegate {
        mark_value(marking, to, the_map, delegate, key);
    }
    mark_value(marking, to, the_map, key, value);
}

/// Looks at each entry whose map, key or delegate an object is, the last one first. Each takes one step.
fn mark_entries<L: Ledger>(
    marking: &mut Marking,
    to: Colour,
    weak: &WeakMaps,
    object: SKey,
    steps: &mut Steps<L>,
)
    requires entries { AreEntriesThere marking.old.objects weak.now }
    requires colour { to ≡ marking.old.to }
    requires whole { AreWhole marking.old.objects }
    ensures given { marks_of marking.new ≡ with_all_given to weak.now object.0 (length weak.now) (marks_of marking.old) }
    ensures colour { marking.new.to ≡ marking.old.to }
    ensures whole { AreWhole marking.new.objects }
    ensures steps { steps.new ≡ steps.old + count_by (has_object object.0) weak.now }
{
    let mut place = weak.first_with(object);
    while let Some(i) = place {
        steps.tick();
        let (the_map, key, delegate, value) = weak.entry(i);
        mark_entry(marking, to, the_map, key, delegate, value);
        place = weak.next_with(object, i);
    }
}

/// Looks once at each entry, the first one first. Each takes one step.
fn mark_all_entries<L: Ledger>(
    marking: &mut Marking,
    to: Colour,
    weak: &WeakMaps,
    steps: &mut Steps<L>,
)
    requires entries { AreEntriesThere marking.old.objects weak.now }
    requires colour { to ≡ marking.old.to }
    requires whole { AreWhole marking.old.objects }
    ensures given { marks_of marking.new ≡ with_joints to (joints weak.now) (marks_of marking.old) }
    ensures colour { marking.new.to ≡ marking.old.to }
    ensures whole { AreWhole marking.new.objects }
    ensures steps { steps.new ≡ steps.old + length weak.now }
{
    for i in 0..weak.len() {
        steps.tick();
        let (the_map, key, delegate, value) = weak.entry(i);
        mark_entry(marking, to, the_map, key, delegate, value);
    }
}

/// Looks into what waits, one object after another, and at the entries of each, until none waits. What has the colour and does not
/// wait was looked into before, and is not again.
fn look_into_all<L: Ledger>(
    marking: &mut Marking,
    to: Colour,
    weak: &WeakMaps,
    steps: &mut Steps<L>,
)
    requires colour { to ≡ marking.old.to }
    requires whole { AreWhole marking.old.objects }
    requires so_far { IsCarriedSoFar to weak.now (marks_of marking.old) }
    ensures carried { marking.new.objects ≡ carried_on to weak.now marking.old.objects }
    ensures done { marking.new.waiting ≡ [] }
    ensures steps { steps.new + sides_left (has_at_least to marking.new.objects) weak.now
        ≤ steps.old + sides_left (is_looked_into to (marks_of marking.old)) weak.now }
{
    while let Some(key) = marking.next_marked() {
        mark_entries(marking, to, weak, key, steps);
    }
}

/// Raises to at least the colour `to` what a mark over slots and entries comes to from the roots, and from all that has at
/// least that colour. Of what has it before, all that a mark comes to has it too: it is not looked into again.
///
/// It takes at most as many steps as entries have maps, keys and delegates that get the colour.
fn mark_to<R: Roots, L: Ledger>(
    scripts: &mut Scripts,
    weak: &WeakMaps,
    roots: &mut R,
    to: Colour,
    steps: &mut Steps<L>,
)
    requires live { (key : ℕ) → Among key (R.left roots.old) → IsTrue (is_there scripts.old key) }
    requires entries { AreEntriesThere scripts.old weak.now }
    requires ordered { AreOrdered to scripts.old }
    requires followed { AreFollowed to scripts.old weak.now }
    ensures raised { scripts.new ≡ raised_among (keys_marked scripts.old weak.now (keys_at_least to scripts.old ++ R.left roots.old)) to scripts.old }
    ensures none_left { R.left roots.new ≡ [] }
    ensures steps { steps.new + sides_left (has_at_least to scripts.new) weak.now ≤ steps.old + sides_left (has_at_least to scripts.old) weak.now }
{
    let mut marking = scripts.start_marking(to);
    start_each(&mut marking, roots);
    look_into_all(&mut marking, to, weak, steps);
    scripts.end_marking(marking);
}

/// Gives each script object its colour: black what a mark from `black` comes to, gray what else one from the black ones and
/// `gray` comes to, white the rest. A mark goes over slots, from proxies to their delegates, and from a map and a key that
/// are marked together to the value of their entry, which has at least the lesser of their two marks. So it goes too from a map
/// and the delegate of an entry's key to the key. Takes no memory, at any depth.
///
/// `steps` counts the entries that are looked at, each as often: when its map gets its mark, when its key does, and when its
/// key's delegate does. So it takes at most three times as many steps as there are entries.
pub fn mark<B: Roots, G: Roots, L: Ledger>(
    scripts: &mut Scripts,
    weak: &WeakMaps,
    black: &mut B,
    gray: &mut G,
    steps: &mut Steps<L>,
)
    requires black { (key : ℕ) → Among key (B.left black.old) → IsTrue (is_there scripts.old key) }
    requires gray { (key : ℕ) → Among key (G.left gray.old) → IsTrue (is_there scripts.old key) }
    requires entries { AreEntriesThere scripts.old weak.now }
    requires delegates { AreDelegatesOfKeys scripts.old weak.now }
    requires whole { AreWhole scripts.old }
    ensures colours { scripts.new ≡ marked_from (B.left black.old) (G.left gray.old) weak.now scripts.old }
    ensures least { AreLeast (B.left black.old) (G.left gray.old) weak.now scripts.old scripts.new }
    ensures black { B.left black.new ≡ [] }
    ensures gray { G.left gray.new ≡ [] }
    ensures steps { steps.new ≤ steps.old + 3 * length weak.now }
{
    scripts.clear_marks();
    mark_to(scripts, weak, black, Colour::Black, steps);
    mark_to(scripts, weak, gray, Colour::Gray, steps);
}

/// Raises to at least the colour `to` what a mark over slots and entries comes to from all that has at least that colour. It was
/// carried over slots and to delegates before, and over no entry.
fn carry_on<L: Ledger>(scripts: &mut Scripts, weak: &WeakMaps, to: Colour, steps: &mut Steps<L>)
    requires entries { AreEntriesThere scripts.old weak.now }
    requires whole { AreWhole scripts.old }
    requires ordered { HasColourOrder scripts.old }
    ensures carried { scripts.new ≡ carried_on to weak.now scripts.old }
    ensures own { HaveOwnKeys scripts.old }
    ensures steps { steps.new + sides_left (has_at_least to scripts.new) weak.now
        ≤ steps.old + (length weak.now + sides_left (has_at_least to scripts.old) weak.now) }
{
    let mut marking = scripts.start_marking(to);
    mark_all_entries(&mut marking, to, weak, steps);
    look_into_all(&mut marking, to, weak, steps);
    scripts.end_marking(marking);
}

/// Carries marks on over the entries of weak maps, black first and gray then. The objects have marks already, which were carried
/// over slots and from proxies to their delegates, and over no entry. What a value gets goes on over its slots, from a proxy to
/// its delegate, and over entries again. What has a mark keeps it at least. Takes no memory, at any depth.
///
/// So it does what `mark` does from roots that have the marks, and looks into none of these again. `steps` counts the entries that
/// are looked at: each once for each of the two colours, and once more when its map gets a mark, when its key does, and when its
/// key's delegate does. So it takes at most five times as many steps as there are entries.
pub fn mark_on<L: Ledger>(scripts: &mut Scripts, weak: &WeakMaps, steps: &mut Steps<L>)
    requires entries { AreEntriesThere scripts.old weak.now }
    requires whole { AreWhole scripts.old }
    requires ordered { HasColourOrder scripts.old }
    ensures marked { scripts.new ≡ marked_on weak.now scripts.old }
    ensures colours { scripts.new ≡ marked_from (keys_at_least Black scripts.old) (keys_at_least Gray scripts.old) weak.now scripts.old }
    ensures least { AreLeast (keys_at_least Black scripts.old) (keys_at_least Gray scripts.old) weak.now scripts.old scripts.new }
    ensures steps { steps.new ≤ steps.old + 5 * length weak.now }
{
    carry_on(scripts, weak, Colour::Black, steps);
    carry_on(scripts, weak, Colour::Gray, steps);
}
