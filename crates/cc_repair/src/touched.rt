//! The nodes whose native stands in the buffer now, or whose script object is black now.
ghost use Rattle.std.specs.Prelude.{◌≡◌, ◌<◌, ℕ, ◌↔◌, ◌⊎◌, IsTrue, false, Some, [], length, option_map, slice_get};
ghost use Rattle.cc_lists.specs.Members.{Among, has};
ghost use Rattle.cc_names.specs.declared.name.Name.{Name};
ghost use Rattle.cc_names.specs.Names.{native, same_name};
ghost use Rattle.cc_model.specs.Heap.{is_black_colour};
ghost use Rattle.cc_model.specs.View.{view};
ghost use Rattle.cc_model.specs.WellFormed.{native_names};
ghost use Rattle.cc_graph.specs.Shown as shown;
ghost use Rattle.cc_script.specs.Objects.{colour_at, is_there};
ghost use Rattle.cc_heaps.specs.Keyed.{IsInOrder, number_at};
ghost use Rattle.cc_graph.specs.Held.{AreHeld};
ghost use Rattle.cc_heaps.specs.HasKey.{HasKey};
ghost use Rattle.cc_repair.specs.Touched.{is_touched, touched};

use cc_counted::Held;
use cc_graph::Graph;
use cc_heaps::Heaps;
use cc_names::{Colour, NKey, Name, NativeNo, SKey};

/// Makes black each node whose native stands in the buffer now, and each whose script object is black now: since the
/// collection began something was done to it that the graph may not have seen.
pub fn mark_touched(graph: &mut Graph, heaps: &Heaps)
    requires order { IsInOrder [] heaps.now }
    requires held { AreHeld graph.old (HasKey heaps.now) }
    ensures marked { (i : ℕ) → IsTrue (shown.is_black graph.new i) ↔ (IsTrue (shown.is_black graph.old i) ⊎ Among i (touched graph.old heaps.now.heap)) }
    ensures rest { graph.new ≡ record graph.old { blacks = graph.new.blacks } }
{
    if is_untouched(heaps) {
        return;
    }
    for i in 0..graph.len() {
        if is_touched(graph, heaps, i) {
            graph.blacken(i);
        }
    }
}

/// Whether there is nothing that would make a node black: no native in the buffer and no black script object.
fn is_untouched(heaps: &Heaps) -> bool
    requires order { IsInOrder [] heaps.now }
    ensures { IsTrue result → (x : Name) → is_touched (view heaps.now.heap) x ≡ false }
{
    if heaps.counted().first_in_buffer().is_some() {
        return false;
    }
    !heaps.scripts().has_colour(Colour::Black)
}

/// Whether the native of a node stands in the buffer, or its script object is black.
fn is_touched(graph: &Graph, heaps: &Heaps, i: u32) -> bool
    requires order { IsInOrder [] heaps.now }
    requires held { AreHeld graph.now (HasKey heaps.now) }
    requires node { i < length graph.now.nodes }
    ensures { option_map (λ v. is_touched (view heaps.now.heap) v.name) (slice_get graph.now.nodes i) ≡ Some result }
{
    let (name, held) = graph.node(i);
    match held {
        Held::Native(key) => match name {
            Name::Native(number) => is_buffered(heaps, number, key),
            _ => false,
        },
        Held::Script(key) => is_exposed(heaps, key),
    }
}

/// Whether a script object is black.
fn is_exposed(heaps: &Heaps, key: SKey) -> bool
    requires there { IsTrue (is_there heaps.now.scripts key.0) }
    ensures { option_map is_black_colour (colour_at heaps.now.scripts key.0) ≡ Some result }
{
    matches!(heaps.scripts().colour(key), Colour::Black)
}

/// Whether a native stands in the buffer, by the key that it has as long as it is there. One that is no more stands there
/// no longer, and its key may be another's by now.
fn is_buffered(heaps: &Heaps, number: NativeNo, key: NKey) -> bool
    requires order { IsInOrder [] heaps.now }
    requires held { Among (native number.0) (native_names heaps.now.heap) → number_at heaps.now key.0 ≡ Some number.0 }
    ensures { result ≡ has same_name (view heaps.now.heap).buffer (native number.0) }
{
    let counted = heaps.counted();
    if counted.first_in_buffer().is_none() {
        // nothing was touched
        return false;
    }
    match counted.number(key) {
        Some(found) => found == number && counted.in_buffer(key),
        None => false,
    }
}
