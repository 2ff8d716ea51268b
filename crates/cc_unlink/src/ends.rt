//! Three passes over the white natives, each by rising number: they are rooted, unlinked and unrooted.
ghost use Rattle.std.specs.Prelude.{◌≡◌, ◌↔◌, ◌⊎◌, ◌+◌, ◌*◌, ◌^◌, ◌<◌, ◌≤◌, ℕ, Some, true, false, List, [], length, IsTrue, IfNone, IfSome, option_map};
ghost use Rattle.cc_model.specs.Telling.{TellsEvents};
ghost use Rattle.cc_model.specs.Heap.{silently};
ghost use Rattle.cc_model.specs.End.{root_each, unlink_each, unroot_each};
ghost use Rattle.cc_counted.specs.Counts as counts;
ghost use Rattle.cc_graph.specs.Shown.{is_black, number_of};
ghost use Rattle.cc_graph.specs.Natives.{IsLast, IsNext};
ghost use Rattle.cc_graph.specs.Held.{AreHeld};
ghost use Rattle.cc_heaps.specs.HasKey.{HasKey};
ghost use Rattle.cc_heaps.specs.Keyed.{IsInOrder, changed_to, left_with};
ghost use Rattle.cc_unlink.specs.Whites.{whites_of, whites_above};
ghost use Rattle.cc_unlink.specs.Passes.{IsAt, native_nodes, nodes_above, nodes_behind, number_in};
ghost use Rattle.cc_unlink.specs.Ends.{EndsWhites};
ghost use Rattle.cc_unlink.specs.Keys.{HasNodeKeys, HasOtherKey};
ghost use Rattle.cc_heaps.specs.Holders.{first_of};

use cc_counted::{Counted, Held};
use cc_graph::Graph;
use cc_heaps::Heaps;
use cc_model::Notices;
use cc_names::{NKey, NativeNo};
use cc_steps::Steps;
use std::marker::Brand;
use std::sync::ledger::{Blank, Ledger};

/// A white native: its number, and the key at which it stands.
#[derive(Clone, Copy, Drop)]
pub(crate) struct White {
    pub(crate) number: NativeNo,
    pub(crate) key: NKey,
}

/// Looks at the next native that is a node: the one with the least number above that of `after`, or of all where there is
/// no `after`; and gives the number of its node too. None where there is no such native. Each look takes one step.
// the passes come to a native by this function, and by no other
fn look_at_next<L: Ledger>(
    graph: &Graph,
    after: Option<NativeNo>,
    steps: &mut Steps<L>,
) -> Option<(NativeNo, u32)>
    ensures next { IfSome result (λ r. IsNext (number_of graph.now.nodes) after r.0.0 r.1) }
    ensures within { IfSome result (λ r. r.1 < length graph.now.nodes) }
    ensures small { IfSome result (λ r. r.0.0 < 2 ^ 32) }
    ensures last { IfNone result (IsLast (number_of graph.now.nodes) after) }
    ensures looked { IfSome result (λ r. steps.new ≡ steps.old + 1) }
    ensures ended { IfNone result (steps.new ≡ steps.old) }
{
    let Some(next) = graph.native_node_after(after) else {
        return None;
    };
    steps.tick();
    Some(next)
}

/// Whether the native at a key is this one.
fn is_at(counted: &Counted, key: NKey, native: NativeNo) -> bool
    ensures { IsTrue result ↔ (counts.number_at counted.now key.0 ≡ Some native.0) }
{
    match counted.number(key) {
        Some(number) => number == native,
        None => false,
    }
}

/// The key of a node's native, where the node is not black and the native still is in the heaps.
fn white_at(graph: &Graph, counted: &Counted, native: NativeNo, node: u32) -> Option<NKey>
    requires { node < length graph.now.nodes }
    ensures white { IfSome result (λ key. (is_black graph.now node ≡ false) × (counts.number_at counted.now key.0 ≡ Some native.0)) }
    ensures other { IfNone result ((is_black graph.now node ≡ true) ⊎ HasOtherKey graph.now counted.now node native.0) }
{
    if graph.is_black(node) {
        return None;
    }
    let (_, held) = graph.node(node);
    match held {
        Held::Native(key) => {
            if is_at(counted, key, native) {
                Some(key)
            } else {
                None
            }
        }
        Held::Script(_) => None,
    }
}

/// The white native with the least number above that of `after`, or of all where there is no `after`. It looks at natives
/// that are nodes, by rising number, up to the one that it finds, and at no others.
#[inline(always)]
fn next_white<L: Ledger>(
    graph: &Graph,
    heaps: &Heaps,
    after: Option<NativeNo>,
    steps: &mut Steps<L>,
) -> Option<White>
    requires order { (owned : List ℕ) × IsInOrder owned heaps.now }
    requires keys { HasNodeKeys graph.now heaps.now }
    ensures number { number_in result ≡ first_of (whites_above graph.now heaps.now.heap (option_map (λ k. k.0) after)) }
    ensures live { IsAt heaps.now result }
    ensures steps { steps.new + nodes_behind graph.now (number_in result) ≤ steps.old + nodes_above graph.now (option_map (λ k. k.0) after) }
{
    if !graph.has_white() {
        // every node is black: there is nothing to look for
        return None;
    }
    let counted = heaps.counted();
    let mut next = look_at_next(graph, after, steps);
    while let Some((number, node)) = next {
        if let Some(key) = white_at(graph, counted, number, node) {
            return Some(White { number, key });
        }
        next = look_at_next(graph, Some(number), steps);
    }
    None
}

/// Roots the white natives: takes one more reference to each.
fn root_whites<L: Ledger>(graph: &Graph, heaps: &mut Heaps, steps: &mut Steps<L>)
    requires order { IsInOrder [] heaps.old }
    requires keys { HasNodeKeys graph.now heaps.old }
    ensures heap { heaps.new ≡ changed_to heaps.old (root_each (whites_of graph.now heaps.old.heap) heaps.old.heap) }
    ensures order { IsInOrder (whites_of graph.now heaps.old.heap) heaps.new }
    ensures whites { whites_of graph.now heaps.new.heap ≡ whites_of graph.now heaps.old.heap }
    ensures steps { steps.new ≤ steps.old + length (native_nodes graph.now) }
{
    let mut next = next_white(graph, heaps, None, steps);
    while let Some(white) = next {
        next = next_white(graph, heaps, Some(white.number), steps);
        heaps.root(white.key);
    }
}

/// Unlinks the white natives, which are rooted.
fn unlink_whites<N: Notices, L: Ledger>(
    graph: &Graph,
    heaps: &mut Heaps,
    out: &mut N,
    steps: &mut Steps<L>,
)
    requires order { IsInOrder (whites_of graph.now heaps.old.heap) heaps.old }
    requires keys { HasNodeKeys graph.now heaps.old }
    ensures heap { heaps.new ≡ left_with heaps.old (unlink_each (whites_of graph.now heaps.old.heap) (silently heaps.old.heap)).heap }
    ensures told { TellsEvents (N.telling out.old) (N.telling out.new) (unlink_each (whites_of graph.now heaps.old.heap) (silently heaps.old.heap)).events }
    ensures order { IsInOrder (whites_of graph.now heaps.old.heap) heaps.new }
    ensures whites { whites_of graph.now heaps.new.heap ≡ whites_of graph.now heaps.old.heap }
    ensures steps { steps.new ≤ steps.old + length (native_nodes graph.now) }
{
    let mut next = next_white(graph, heaps, None, steps);
    while let Some(white) = next {
        next = next_white(graph, heaps, Some(white.number), steps);
        heaps.unlink(white.key, out);
    }
}

/// Unroots the white natives, which are rooted: gives up the references to them, and deletes what then has none.
fn unroot_whites<N: Notices, L: Ledger>(
    graph: &Graph,
    heaps: &mut Heaps,
    out: &mut N,
    steps: &mut Steps<L>,
)
    requires order { IsInOrder (whites_of graph.now heaps.old.heap) heaps.old }
    requires keys { HasNodeKeys graph.now heaps.old }
    ensures heap { heaps.new ≡ left_with heaps.old (unroot_each (whites_of graph.now heaps.old.heap) (silently heaps.old.heap)).heap }
    ensures told { TellsEvents (N.telling out.old) (N.telling out.new) (unroot_each (whites_of graph.now heaps.old.heap) (silently heaps.old.heap)).events }
    ensures order { IsInOrder [] heaps.new }
    ensures steps { steps.new ≤ steps.old + length (native_nodes graph.now) }
{
    let mut next = next_white(graph, heaps, None, steps);
    while let Some(white) = next {
        // unrooting may delete this one, while the next one is rooted still
        next = next_white(graph, heaps, Some(white.number), steps);
        heaps.unroot(white.key, out);
    }
}

/// THE END OF A COLLECTION: all white natives are rooted, then unlinked, then unrooted, so that none of them is deleted
/// before all of them are unlinked. It takes no memory.
///
/// Where they are apart, so that registers and the other natives lead to none of them, the heaps go on standing for the same
/// graphs, and what is reached stays, with its slots and its flag. Script objects stay in any case, with their slots and colours. Where they are the white natives of a
/// snapshot that is fresh and traversed, no native that nothing reaches is forgotten.
///
/// It costs what the natives cost that are nodes, however many others live: `collect_white_counted` counts them.
///
/// The graph comes back as it was, so that its room can be used again.
pub fn collect_white<N: Notices>(graph: Graph, heaps: &mut Heaps, out: &mut N) -> Graph
    requires order { IsInOrder [] heaps.old }
    requires held { AreHeld graph (HasKey heaps.old) }
    ensures ended { EndsWhites graph heaps.old heaps.new (N.telling out.old) (N.telling out.new) }
    ensures graph { result ≡ graph }
{
    end_uncounted::<Brand, N>(graph, heaps, out, Blank::new(1))
}

/// The end of a collection. Nobody asks for its steps.
fn end_uncounted<L: Ledger, N: Notices>(
    graph: Graph,
    heaps: &mut Heaps,
    out: &mut N,
    blank: Blank,
) -> Graph
    requires name { blank.name ≡ L.name }
    requires parts { blank.parts ≡ L.parts }
    requires some { 0 < L.parts }
    requires order { IsInOrder [] heaps.old }
    requires held { AreHeld graph (HasKey heaps.old) }
    ensures ended { EndsWhites graph heaps.old heaps.new (N.telling out.old) (N.telling out.new) }
    ensures graph { result ≡ graph }
{
    let mut steps = Steps::<L>::new(blank);
    collect_white_counted(graph, heaps, out, &mut steps)
}

/// THE END OF A COLLECTION as `collect_white` has it, counted: `steps` counts the natives that the passes look at, each as
/// often. They look at natives that are nodes, at each three times at most, and at no others.
///
/// Each node has the key of its object: by it the passes come from a node to its native.
pub fn collect_white_counted<N: Notices, L: Ledger>(
    graph: Graph,
    heaps: &mut Heaps,
    out: &mut N,
    steps: &mut Steps<L>,
) -> Graph
    requires order { IsInOrder [] heaps.old }
    requires held { AreHeld graph (HasKey heaps.old) }
    ensures ended { EndsWhites graph heaps.old heaps.new (N.telling out.old) (N.telling out.new) }
    ensures graph { result ≡ graph }
    ensures steps { steps.new ≤ steps.old + 3 * length (native_nodes graph) }
{
    root_whites(&graph, heaps, steps);
    unlink_whites(&graph, heaps, out, steps);
    unroot_whites(&graph, heaps, out, steps);
    graph
}
