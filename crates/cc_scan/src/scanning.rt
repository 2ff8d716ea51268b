//! The black nodes of a graph: those held from elsewhere, what black nodes lead to, and the values of mappings whose members
//! are black.
ghost use Rattle.std.specs.Prelude.{◌≡◌, ◌+◌, ◌*◌, ◌<◌, ◌≤◌, ◌==◌, ℕ, ◌↔◌, ◌⊎◌, IfSome, IsTrue, Some, length, map, filter, option_map, slice_get};
ghost use Rattle.cc_lists.specs.Members.{Among, with_all_last};
ghost use Rattle.cc_lists.specs.Least.{Least};
ghost use Rattle.cc_graph.specs.Shown.{edges_to, is_with};
ghost use Rattle.cc_graph.specs.Shown as shown;
ghost use Rattle.cc_scan.specs.Scanning.{exceeds, held_elsewhere, scan_rules};
ghost use Rattle.cc_scan.specs.Steps.{is_met, with_value, with_values};

use cc_graph::Graph;
use cc_steps::Steps;
use std::sync::ledger::Ledger;

/// Makes black what may be held from outside the graph, and all that black nodes lead to, by references and by mappings.
/// What is black stays black; the others are held by nodes that are not black either, and by mappings of which the map or the
/// key is not, alone. Takes no memory.
///
/// `steps` counts the mappings that are looked at, each as often: when its map becomes black and when its key does; one
/// with neither a map nor a key at the start. So it takes at most twice as many steps as there are mappings.
// Each black node is followed once, in the order in which they became black.
pub fn scan<L: Ledger>(graph: &mut Graph, steps: &mut Steps<L>)
    ensures least { (i : ℕ) → IsTrue (shown.is_black graph.new i) ↔ Least (scan_rules graph.old) i }
    ensures rest { graph.new ≡ record graph.old { blacks = graph.new.blacks } }
    ensures steps { steps.new ≤ steps.old + 2 * length graph.old.hyperedges }
{
    blacken_held_elsewhere(graph);
    // the mappings that no black node leads to, for want of a map and a key
    blacken_values(graph, None, steps);
    let mut place = 0;
    while let Some(node) = graph.black_at(place) {
        blacken_targets(graph, node);
        blacken_values(graph, Some(node), steps);
        place += 1;
    }
}

/// Makes black each node with more sampled references than are noted to it: some of them are from elsewhere.
fn blacken_held_elsewhere(graph: &mut Graph)
    ensures marked { (i : ℕ) → IsTrue (shown.is_black graph.new i) ↔ (IsTrue (shown.is_black graph.old i) ⊎ Among i (held_elsewhere graph.old)) }
    ensures rest { graph.new ≡ record graph.old { blacks = graph.new.blacks } }
{
    for i in 0..graph.len() {
        if is_held_elsewhere(graph, i) {
            graph.blacken(i);
        }
    }
}

/// Whether more references to a node were sampled than are noted.
fn is_held_elsewhere(graph: &Graph, i: u32) -> bool
    requires { i < length graph.now.nodes }
    ensures { option_map (λ v. exceeds (edges_to graph.now.edges i) v.sampled) (slice_get graph.now.nodes i) ≡ Some result }
{
    match graph.sampled(i) {
        Some(count) => graph.noted_to(i) < count as usize,
        None => false,
    }
}

/// Makes black the target of each reference that a node has, in the order in which they were noted.
fn blacken_targets(graph: &mut Graph, node: u32)
    requires { node < length graph.old.nodes }
    ensures blacks { graph.new.blacks ≡ with_all_last ◌==◌ graph.old.blacks (map (λ e. e.target) (filter (λ e. e.source == node) graph.old.edges)) }
    ensures rest { graph.new ≡ record graph.old { blacks = graph.new.blacks } }
{
    let mut place = graph.first_from(node);
    while let Some(j) = place {
        let Some((_, target)) = graph.edge(j) else {
            unreachable!()
        };
        graph.blacken(target);
        place = graph.next_from(j);
    }
}

/// Looks at each mapping whose map or key a node is, for none at those that have neither, in the order in which they were
/// noted: the value becomes black where its map and its key are each black or no node. Each takes one step.
fn blacken_values<L: Ledger>(graph: &mut Graph, node: Option<u32>, steps: &mut Steps<L>)
    requires { IfSome node (λ i. i < length graph.old.nodes) }
    ensures blacks { graph.new.blacks ≡ with_values graph.old.blacks (filter (is_with node) graph.old.hyperedges) }
    ensures rest { graph.new ≡ record graph.old { blacks = graph.new.blacks } }
    ensures steps { steps.new ≡ steps.old + length (filter (is_with node) graph.old.hyperedges) }
{
    let mut place = graph.first_with(node);
    while let Some(j) = place {
        steps.tick();
        blacken_value(graph, j);
        place = graph.next_with(node, j);
    }
}

/// Makes black the value of the mapping at a place, where its map and its key are each black or no node.
fn blacken_value(graph: &mut Graph, j: usize)
    requires { j < length graph.old.hyperedges }
    ensures blacks { option_map (λ m. with_value graph.old.blacks m) (slice_get graph.old.hyperedges j) ≡ Some graph.new.blacks }
    ensures rest { graph.new ≡ record graph.old { blacks = graph.new.blacks } }
{
    let Some((the_map, key, value)) = graph.mapping(j) else {
        unreachable!()
    };
    if is_met(graph, the_map) && is_met(graph, key) {
        graph.blacken(value);
    }
}

/// Whether a member of a mapping, its map or its key, is black or no node.
fn is_met(graph: &Graph, member: Option<u32>) -> bool
    requires { IfSome member (λ i. i < length graph.now.nodes) }
    ensures { result ≡ is_met graph.now.blacks member }
{
    match member {
        Some(i) => graph.is_black(i),
        None => true,
    }
}
