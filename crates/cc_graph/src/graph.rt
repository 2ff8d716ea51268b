//! The graph: nodes by number, noted references, noted mappings, and the list of black nodes.

ghost use Rattle.std.specs.Prelude.{◌≡◌, ℕ, ◌↔◌, ◌+◌, ◌-◌, ◌<◌, ◌≤◌, ◌^◌, ◌==◌, ◌++◌, [], ◌∷◌, length, max, min, slice_get, option_map, true, IfNone, IfOk, IfSome, IsOk, IsSome, IsTrue, false, OnErr, OnOk, Some, vec_capacity};
ghost use Rattle.cc_graph.specs.Shown.{IsEmpty, change_vertex, edges_to, is_black, is_with, hyperedge, no_room, number_of, place_from, place_with, with_black, with_sample, with_vertex};
ghost use Rattle.cc_graph.specs.Natives.{IsLast, IsNext};
ghost use Rattle.cc_graph.specs.Closed.{IsClosed};
ghost use Rattle.cc_graph.specs.Rooms.{KeepsRoom, TakesRoom};
ghost use Rattle.cc_graph.specs.Kept.{AreMappings, but_mappings, chain_of, first_member, hyperedges, is_one, last_of, loose_with, nodes_with, with_link, with_next, with_next_with};

use crate::chain::Chain;
use crate::mapping::Mapping;
use crate::nodes::Nodes;
use crate::reference::Reference;
use cc_counted::Held;
use cc_names::{Name, NativeNo, NoMemory};
use cc_pool::Pool;
use std::alloc::Global;
use std::marker::Model;

/// What a running collection has seen: nodes by number, from 0, noted references between them, noted mappings, and the
/// black nodes.
#[derive(Drop)]
pub struct Graph {
    nodes: Nodes,
    references: Pool<Reference, 512>,
    mappings: Pool<Mapping, 256>,
    // the mappings with neither a map nor a key
    loose: Chain,
}

impl Model for Graph {
    ghost use Rattle.std.specs.Prelude.{length};
    ghost use Rattle.cc_graph.specs.Shown.{Shown};
    ghost use Rattle.cc_graph.specs.Kept.{IsWhole, edges, hyperedges, spare_of, vertices};

    ghost Value = { Shown };

    ghost view = { λ g. record {
      nodes = vertices g.nodes.nodes;
      edges = edges g.references.items;
      hyperedges = hyperedges g.mappings.items;
      blacks = g.nodes.blacks;
      spare = spare_of g.references.capacity (length g.references.items);
      room = record { nodes = g.nodes.node_room; blacks = g.nodes.black_room; mappings = g.mappings.capacity };
    } };

    ghost invariant = { λ g. IsWhole g.nodes.nodes g.references.items g.mappings.items g.loose g.nodes.blacks };
}

impl Graph {
    /// A graph with no node, no reference and no mapping, and room for none. Takes no memory.
    pub fn new(alloc: Global) -> Graph
        ensures nodes { result.nodes ≡ [] }
        ensures edges { result.edges ≡ [] }
        ensures hyperedges { result.hyperedges ≡ [] }
        ensures blacks { result.blacks ≡ [] }
        ensures spare { result.spare ≡ 0 }
        ensures room { result.room ≡ no_room }
    {
        Graph {
            nodes: Nodes::new(alloc),
            references: Pool::new(alloc),
            mappings: Pool::new(alloc),
            loose: Chain::new(),
        }
    }

    /// No node, no reference and no mapping any more. The room that they took stays, for the next ones; what there was
    /// room for beside them is given back.
    pub fn clear(&mut self)
        ensures empty { IsEmpty self.new }
        ensures room { min (length self.old.edges) 4294967295 ≤ self.new.spare }
        ensures given_back { self.new.spare < length self.old.edges + 512 }
        ensures rooms { KeepsRoom self.old self.new }
    {
        self.nodes.clear();
        self.references.clear();
        self.mappings.clear();
        self.loose = Chain::new();
    }

    /// The number of the node of `name`, which is made where there is none: it goes last, and its number is how many
    /// nodes there were. A node that is there stays as it is, also where it was added with another `held`.
    ///
    /// `NoMemory` leaves everything as it was. The graph has fewer than 4294967295 nodes.
    pub fn add_node(&mut self, name: Name, held: Held) -> Result<u32, NoMemory>
        requires few { length self.old.nodes < 4294967295 }
        ensures nodes { OnOk result (self.new.nodes ≡ with_vertex self.old.nodes name held) }
        ensures number { IfOk result (λ i. number_of self.new.nodes name ≡ Some i) }
        ensures within { IfOk result (λ i. i < length self.new.nodes) }
        ensures kept { length self.old.nodes ≤ length self.new.nodes }
        ensures grows { length self.new.nodes ≤ length self.old.nodes + 1 }
        ensures edges { self.new.edges ≡ self.old.edges }
        ensures hyperedges { self.new.hyperedges ≡ self.old.hyperedges }
        ensures blacks { self.new.blacks ≡ self.old.blacks }
        ensures spare { self.new.spare ≡ self.old.spare }
        ensures node_room { TakesRoom 256 (length self.old.nodes + 1) self.old.room.nodes self.new.room.nodes }
        ensures black_room { TakesRoom 256 (length self.old.nodes + 1) self.old.room.blacks self.new.room.blacks }
        ensures mapping_room { self.new.room.mappings ≡ self.old.room.mappings }
        ensures err { OnErr result (self.new ≡ self.old) }
        ensures no_need { IsSome (number_of self.old.nodes name) → IsOk result }
    {
        let number = self.nodes.add(name, held)?;
        Ok(number)
    }

    /// Room for `edges` more references, and for less than a block beside them where it has to be taken.
    ///
    /// `NoMemory` where the room is not to be had, or there would be more than 4294967295 of them; the room is then what it
    /// was.
    pub fn reserve(&mut self, edges: usize) -> Result<(), NoMemory>
        ensures rest { self.new ≡ record self.old { spare = self.new.spare } }
        ensures room { OnOk result (edges ≤ self.new.spare) }
        ensures kept { self.old.spare ≤ self.new.spare }
        ensures no_need { edges ≤ self.old.spare → IsOk result }
        ensures bounded { self.new.spare < max (self.old.spare + 1) (edges + 512) }
        ensures err { OnErr result (self.new ≡ self.old) }
    {
        if edges == 0 {
            return Ok(());
        }
        let count = self.references.len().checked_add(edges).ok_or(NoMemory)?;
        u32::try_from(count).map_err(|_| NoMemory)?;
        self.references.reserve(edges)
    }

    /// How many more references there is room for.
    pub fn spare(&self) -> usize
        ensures { result ≡ self.now.spare }
    {
        let places = self.references.capacity().min(u32::MAX as usize);
        places.saturating_sub(self.references.len())
    }

    /// The node's count was `count` when it was traversed.
    pub fn sample(&mut self, node: u32, count: u32)
        requires { node < length self.old.nodes }
        ensures sampled { self.new ≡ record self.old { nodes = change_vertex self.old.nodes node (with_sample count) } }
        ensures count { length self.new.nodes ≡ length self.old.nodes }
    {
        let mut sampled = self.nodes.at(node);
        sampled.sample(count);
        self.nodes.put(node, sampled);
    }

    /// The node `from` has a reference to the node `to`, noted last. Takes no memory (`reserve` took it).
    pub fn note_edge(&mut self, from: u32, to: u32)
        requires from { from < length self.old.nodes }
        requires to { to < length self.old.nodes }
        requires room { 0 < self.old.spare }
        ensures { self.new ≡ record self.old { edges = self.old.edges ++ record { source = from; target = to } ∷ []; spare = self.old.spare - 1 } }
    {
        let place = self.references.len() as u32;
        let mut target = self.nodes.at(to);
        target.note();
        self.nodes.put(to, target);
        let mut source = self.nodes.at(from);
        let last = source.references.last;
        source.add_reference(place);
        self.nodes.put(from, source);
        link(&mut self.references, last, place);
        self.references.push(Reference {
            source: from,
            target: to,
            next: None,
        });
    }

    /// A map and a key together hold a value, noted last: `value` is the number of its node, `the_map` and `key` those of
    /// theirs, each where it is a node.
    ///
    /// `NoMemory`, also where there are 4294967296 mappings, leaves everything as it was.
    pub fn note_mapping(
        &mut self,
        the_map: Option<u32>,
        key: Option<u32>,
        value: u32,
    ) -> Result<(), NoMemory>
        requires the_map { IfSome the_map (λ i. i < length self.old.nodes) }
        requires key { IfSome key (λ i. i < length self.old.nodes) }
        requires value { value < length self.old.nodes }
        ensures noted { OnOk result (self.new ≡ record self.old {
          hyperedges = self.old.hyperedges ++ hyperedge the_map key value ∷ [];
          room = record self.old.room { mappings = self.new.room.mappings };
        }) }
        ensures room { TakesRoom 256 (length self.old.hyperedges + 1) self.old.room.mappings self.new.room.mappings }
        ensures err { OnErr result (self.new ≡ self.old) }
    {
        u32::try_from(self.mappings.len()).map_err(|_| NoMemory)?;
        self.mappings.reserve(1)?;
        chain_members(
            &mut self.nodes,
            &mut self.loose,
            &mut self.mappings,
            the_map,
            key,
        );
        self.mappings.push(Mapping::new(the_map, key, value));
        Ok(())
    }

    /// The number of the first node of `name`; none where there is none.
    pub fn node_of(&self, name: &Name) -> Option<u32>
        ensures number { result ≡ number_of self.now.nodes name.now }
        ensures within { IfSome result (λ i. i < length self.now.nodes) }
    {
        self.nodes.number_of(name)
    }

    /// The native with the least number above that of `after`, or of all where there is no `after`, of those that are nodes,
    /// and the number of its node; none where there is no such native. So from none on each comes once, by rising number, at
    /// a cost of the natives that are nodes and of those beside them, and of no others.
    pub fn native_node_after(&self, after: Option<NativeNo>) -> Option<(NativeNo, u32)>
        ensures next { IfSome result (λ r. IsNext (number_of self.now.nodes) after r.0.0 r.1) }
        ensures within { IfSome result (λ r. r.1 < length self.now.nodes) }
        ensures small { IfSome result (λ r. r.0.0 < 2 ^ 32) }
        ensures last { IfNone result (IsLast (number_of self.now.nodes) after) }
    {
        self.nodes.native_after(after)
    }

    /// How many nodes there are.
    pub fn len(&self) -> u32
        ensures count { result ≡ length self.now.nodes }
        ensures closed { IsClosed self.now }
    {
        self.nodes.len()
    }

    /// Whether there is no node.
    pub fn is_empty(&self) -> bool
        ensures { result ≡ (length self.now.nodes == 0) }
    {
        self.nodes.len() == 0
    }

    /// Whether the node is black.
    pub fn is_black(&self, node: u32) -> bool
        requires { node < length self.now.nodes }
        ensures { result ≡ is_black self.now node }
    {
        self.nodes.at(node).black
    }

    /// The node is black from now on, and goes last on the list of black ones, once. Takes no memory (`add_node` took it).
    pub fn blacken(&mut self, node: u32)
        requires { node < length self.old.nodes }
        ensures { self.new ≡ record self.old { blacks = with_black self.old.blacks node } }
    {
        if self.is_black(node) {
            return;
        }
        self.nodes.blacken(node);
    }

    /// Whether some node is not black.
    pub fn has_white(&self) -> bool
        ensures { IsTrue result ↔ ((i : ℕ) × (i < length self.now.nodes) × (is_black self.now i ≡ false)) }
    {
        self.nodes.has_white()
    }

    /// The number of a black node by its place on the list of black ones, from 0; none past its end.
    pub fn black_at(&self, i: u32) -> Option<u32>
        ensures value { result ≡ slice_get self.now.blacks i }
        ensures within { IfSome result (λ k. k < length self.now.nodes) }
        ensures closed { IsClosed self.now }
    {
        self.nodes.black_at(i)
    }

    /// The name of a node, and where its object stands.
    pub fn node(&self, i: u32) -> (Name, Held)
        requires { i < length self.now.nodes }
        ensures name { option_map (λ v. v.name) (slice_get self.now.nodes i) ≡ Some result.0 }
        ensures held { option_map (λ v. v.held) (slice_get self.now.nodes i) ≡ Some result.1 }
    {
        let node = self.nodes.at(i);
        (node.name, node.held)
    }

    /// The count that was sampled of a node; none where none was.
    pub fn sampled(&self, i: u32) -> Option<u32>
        requires { i < length self.now.nodes }
        ensures { option_map (λ v. v.sampled) (slice_get self.now.nodes i) ≡ Some result }
    {
        self.nodes.at(i).sampled
    }

    /// How many noted references lead to a node, each as often as it was noted.
    pub fn noted_to(&self, i: u32) -> usize
        requires { i < length self.now.nodes }
        ensures { result ≡ edges_to self.now.edges i }
    {
        self.nodes.at(i).noted as usize
    }

    /// The numbers of the two nodes of a noted reference, by its place in the order in which they were noted, from 0:
    /// of the node that has it, and of the one that it leads to. None past the end.
    pub fn edge(&self, j: usize) -> Option<(u32, u32)>
        ensures value { option_map (λ e. record { source = e.0; target = e.1 }) result ≡ slice_get self.now.edges j }
        ensures source_within { IfSome result (λ e. e.0 < length self.now.nodes) }
        ensures target_within { IfSome result (λ e. e.1 < length self.now.nodes) }
        ensures closed { IsClosed self.now }
    {
        if j >= self.references.len() {
            return None;
        }
        let reference = self.references.at(j);
        Some((reference.source, reference.target))
    }

    /// The numbers of the nodes of a noted mapping, by its place in the order in which they were noted, from 0: of its map
    /// and of its key, each where it is a node, and of its value. None past the end.
    pub fn mapping(&self, j: usize) -> Option<(Option<u32>, Option<u32>, u32)>
        ensures value { option_map (λ m. hyperedge m.0 m.1 m.2) result ≡ slice_get self.now.hyperedges j }
        ensures map_within { IfSome result (λ m. IfSome m.0 (λ i. i < length self.now.nodes)) }
        ensures key_within { IfSome result (λ m. IfSome m.1 (λ i. i < length self.now.nodes)) }
        ensures value_within { IfSome result (λ m. m.2 < length self.now.nodes) }
        ensures closed { IsClosed self.now }
    {
        if j >= self.mappings.len() {
            return None;
        }
        let mapping = self.mappings.at(j);
        Some((mapping.the_map, mapping.key, mapping.value))
    }

    /// How many mappings are noted.
    pub fn mapping_count(&self) -> usize
        ensures { result ≡ length self.now.hyperedges }
    {
        self.mappings.len()
    }

    /// The place of the first reference that a node has; none where it has none.
    pub fn first_from(&self, i: u32) -> Option<usize>
        requires { i < length self.now.nodes }
        ensures place { result ≡ place_from self.now.edges i 0 }
        ensures within { IfSome result (λ j. j < length self.now.edges) }
        ensures source { IfSome result (λ j. option_map (λ e. e.source) (slice_get self.now.edges j) ≡ Some i) }
    {
        widen(self.nodes.at(i).references.first)
    }

    /// The place, behind `j`, of the next reference of the node that has the one at `j`; none where that is its last.
    pub fn next_from(&self, j: usize) -> Option<usize>
        requires { j < length self.now.edges }
        ensures place { option_map (λ e. place_from self.now.edges e.source (j + 1)) (slice_get self.now.edges j) ≡ Some result }
        ensures within { IfSome result (λ k. k < length self.now.edges) }
        ensures behind { IfSome result (λ k. j < k) }
        ensures source { IfSome result (λ k. option_map (λ e. e.source) (slice_get self.now.edges k) ≡ option_map (λ e. e.source)
            (slice_get self.now.edges j)) }
    {
        widen(self.references.at(j).next)
    }

    /// The place of the first mapping whose map or key is this node; for none, of the first one that has neither a map nor
    /// a key. None where there is no such one.
    pub fn first_with(&self, node: Option<u32>) -> Option<usize>
        requires { IfSome node (λ i. i < length self.now.nodes) }
        ensures place { result ≡ place_with self.now.hyperedges node 0 }
        ensures within { IfSome result (λ j. j < length self.now.hyperedges) }
        ensures member { IfSome result (λ j. option_map (is_with node) (slice_get self.now.hyperedges j) ≡ Some true) }
    {
        widen(chain_of(&self.nodes, &self.loose, node).first)
    }

    /// The place, behind `place`, of the next mapping whose map or key is the node that the one at `place` has for its map
    /// or key; for none, where that one has neither, of the next such one. None where that is the last.
    pub fn next_with(&self, node: Option<u32>, place: usize) -> Option<usize>
        requires { option_map (is_with node) (slice_get self.now.hyperedges place) ≡ Some true }
        ensures place { result ≡ place_with self.now.hyperedges node (place + 1) }
        ensures within { IfSome result (λ k. k < length self.now.hyperedges) }
        ensures behind { IfSome result (λ k. place < k) }
        ensures member { IfSome result (λ k. option_map (is_with node) (slice_get self.now.hyperedges k) ≡ Some true) }
    {
        widen(self.mappings.at(place).next_with(node))
    }
}

/// A place that is kept in 32 bits.
fn widen(place: Option<u32>) -> Option<usize>
    ensures { result ≡ place }
{
    match place {
        Some(place) => Some(place as usize),
        None => None,
    }
}

/// The next reference after the last one of a node, where it has one, is at this place.
fn link(references: &mut Pool<Reference, 512>, last: Option<u32>, place: u32)
    requires { IfSome last (λ l. l < length references.old.items) }
    ensures { references.new ≡ record references.old { items = with_next references.old.items last place } }
{
    if let Some(last) = last {
        let mut linked = *references.at(last as usize);
        linked.next = Some(place);
        references.set(last as usize, linked);
    }
}

/// The mapping of a map and a key that goes last, and is still to come, is chained behind the others of each. It takes no
/// memory.
fn chain_members(
    nodes: &mut Nodes,
    loose: &mut Chain,
    mappings: &mut Pool<Mapping, 256>,
    the_map: Option<u32>,
    key: Option<u32>,
)
    requires the_map { IfSome the_map (λ i. i < length nodes.old.nodes) }
    requires key { IfSome key (λ i. i < length nodes.old.nodes) }
    requires few { length mappings.old.items < 2 ^ 32 }
    requires chained { AreMappings (chain_of nodes.old.nodes loose.old) (λ node. hyperedges mappings.old.items) mappings.old.items }
    ensures chained { (value : ℕ) → AreMappings (chain_of nodes.new.nodes loose.new)
        (λ node. hyperedges mappings.old.items ++ hyperedge the_map key value ∷ []) mappings.new.items }
    ensures nodes { but_mappings nodes.new.nodes ≡ but_mappings nodes.old.nodes }
    ensures blacks { nodes.new.blacks ≡ nodes.old.blacks }
    ensures node_room { nodes.new.node_room ≡ nodes.old.node_room }
    ensures black_room { nodes.new.black_room ≡ nodes.old.black_room }
    ensures shown { hyperedges mappings.new.items ≡ hyperedges mappings.old.items }
    ensures room { mappings.new.capacity ≡ mappings.old.capacity }
{
    let place = mappings.len() as u32;
    chain(nodes, loose, mappings, the_map.or(key), place);
    if is_one(the_map, key) {
        return;
    }
    chain(nodes, loose, mappings, key, place);
}

/// Whether a map and a key are the same node, or one of them is none.
fn is_one(the_map: Option<u32>, key: Option<u32>) -> bool
    ensures { result ≡ is_one the_map key }
{
    match (the_map, key) {
        (Some(the_map), Some(key)) => the_map == key,
        _ => true,
    }
}

/// The mapping at this place is chained behind the others of a node; for none, behind those with neither a map nor a key.
fn chain(
    nodes: &mut Nodes,
    loose: &mut Chain,
    mappings: &mut Pool<Mapping, 256>,
    node: Option<u32>,
    place: u32,
)
    requires node { IfSome node (λ i. i < length nodes.old.nodes) }
    requires last { IfSome (last_of (chain_of nodes.old.nodes loose.old node)) (λ l. l < length mappings.old.items) }
    ensures nodes { nodes.new ≡ record nodes.old { nodes = nodes_with nodes.old.nodes node place } }
    ensures loose { loose.new ≡ loose_with loose.old node place }
    ensures mappings { mappings.new ≡ record mappings.old {
      items = with_link (with_next_with node) mappings.old.items (last_of (chain_of nodes.old.nodes loose.old node)) place;
    } }
{
    if let Some(last) = chain_of(nodes, loose, node).last {
        let mut linked = *mappings.at(last as usize);
        linked.link(node, place);
        mappings.set(last as usize, linked);
    }
    add_mapping(nodes, loose, node, place);
}

/// The mappings of a node; for none, those with neither a map nor a key.
fn chain_of(nodes: &Nodes, loose: &Chain, node: Option<u32>) -> Chain
    requires { IfSome node (λ i. i < length nodes.now.nodes) }
    ensures { chain_of nodes.now.nodes loose.now node ≡ Some result }
{
    match node {
        Some(i) => nodes.at(i).mappings,
        None => *loose,
    }
}

/// One more mapping of a node stands at this place; for none, one more with neither a map nor a key.
fn add_mapping(nodes: &mut Nodes, loose: &mut Chain, node: Option<u32>, place: u32)
    requires { IfSome node (λ i. i < length nodes.old.nodes) }
    ensures nodes { nodes.new ≡ record nodes.old { nodes = nodes_with nodes.old.nodes node place } }
    ensures loose { loose.new ≡ loose_with loose.old node place }
{
    let Some(i) = node else {
        loose.add(place);
        return;
    };
    let mut kept = nodes.at(i);
    kept.add_mapping(place);
    nodes.put(i, kept);
}
