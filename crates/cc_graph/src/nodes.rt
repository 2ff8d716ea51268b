//! The nodes by number and by name, and the list of black ones.

ghost use Rattle.std.specs.Prelude.{◌≡◌, ◌+◌, ◌<◌, ◌≤◌, ◌^◌, ◌==◌, ◌++◌, [], ◌∷◌, length, slice_get, slice_index_or, slice_set, ℕ, ◌↔◌, false, None, IsTrue, unwrap_or, IfNone, IfOk, IfSome, OnErr, OnOk};
ghost use Rattle.cc_lists.specs.Members.{has};
ghost use Rattle.cc_graph.specs.Shown.{number_of};
ghost use Rattle.cc_graph.specs.Natives.{IsLast, IsNext};
ghost use Rattle.cc_graph.specs.Rooms.{HasRoom, TakesRoom};
ghost use Rattle.cc_graph.specs.Kept.{vertices, with_black_node, with_node};

use crate::node::Node;
use crate::numbers::Numbers;
use cc_counted::Held;
use cc_names::{Name, NativeNo, NoMemory};
use cc_pool::Pool;
use std::alloc::Global;
use std::marker::Model;

/// The nodes, known by number and by name, and the black ones in the order in which they became so.
///
/// `add` alone takes memory, also for the day on which the node becomes black.
#[derive(Drop)]
pub(crate) struct Nodes {
    nodes: Pool<Node, 256>,
    blacks: Pool<u32, 256>,
    // the number of each node by its name
    numbers: Numbers,
}

impl Model for Nodes {
    ghost use Rattle.cc_graph.specs.Kept.{Numbered, IsNumbered};

    ghost Value = { Numbered };

    ghost view = { λ n. record { nodes = n.nodes.items; blacks = n.blacks.items; node_room = n.nodes.capacity; black_room = n.blacks.capacity } };

    ghost invariant = { λ n. IsNumbered n.nodes.items n.blacks.items n.blacks.capacity n.numbers };
}

impl Nodes {
    /// No node.
    pub(crate) fn new(alloc: Global) -> Nodes
        ensures { result ≡ record { nodes = []; blacks = []; node_room = 0; black_room = 0 } }
    {
        Nodes {
            nodes: Pool::new(alloc),
            blacks: Pool::new(alloc),
            numbers: Numbers::new(alloc),
        }
    }

    /// No node any more. There is room for as many as there were, and for less than a block more.
    pub(crate) fn clear(&mut self)
        ensures nodes { self.new.nodes ≡ [] }
        ensures blacks { self.new.blacks ≡ [] }
        ensures node_room { HasRoom 256 (length self.old.nodes) self.new.node_room }
        ensures black_room { HasRoom 256 (length self.old.blacks) self.new.black_room }
    {
        self.nodes.clear();
        self.blacks.clear();
        self.numbers.clear();
    }

    /// The number of the node of a name, which goes last where there is none: its number is then how many there were.
    ///
    /// `NoMemory`, only where there is none, leaves everything as it was.
    pub(crate) fn add(&mut self, name: Name, held: Held) -> Result<u32, NoMemory>
        requires few { length self.old.nodes < 4294967295 }
        ensures nodes { OnOk result (self.new.nodes ≡ with_node self.old.nodes name held) }
        ensures number { IfOk result (λ i. i ≡ unwrap_or (number_of (vertices self.old.nodes) name) (length self.old.nodes)) }
        ensures blacks { self.new.blacks ≡ self.old.blacks }
        ensures node_room { TakesRoom 256 (length self.old.nodes + 1) self.old.node_room self.new.node_room }
        ensures black_room { TakesRoom 256 (length self.old.nodes + 1) self.old.black_room self.new.black_room }
        ensures err { OnErr result (self.new ≡ self.old) }
        ensures absent { OnErr result (number_of (vertices self.old.nodes) name ≡ None) }
    {
        let count = self.nodes.len() as u32;
        let number = self.numbers.get_or_add(name, count)?;
        if number != count {
            return Ok(number);
        }
        if reserve_one(&mut self.nodes, &mut self.blacks).is_err() {
            self.numbers.remove(name);
            return Err(NoMemory);
        }
        self.nodes.push(Node::new(name, held));
        Ok(number)
    }

    /// The number of the node of a name; none where there is none.
    pub(crate) fn number_of(&self, name: &Name) -> Option<u32>
        ensures number { result ≡ number_of (vertices self.now.nodes) name.now }
        ensures within { IfSome result (λ i. i < length self.now.nodes) }
    {
        self.numbers.get(name)
    }

    /// The native with the least number above that of `after`, or of all where there is no `after`, of those that are nodes,
    /// and the number of its node; none where there is no such native.
    pub(crate) fn native_after(&self, after: Option<NativeNo>) -> Option<(NativeNo, u32)>
        ensures next { IfSome result (λ r. IsNext (number_of (vertices self.now.nodes)) after r.0.0 r.1) }
        ensures small { IfSome result (λ r. r.0.0 < 2 ^ 32) }
        ensures last { IfNone result (IsLast (number_of (vertices self.now.nodes)) after) }
    {
        self.numbers.native_after(after)
    }

    /// How many nodes there are.
    pub(crate) fn len(&self) -> u32
        ensures count { result ≡ length self.now.nodes }
        ensures few { length self.now.nodes < 2 ^ 32 }
    {
        self.nodes.len() as u32
    }

    /// The node with a number.
    pub(crate) fn at(&self, i: u32) -> Node
        requires { i < length self.now.nodes }
        ensures value { result ≡ slice_index_or self.now.nodes i result }
        ensures black { result.black ≡ has ◌==◌ self.now.blacks i }
    {
        *self.nodes.at(i as usize)
    }

    /// What is kept of the node with a number is this from now on. Its name and its being black or not stay.
    pub(crate) fn put(&mut self, i: u32, node: Node)
        requires within { i < length self.old.nodes }
        requires name { node.name ≡ (slice_index_or self.old.nodes i node).name }
        requires black { node.black ≡ (slice_index_or self.old.nodes i node).black }
        ensures { self.new ≡ record self.old { nodes = slice_set self.old.nodes i node } }
    {
        self.nodes.set(i as usize, node);
    }

    /// A node that is not black becomes so, and goes last on the list of black ones.
    pub(crate) fn blacken(&mut self, i: u32)
        requires within { i < length self.old.nodes }
        requires white { has ◌==◌ self.old.blacks i ≡ false }
        ensures { self.new ≡ record self.old { nodes = with_black_node self.old.nodes i; blacks = self.old.blacks ++ i ∷ [] } }
    {
        let mut black = *self.nodes.at(i as usize);
        black.blacken();
        self.nodes.set(i as usize, black);
        self.blacks.push(i);
    }

    /// Whether some node is not black.
    pub(crate) fn has_white(&self) -> bool
        ensures { IsTrue result ↔ ((i : ℕ) × (i < length self.now.nodes) × (has ◌==◌ self.now.blacks i ≡ false)) }
    {
        self.blacks.len() < self.nodes.len()
    }

    /// The number of a black node by its place on the list of black ones, from 0; none past its end.
    pub(crate) fn black_at(&self, i: u32) -> Option<u32>
        ensures { result ≡ slice_get self.now.blacks i }
    {
        if i as usize >= self.blacks.len() {
            return None;
        }
        Some(*self.blacks.at(i as usize))
    }
}

/// Room for one more node, and for all to become black. Where it is not to be had the room is what it was.
fn reserve_one(nodes: &mut Pool<Node, 256>, blacks: &mut Pool<u32, 256>) -> Result<(), NoMemory>
    requires { length blacks.old.items ≤ length nodes.old.items }
    ensures nodes { nodes.new.items ≡ nodes.old.items }
    ensures blacks { blacks.new.items ≡ blacks.old.items }
    ensures node_room { OnOk result (length nodes.old.items + 1 ≤ nodes.new.capacity) }
    ensures black_room { OnOk result (length nodes.old.items + 1 ≤ blacks.new.capacity) }
    ensures nodes_taken { TakesRoom 256 (length nodes.old.items + 1) nodes.old.capacity nodes.new.capacity }
    ensures blacks_taken { TakesRoom 256 (length nodes.old.items + 1) blacks.old.capacity blacks.new.capacity }
    ensures node_refused { OnErr result (nodes.new.capacity ≡ nodes.old.capacity) }
    ensures black_refused { OnErr result (blacks.new.capacity ≡ blacks.old.capacity) }
{
    let had = nodes.capacity();
    nodes.reserve(1)?;
    let refused = blacks.reserve(nodes.len() + 1 - blacks.len());
    if refused.is_err() {
        nodes.shrink_to(had);
    }
    refused
}
