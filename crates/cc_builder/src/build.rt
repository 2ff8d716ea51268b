//! A build: its begin, its abandonment, and its graph.
ghost use Rattle.std.specs.Prelude.{◌≡◌, ◌≢◌, ◌<◌, [], length, None, Some, IsSome, OnOk, OnErr, IfOk, IfSome, true, map, option_map};
ghost use Rattle.cc_lists.specs.Members.{Among, with_all_last};
ghost use Rattle.cc_names.specs.Names.{native, natives_in, same_name};
ghost use Rattle.cc_model.specs.WellFormed.{native_names};
ghost use Rattle.cc_model.specs.Units.{begun, candidates_of, holders_of, with_empty_buffer};
ghost use Rattle.cc_model.specs.View.{view};
ghost use Rattle.cc_model.specs.Colours.{HasColourInvariant};
ghost use Rattle.cc_model.specs.Suspected.{IsSuspected};
ghost use Rattle.cc_model.specs.End.{may_be_refused};
ghost use Rattle.cc_model.specs.End as end;
ghost use Rattle.cc_laws_snapshot.specs.Kinds.{IsFreshIn};
ghost use Rattle.cc_graph.specs.Shown.{IsEmpty, number_of};
ghost use Rattle.cc_heaps.specs.Keyed.{IsInOrder, number_at, the_number, changed_to};
ghost use Rattle.cc_heaps.specs.Changes.{IsThere, KeepsKeys};
ghost use Rattle.cc_counted.specs.Suspects.{is_purple_in};
ghost use Rattle.cc_builder.specs.Beginning.{HasBegun, IsUnseen};
ghost use Rattle.cc_builder.specs.Building.{IsBuilt, vertex_name, vertex_names, snapshot_of};
ghost use Rattle.cc_graph.specs.Held.{AreHeld};
ghost use Rattle.cc_heaps.specs.HasKey.{HasKey};
ghost use Rattle.cc_builder.specs.BuildSteps.{purple_name, the_name, with_vertex_of};

mod mappings;
mod traversing;

use cc_counted::Held;
use cc_graph::Graph;
use cc_heaps::Heaps;
use cc_names::{Colour, NKey, Name, NoMemory};
use std::alloc::Global;
use std::marker::Model;

/// What a step of a build came to.
#[derive(Clone, Copy, Debug, PartialEq, Eq, Drop)]
pub enum Step {
    /// A node was traversed.
    Traversed,
    /// A node was passed over: its native is no more.
    Gone,
    /// Nothing: every node is traversed.
    Complete,
}

/// A collection's snapshot while it is built: the graph, whose first `candidates` nodes were purple when the collection
/// began, and whose nodes before `next` are traversed or gone.
#[derive(Drop)]
pub struct Build {
    graph: Graph,
    candidates: u32,
    next: u32,
}

impl Model for Build {
    ghost use Rattle.cc_builder.specs.Building.{Built};

    ghost Value = { Built };

    ghost view = { λ b. record { graph = b.graph; candidates = b.candidates; next = b.next } };
}

impl Build {
    /// Begins a collection: the purple natives of the buffer, in its order, become nodes (the candidates), then each
    /// native that holds a gray script object, in a slot or as its preserved reflector, by rising number. What each entry of
    /// a weak map gives that is gray is noted as a mapping, in the order in which entries were first set: first a key that is
    /// a gray proxy, by map and delegate, then a gray value, by map and key; the two, each where it is gray, and what they
    /// give become nodes. And the buffer is emptied.
    ///
    /// `NoMemory`, only where a node is added, leaves the buffer's contents, order and marks as they were.
    pub fn begin(alloc: Global, heaps: &mut Heaps) -> Result<Build, NoMemory>
        requires order { IsInOrder [] heaps.old }
        ensures begun { IfOk result (λ b. HasBegun heaps.old heaps.new b) }
        ensures unseen { IsUnseen heaps.old heaps.new }
        ensures unchanged { OnErr result (heaps.new ≡ heaps.old) }
        ensures refused { OnErr result (may_be_refused heaps.old.heap None ≡ true) }
    {
        Build::begin_in(Graph::new(alloc), heaps)
    }

    /// Begins a collection as `begin` does, in the room that an empty graph has: memory is taken only for what goes beyond.
    pub fn begin_in(graph: Graph, heaps: &mut Heaps) -> Result<Build, NoMemory>
        requires empty { IsEmpty graph }
        requires order { IsInOrder [] heaps.old }
        ensures begun { IfOk result (λ b. HasBegun heaps.old heaps.new b) }
        ensures room { IfOk result (λ b. b.graph.spare ≡ graph.spare) }
        ensures unseen { IsUnseen heaps.old heaps.new }
        ensures unchanged { OnErr result (heaps.new ≡ heaps.old) }
        ensures refused { OnErr result (may_be_refused heaps.old.heap None ≡ true) }
    {
        let mut build = Build::of_purple(graph, heaps)?;
        build.add_holders(heaps)?;
        build.add_mappings(heaps)?;
        empty_buffer(heaps);
        Ok(build)
    }

    /// Each native that holds a gray script object, in a slot or as its preserved reflector, becomes a node, by rising
    /// number, last, where it is none.
    ///
    /// `NoMemory` only where there is such a native.
    fn add_holders(&mut self, heaps: &Heaps) -> Result<(), NoMemory>
        requires built { IsBuilt self.old heaps.now }
        requires held { AreHeld self.old.graph (HasKey heaps.now) }
        requires order { IsInOrder [] heaps.now }
        ensures names { OnOk result (vertex_names self.new.graph.nodes ≡ with_all_last same_name (vertex_names self.old.graph.nodes)
            (holders_of heaps.now.heap)) }
        ensures edges { self.new.graph.edges ≡ self.old.graph.edges }
        ensures hyperedges { self.new.graph.hyperedges ≡ self.old.graph.hyperedges }
        ensures next { self.new.next ≡ self.old.next }
        ensures candidates { self.new.candidates ≡ self.old.candidates }
        ensures spare { self.new.graph.spare ≡ self.old.graph.spare }
        ensures refused { OnErr result (holders_of heaps.now.heap ≢ []) }
        ensures built { IsBuilt self.new heaps.now }
        ensures held { AreHeld self.new.graph (HasKey heaps.now) }
    {
        if !heaps.scripts().has_colour(Colour::Gray) {
            // nothing is gray, so no native holds anything gray
            return Ok(());
        }
        let mut holder = heaps.next_holder(None);
        'holders: while let Some(key) = holder {
            self.add_object(Held::Native(key), heaps)?;
            holder = heaps.next_holder(Some(key));
        }
        Ok(())
    }

    /// The purple natives of the buffer, in its order, as nodes of an empty graph: the candidates.
    ///
    /// `NoMemory` only where there is such a native.
    fn of_purple(graph: Graph, heaps: &Heaps) -> Result<Build, NoMemory>
        requires empty { IsEmpty graph }
        requires order { IsInOrder [] heaps.now }
        ensures names { IfOk result (λ b. vertex_names b.graph.nodes ≡ with_all_last same_name [] (map native (candidates_of heaps.now.heap))) }
        ensures edges { IfOk result (λ b. b.graph.edges ≡ []) }
        ensures hyperedges { IfOk result (λ b. b.graph.hyperedges ≡ []) }
        ensures next { IfOk result (λ b. b.next ≡ 0) }
        ensures candidates { IfOk result (λ b. b.candidates ≡ length b.graph.nodes) }
        ensures spare { IfOk result (λ b. b.graph.spare ≡ graph.spare) }
        ensures built { IfOk result (λ b. IsBuilt b heaps.now) }
        ensures held { IfOk result (λ b. AreHeld b.graph (HasKey heaps.now)) }
        ensures refused { OnErr result (may_be_refused heaps.now.heap None ≡ true) }
    {
        let counted = heaps.counted();
        let mut build = Build {
            graph,
            candidates: 0,
            next: 0,
        };
        let mut suspect = counted.first_in_buffer();
        'buffer: while let Some(key) = suspect {
            build.add_purple(key, heaps)?;
            suspect = counted.next_in_buffer(key);
        }
        build.candidates = build.len();
        Ok(build)
    }

    /// Gives the collection up: the candidates that still exist are purple in the buffer again, and one that is there
    /// keeps its place. Takes no memory.
    pub fn abandon(self, heaps: &mut Heaps)
        requires built { IsBuilt self heaps.old }
        requires held { AreHeld self.graph (HasKey heaps.old) }
        requires order { IsInOrder [] heaps.old }
        ensures heap { heaps.new ≡ changed_to heaps.old (end.give_back (snapshot_of self).candidates heaps.old.heap) }
        ensures suspected { IsSuspected (view heaps.old.heap) (snapshot_of self).candidates → IsSuspected (view heaps.new.heap) [] }
        ensures unseen { IsUnseen heaps.old heaps.new }
    {
        let candidates = self.candidates;
        for i in 0..candidates {
            self.give_back(i, heaps);
        }
    }

    /// The graph of a build in which every node is traversed.
    pub fn finish(self) -> Graph
        ensures { result ≡ self.graph }
    {
        self.graph
    }

    /// How many nodes there are.
    fn len(&self) -> u32
        ensures { result ≡ length self.now.graph.nodes }
    {
        self.graph.len()
    }

    /// Where the native of a node stands, as long as it is there.
    pub(super) fn native_of(&self, node: u32, heaps: &Heaps) -> Option<NKey>
        requires built { IsBuilt self.now heaps.now }
        requires held { AreHeld self.now.graph (HasKey heaps.now) }
        requires order { IsInOrder [] heaps.now }
        requires within { node < length self.now.graph.nodes }
        ensures there { IfSome result (λ key. option_map native (number_at heaps.now key.0) ≡ Some (vertex_name self.now.graph.nodes node)) }
        ensures gone { result ≡ None → ¬ (Among (vertex_name self.now.graph.nodes node) (native_names heaps.now.heap)) }
    {
        let (name, held) = self.graph.node(node);
        let Name::Native(number) = name else {
            return None;
        };
        let Held::Native(key) = held else {
            return None;
        };
        match heaps.counted().number(key) {
            Some(now) if now == number => Some(key),
            _ => None,
        }
    }

    /// A node's native, as long as it is there, is purple in the buffer again.
    fn give_back(&self, node: u32, heaps: &mut Heaps)
        requires built { IsBuilt self.now heaps.old }
        requires held { AreHeld self.now.graph (HasKey heaps.old) }
        requires order { IsInOrder [] heaps.old }
        requires within { node < length self.now.graph.nodes }
        ensures heap { heaps.new ≡ changed_to heaps.old (end.give_back (natives_in (vertex_name self.now.graph.nodes node)) heaps.old.heap) }
        ensures built { IsBuilt self.now heaps.new }
        ensures held { AreHeld self.now.graph (HasKey heaps.new) }
        ensures order { IsInOrder [] heaps.new }
    {
        if let Some(key) = self.native_of(node, heaps) {
            heaps.give_back(key);
        }
    }

    /// A native becomes a node, last, where it is purple in the buffer and no node.
    ///
    /// `NoMemory`, only where it is purple, leaves the build as it was.
    fn add_purple(&mut self, key: NKey, heaps: &Heaps) -> Result<(), NoMemory>
        requires built { IsBuilt self.old heaps.now }
        requires held { AreHeld self.old.graph (HasKey heaps.now) }
        requires order { IsInOrder [] heaps.now }
        requires live { IsSome (number_at heaps.now key.0) }
        ensures names { OnOk result (vertex_names self.new.graph.nodes ≡ with_all_last same_name (vertex_names self.old.graph.nodes)
            (purple_name heaps.now.heap (the_number heaps.now key.0))) }
        ensures edges { self.new.graph.edges ≡ self.old.graph.edges }
        ensures hyperedges { self.new.graph.hyperedges ≡ self.old.graph.hyperedges }
        ensures next { self.new.next ≡ self.old.next }
        ensures candidates { self.new.candidates ≡ self.old.candidates }
        ensures spare { self.new.graph.spare ≡ self.old.graph.spare }
        ensures refused { OnErr result (is_purple_in heaps.now.heap.buffer (the_number heaps.now key.0) ≡ true) }
        ensures built { IsBuilt self.new heaps.now }
        ensures held { AreHeld self.new.graph (HasKey heaps.now) }
    {
        if heaps.counted().purple(key) {
            self.add_object(Held::Native(key), heaps)?;
        }
        Ok(())
    }

    /// An object becomes a node, last, where it is none. The number of its node.
    ///
    /// `NoMemory` leaves the build as it was.
    pub(super) fn add_object(&mut self, object: Held, heaps: &Heaps) -> Result<u32, NoMemory>
        requires built { IsBuilt self.old heaps.now }
        requires held { AreHeld self.old.graph (HasKey heaps.now) }
        requires order { IsInOrder [] heaps.now }
        requires there { IsThere heaps.now (Some object) }
        ensures added { OnOk result (self.new ≡ with_vertex_of self.old (the_name heaps.now object) object self.new.graph.room) }
        ensures number { IfOk result (λ i. number_of self.new.graph.nodes (the_name heaps.now object) ≡ Some i) }
        ensures refused { OnErr result (self.new ≡ self.old) }
        ensures built { IsBuilt self.new heaps.now }
        ensures held { AreHeld self.new.graph (HasKey heaps.now) }
    {
        let name = name_of(heaps, object);
        let node = self.graph.add_node(name, object)?;
        Ok(node)
    }
}

/// The name of an object that is there.
fn name_of(heaps: &Heaps, object: Held) -> Name
    requires { IsThere heaps.now (Some object) }
    ensures { result ≡ the_name heaps.now object }
{
    match object {
        Held::Native(key) => match heaps.counted().number(key) {
            Some(number) => Name::Native(number),
            None => unreachable!(),
        },
        Held::Script(key) => heaps.scripts().name(key),
    }
}

/// Takes all out of the buffer.
fn empty_buffer(heaps: &mut Heaps)
    requires order { IsInOrder [] heaps.old }
    ensures heap { heaps.new ≡ changed_to heaps.old (with_empty_buffer heaps.old.heap) }
    ensures order { IsInOrder [] heaps.new }
{
    'buffer: while let Some(_front) = heaps.select_next() {}
}
