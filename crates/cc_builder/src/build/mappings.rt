//! What entries of weak maps give that is gray, noted as mappings: of an entry first a key that is a proxy, then its value.
ghost use Rattle.std.specs.Prelude.{◌≡◌, ◌≢◌, ◌<◌, ◌++◌, ◌∷◌, [], length, map, flat_map, IsTrue, IfOk, IfSome, OnOk, OnErr, Some, option_map, option_to_list};
ghost use Rattle.cc_lists.specs.Members.{with_all_last};
ghost use Rattle.cc_names.specs.Names.{same_name};
ghost use Rattle.cc_model.specs.Units.{if_gray, mappings_of, members_of};
ghost use Rattle.cc_model.specs.Units as units;
ghost use Rattle.cc_script.specs.Objects.{is_there};
ghost use Rattle.cc_graph.specs.Held.{AreHeld};
ghost use Rattle.cc_heaps.specs.Keyed.{IsInOrder, the_name_at};
ghost use Rattle.cc_heaps.specs.HasKey.{HasKey};
ghost use Rattle.cc_builder.specs.Building.{IsBuilt, mapping_of, vertex_name, vertex_names};
ghost use Rattle.cc_builder.specs.BuildSteps.{IsMapNode, key_mappings, mappings_at, mappings_in, named_joint};

use crate::build::Build;
use cc_counted::Held;
use cc_heaps::Heaps;
use cc_names::{Colour, NoMemory, SKey};

/// The map of an entry, and the number of its node; none where it is not gray.
#[derive(Clone, Copy, Drop)]
struct MapNode {
    the_map: SKey,
    node: Option<u32>,
}

impl Build {
    /// What each entry of a weak map gives that is gray is noted as a mapping, in the order in which entries were first
    /// set: first a key that is a gray proxy, by map and delegate, then a gray value, by map and key. The two that give it,
    /// each where it is gray, and what they give become nodes, in this order, last, where they are none.
    ///
    /// `NoMemory` only where there is such an entry.
    pub(super) fn add_mappings(&mut self, heaps: &Heaps) -> Result<(), NoMemory>
        requires built { IsBuilt self.old heaps.now }
        requires held { AreHeld self.old.graph (HasKey heaps.now) }
        requires order { IsInOrder [] heaps.now }
        ensures names { OnOk result (vertex_names self.new.graph.nodes
            ≡ with_all_last same_name (vertex_names self.old.graph.nodes) (flat_map members_of (mappings_of heaps.now.heap))) }
        ensures mappings { OnOk result (map (mapping_of self.new.graph.nodes) self.new.graph.hyperedges
            ≡ map (mapping_of self.old.graph.nodes) self.old.graph.hyperedges ++ mappings_of heaps.now.heap) }
        ensures edges { self.new.graph.edges ≡ self.old.graph.edges }
        ensures next { self.new.next ≡ self.old.next }
        ensures candidates { self.new.candidates ≡ self.old.candidates }
        ensures spare { self.new.graph.spare ≡ self.old.graph.spare }
        ensures refused { OnErr result (mappings_of heaps.now.heap ≢ []) }
        ensures built { IsBuilt self.new heaps.now }
        ensures held { AreHeld self.new.graph (HasKey heaps.now) }
    {
        if !heaps.scripts().has_colour(Colour::Gray) {
            // nothing is gray, so no entry gives anything gray
            return Ok(());
        }
        let mut last = None;
        for i in 0..heaps.weak().len() {
            last = self.add_mapping(i, last, heaps)?;
        }
        Ok(())
    }

    /// What the entry at place `i`, counted from 0, gives is noted where it is gray: first its key, where this is a proxy,
    /// then its value. The map of the last one that was noted, with its node; `last` is that of the one before, whose node is
    /// not looked up again.
    ///
    /// `NoMemory` only where one of them is.
    fn add_mapping(
        &mut self,
        i: usize,
        last: Option<MapNode>,
        heaps: &Heaps,
    ) -> Result<Option<MapNode>, NoMemory>
        requires built { IsBuilt self.old heaps.now }
        requires held { AreHeld self.old.graph (HasKey heaps.now) }
        requires order { IsInOrder [] heaps.now }
        requires within { i < length heaps.now.entries }
        requires last { IfSome last (λ m. IsMapNode heaps.now self.old.graph.nodes m.the_map.0 m.node) }
        ensures last { IfOk result (λ l. IfSome l (λ m. IsMapNode heaps.now self.new.graph.nodes m.the_map.0 m.node)) }
        ensures names { OnOk result (vertex_names self.new.graph.nodes
            ≡ with_all_last same_name (vertex_names self.old.graph.nodes) (flat_map members_of (mappings_at heaps.now i))) }
        ensures mappings { OnOk result (map (mapping_of self.new.graph.nodes) self.new.graph.hyperedges
            ≡ map (mapping_of self.old.graph.nodes) self.old.graph.hyperedges ++ mappings_at heaps.now i) }
        ensures edges { self.new.graph.edges ≡ self.old.graph.edges }
        ensures next { self.new.next ≡ self.old.next }
        ensures candidates { self.new.candidates ≡ self.old.candidates }
        ensures spare { self.new.graph.spare ≡ self.old.graph.spare }
        ensures refused { OnErr result (mappings_at heaps.now i ≢ []) }
        ensures built { IsBuilt self.new heaps.now }
        ensures held { AreHeld self.new.graph (HasKey heaps.now) }
    {
        let (the_map, key, delegate, value) = heaps.weak().entry(i);
        let last = self.add_key(the_map, delegate, key, last, heaps)?;
        self.add_joint(the_map, key, value, last, heaps)
    }

    /// The key of an entry is noted, by map and delegate, where it is a proxy and gray. The map of the last one that was
    /// noted, with its node.
    ///
    /// `NoMemory` only where it is.
    fn add_key(
        &mut self,
        the_map: SKey,
        delegate: Option<SKey>,
        key: SKey,
        last: Option<MapNode>,
        heaps: &Heaps,
    ) -> Result<Option<MapNode>, NoMemory>
        requires built { IsBuilt self.old heaps.now }
        requires held { AreHeld self.old.graph (HasKey heaps.now) }
        requires order { IsInOrder [] heaps.now }
        requires the_map { IsTrue (is_there heaps.now.scripts the_map.0) }
        requires delegate { IfSome delegate (λ d. IsTrue (is_there heaps.now.scripts d.0)) }
        requires key { IsTrue (is_there heaps.now.scripts key.0) }
        requires last { IfSome last (λ m. IsMapNode heaps.now self.old.graph.nodes m.the_map.0 m.node) }
        ensures last { IfOk result (λ l. IfSome l (λ m. IsMapNode heaps.now self.new.graph.nodes m.the_map.0 m.node)) }
        ensures names { OnOk result (vertex_names self.new.graph.nodes
            ≡ with_all_last same_name (vertex_names self.old.graph.nodes)
            (flat_map members_of (key_mappings heaps.now the_map.0 (option_map (λ d. d.0) delegate) key.0))) }
        ensures mappings { OnOk result (map (mapping_of self.new.graph.nodes) self.new.graph.hyperedges
            ≡ map (mapping_of self.old.graph.nodes) self.old.graph.hyperedges ++ key_mappings heaps.now the_map.0 (option_map (λ d. d.0) delegate) key.0) }
        ensures edges { self.new.graph.edges ≡ self.old.graph.edges }
        ensures next { self.new.next ≡ self.old.next }
        ensures candidates { self.new.candidates ≡ self.old.candidates }
        ensures spare { self.new.graph.spare ≡ self.old.graph.spare }
        ensures refused { OnErr result (key_mappings heaps.now the_map.0 (option_map (λ d. d.0) delegate) key.0 ≢ []) }
        ensures built { IsBuilt self.new heaps.now }
        ensures held { AreHeld self.new.graph (HasKey heaps.now) }
    {
        match delegate {
            Some(delegate) => self.add_joint(the_map, delegate, key, last, heaps),
            None => Ok(last),
        }
    }

    /// What two members of an entry, the first of which is its map, give together is noted where it is gray. The map of the
    /// last one that was noted, with its node.
    ///
    /// `NoMemory` only where it is.
    fn add_joint(
        &mut self,
        the_map: SKey,
        key: SKey,
        value: SKey,
        last: Option<MapNode>,
        heaps: &Heaps,
    ) -> Result<Option<MapNode>, NoMemory>
        requires built { IsBuilt self.old heaps.now }
        requires held { AreHeld self.old.graph (HasKey heaps.now) }
        requires order { IsInOrder [] heaps.now }
        requires the_map { IsTrue (is_there heaps.now.scripts the_map.0) }
        requires key { IsTrue (is_there heaps.now.scripts key.0) }
        requires value { IsTrue (is_there heaps.now.scripts value.0) }
        requires last { IfSome last (λ m. IsMapNode heaps.now self.old.graph.nodes m.the_map.0 m.node) }
        ensures last { IfOk result (λ l. IfSome l (λ m. IsMapNode heaps.now self.new.graph.nodes m.the_map.0 m.node)) }
        ensures names { OnOk result (vertex_names self.new.graph.nodes
            ≡ with_all_last same_name (vertex_names self.old.graph.nodes)
            (flat_map members_of (mappings_in heaps.now.heap (named_joint heaps.now.scripts the_map.0 key.0 value.0)))) }
        ensures mappings { OnOk result (map (mapping_of self.new.graph.nodes) self.new.graph.hyperedges
            ≡ map (mapping_of self.old.graph.nodes) self.old.graph.hyperedges ++ mappings_in heaps.now.heap
            (named_joint heaps.now.scripts the_map.0 key.0 value.0)) }
        ensures edges { self.new.graph.edges ≡ self.old.graph.edges }
        ensures next { self.new.next ≡ self.old.next }
        ensures candidates { self.new.candidates ≡ self.old.candidates }
        ensures spare { self.new.graph.spare ≡ self.old.graph.spare }
        ensures refused { OnErr result (mappings_in heaps.now.heap (named_joint heaps.now.scripts the_map.0 key.0 value.0) ≢ []) }
        ensures built { IsBuilt self.new heaps.now }
        ensures held { AreHeld self.new.graph (HasKey heaps.now) }
    {
        if heaps.scripts().colour(value) == Colour::Gray {
            let node = self.note_joint(the_map, key, value, last, heaps)?;
            return Ok(Some(MapNode { the_map, node }));
        }
        Ok(last)
    }

    /// A mapping is noted: map and key, each where it is gray, and what they give become nodes, last, where they are none.
    /// The number of the map's node.
    ///
    /// `NoMemory` may leave some of them as nodes.
    fn note_joint(
        &mut self,
        the_map: SKey,
        key: SKey,
        value: SKey,
        last: Option<MapNode>,
        heaps: &Heaps,
    ) -> Result<Option<u32>, NoMemory>
        requires built { IsBuilt self.old heaps.now }
        requires held { AreHeld self.old.graph (HasKey heaps.now) }
        requires order { IsInOrder [] heaps.now }
        requires the_map { IsTrue (is_there heaps.now.scripts the_map.0) }
        requires key { IsTrue (is_there heaps.now.scripts key.0) }
        requires value { IsTrue (is_there heaps.now.scripts value.0) }
        requires last { IfSome last (λ m. IsMapNode heaps.now self.old.graph.nodes m.the_map.0 m.node) }
        ensures node { IfOk result (λ i. IsMapNode heaps.now self.new.graph.nodes the_map.0 i) }
        ensures names { OnOk result (vertex_names self.new.graph.nodes
            ≡ with_all_last same_name (vertex_names self.old.graph.nodes)
            (members_of (units.mapping_of heaps.now.heap (named_joint heaps.now.scripts the_map.0 key.0 value.0)))) }
        ensures mappings { OnOk result (map (mapping_of self.new.graph.nodes) self.new.graph.hyperedges
            ≡ map (mapping_of self.old.graph.nodes) self.old.graph.hyperedges ++ units.mapping_of heaps.now.heap
            (named_joint heaps.now.scripts the_map.0 key.0 value.0) ∷ []) }
        ensures edges { self.new.graph.edges ≡ self.old.graph.edges }
        ensures next { self.new.next ≡ self.old.next }
        ensures candidates { self.new.candidates ≡ self.old.candidates }
        ensures spare { self.new.graph.spare ≡ self.old.graph.spare }
        ensures built { IsBuilt self.new heaps.now }
        ensures held { AreHeld self.new.graph (HasKey heaps.now) }
    {
        let the_map = self.map_node(the_map, last, heaps)?;
        let key = self.add_gray(key, heaps)?;
        let value = self.add_object(Held::Script(value), heaps)?;
        self.graph.note_mapping(the_map, key, value)?;
        Ok(the_map)
    }

    /// The map of an entry becomes a node, as `add_gray` makes it one. Where it is the map of what was noted before, its node
    /// is known.
    fn map_node(
        &mut self,
        the_map: SKey,
        last: Option<MapNode>,
        heaps: &Heaps,
    ) -> Result<Option<u32>, NoMemory>
        requires built { IsBuilt self.old heaps.now }
        requires held { AreHeld self.old.graph (HasKey heaps.now) }
        requires order { IsInOrder [] heaps.now }
        requires there { IsTrue (is_there heaps.now.scripts the_map.0) }
        requires last { IfSome last (λ m. IsMapNode heaps.now self.old.graph.nodes m.the_map.0 m.node) }
        ensures names { OnOk result (vertex_names self.new.graph.nodes
            ≡ with_all_last same_name (vertex_names self.old.graph.nodes) (option_to_list (if_gray heaps.now.heap (the_name_at heaps.now.scripts the_map.0)))) }
        ensures number { IfOk result (λ i. option_map (vertex_name self.new.graph.nodes) i ≡ if_gray heaps.now.heap (the_name_at heaps.now.scripts the_map.0)) }
        ensures within { IfOk result (λ i. IfSome i (λ k. k < length self.new.graph.nodes)) }
        ensures edges { self.new.graph.edges ≡ self.old.graph.edges }
        ensures hyperedges { self.new.graph.hyperedges ≡ self.old.graph.hyperedges }
        ensures next { self.new.next ≡ self.old.next }
        ensures candidates { self.new.candidates ≡ self.old.candidates }
        ensures spare { self.new.graph.spare ≡ self.old.graph.spare }
        ensures built { IsBuilt self.new heaps.now }
        ensures held { AreHeld self.new.graph (HasKey heaps.now) }
    {
        match last {
            Some(last) if last.the_map.0 == the_map.0 => Ok(last.node),
            _ => self.add_gray(the_map, heaps),
        }
    }

    /// A script object becomes a node, last, where it is gray and none. The number of its node; none where it is not gray.
    fn add_gray(&mut self, object: SKey, heaps: &Heaps) -> Result<Option<u32>, NoMemory>
        requires built { IsBuilt self.old heaps.now }
        requires held { AreHeld self.old.graph (HasKey heaps.now) }
        requires order { IsInOrder [] heaps.now }
        requires there { IsTrue (is_there heaps.now.scripts object.0) }
        ensures names { OnOk result (vertex_names self.new.graph.nodes
            ≡ with_all_last same_name (vertex_names self.old.graph.nodes) (option_to_list (if_gray heaps.now.heap (the_name_at heaps.now.scripts object.0)))) }
        ensures number { IfOk result (λ i. option_map (vertex_name self.new.graph.nodes) i ≡ if_gray heaps.now.heap (the_name_at heaps.now.scripts object.0)) }
        ensures within { IfOk result (λ i. IfSome i (λ k. k < length self.new.graph.nodes)) }
        ensures edges { self.new.graph.edges ≡ self.old.graph.edges }
        ensures hyperedges { self.new.graph.hyperedges ≡ self.old.graph.hyperedges }
        ensures next { self.new.next ≡ self.old.next }
        ensures candidates { self.new.candidates ≡ self.old.candidates }
        ensures spare { self.new.graph.spare ≡ self.old.graph.spare }
        ensures built { IsBuilt self.new heaps.now }
        ensures held { AreHeld self.new.graph (HasKey heaps.now) }
    {
        if heaps.scripts().colour(object) == Colour::Gray {
            let node = self.add_object(Held::Script(object), heaps)?;
            return Ok(Some(node));
        }
        Ok(None)
    }
}
