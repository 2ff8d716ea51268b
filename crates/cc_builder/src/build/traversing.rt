//! Nodes traversed one after another: their counts sampled, their references noted.
ghost use Rattle.std.specs.Prelude.{◌≡◌, ◌≢◌, ◌<◌, ◌≤◌, ◌+◌, [], length, slice_index_or, None, Some, IsSome, Ok, OnOk, OnErr, IfOk, IfSome, true, option_to_list};
ghost use Rattle.cc_model.specs.Units.{first_untraversed, to_note};
ghost use Rattle.cc_model.specs.Units as units;
ghost use Rattle.cc_model.specs.End.{may_be_refused};
ghost use Rattle.cc_laws_snapshot.specs.Kinds.{IsFreshIn};
ghost use Rattle.cc_heaps.specs.Keyed.{IsInOrder};
ghost use Rattle.cc_heaps.specs.Changes.{IsThere, held_name};
ghost use Rattle.cc_heaps.specs.Places.{places_at};
ghost use Rattle.cc_builder.specs.Building.{IsBuilt, IsNodeUnit, vertex_name, snapshot_of};
ghost use Rattle.cc_graph.specs.Held.{AreHeld};
ghost use Rattle.cc_heaps.specs.HasKey.{HasKey};
ghost use Rattle.cc_builder.specs.BuildSteps.{contents_at, noting, noting_one, sample_of, noted_place, the_name, with_next_passed, with_room};

use crate::build::{Build, Step};
use cc_counted::Held;
use cc_heaps::Heaps;
use cc_names::{Colour, NoMemory, SlotNo};

impl Build {
    /// One node: the first that is not traversed. The count of a native is sampled, and its references are noted: to
    /// natives, to script objects that are gray, and to its preserved reflector where that is gray. Of a script object
    /// those to gray ones are noted, of a proxy the one to its delegate where that is gray and, of a reflector, the one to
    /// its native. What they lead to becomes a node, last, where it is none.
    ///
    /// `NoMemory` only where there is something to note; the build is then only to be abandoned.
    pub fn step(&mut self, heaps: &Heaps) -> Result<Step, NoMemory>
        requires built { IsBuilt self.old heaps.now }
        requires held { AreHeld self.old.graph (HasKey heaps.now) }
        requires order { IsInOrder [] heaps.now }
        ensures unit { IfOk result (λ step. step ≢ Step.Complete → IsNodeUnit heaps.now.heap (snapshot_of self.old) (snapshot_of self.new)) }
        ensures gone { result ≡ Ok Step.Gone → to_note heaps.now.heap (vertex_name self.old.graph.nodes self.old.next) ≡ None }
        ensures traversed { result ≡ Ok Step.Traversed → IsSome (to_note heaps.now.heap (vertex_name self.old.graph.nodes self.old.next)) }
        ensures complete { result ≡ Ok Step.Complete → first_untraversed (snapshot_of self.old).nodes ≡ None }
        ensures unchanged { result ≡ Ok Step.Complete → self.new ≡ self.old }
        ensures behind { result ≡ Ok Step.Complete → self.old.next ≡ length self.old.graph.nodes }
        ensures progress { IfOk result (λ step. step ≢ Step.Complete → self.new.next ≡ self.old.next + 1) }
        ensures fresh { OnOk result (IsFreshIn heaps.now.heap (snapshot_of self.old) → IsFreshIn heaps.now.heap (snapshot_of self.new)) }
        ensures candidates { (snapshot_of self.new).candidates ≡ (snapshot_of self.old).candidates }
        ensures refused { OnErr result (may_be_refused heaps.now.heap (Some (snapshot_of self.old)) ≡ true) }
        ensures built { IsBuilt self.new heaps.now }
        ensures held { AreHeld self.new.graph (HasKey heaps.now) }
    {
        if self.next == self.len() {
            return Ok(Step::Complete);
        }
        match self.object_of(self.next, heaps) {
            Some(object) => {
                self.traverse(object, heaps)?;
                Ok(Step::Traversed)
            }
            None => {
                self.next += 1;
                Ok(Step::Gone)
            }
        }
    }

    /// Where the object of a node stands, as long as it is there. A script object that is a node is there.
    fn object_of(&self, node: u32, heaps: &Heaps) -> Option<Held>
        requires built { IsBuilt self.now heaps.now }
        requires held { AreHeld self.now.graph (HasKey heaps.now) }
        requires order { IsInOrder [] heaps.now }
        requires within { node < length self.now.graph.nodes }
        ensures there { IsThere heaps.now result }
        ensures name { IfSome result (λ object. the_name heaps.now object ≡ vertex_name self.now.graph.nodes node) }
        ensures gone { result ≡ None → to_note heaps.now.heap (vertex_name self.now.graph.nodes node) ≡ None }
    {
        let (_, held) = self.graph.node(node);
        match held {
            Held::Native(_) => match self.native_of(node, heaps) {
                Some(key) => Some(Held::Native(key)),
                None => None,
            },
            Held::Script(key) => Some(Held::Script(key)),
        }
    }

    /// The first node that is not traversed, which is that of an object that is there, is traversed.
    ///
    /// `NoMemory` only where there is something to note.
    fn traverse(&mut self, object: Held, heaps: &Heaps) -> Result<(), NoMemory>
        requires built { IsBuilt self.old heaps.now }
        requires held { AreHeld self.old.graph (HasKey heaps.now) }
        requires order { IsInOrder [] heaps.now }
        requires within { self.old.next < length self.old.graph.nodes }
        requires there { IsThere heaps.now (Some object) }
        requires name { the_name heaps.now object ≡ vertex_name self.old.graph.nodes self.old.next }
        ensures noted { OnOk result (snapshot_of self.new ≡ noting
            (snapshot_of (with_next_passed (sample_of heaps.now object) self.old))
            (vertex_name self.old.graph.nodes self.old.next)
            (contents_at heaps.now object)) }
        ensures next { OnOk result (self.new.next ≡ self.old.next + 1) }
        ensures refused { OnErr result (contents_at heaps.now object ≢ []) }
        ensures candidates { (snapshot_of self.new).candidates ≡ (snapshot_of self.old).candidates }
        ensures built { IsBuilt self.new heaps.now }
        ensures held { AreHeld self.new.graph (HasKey heaps.now) }
    {
        self.reserve(object, heaps)?;
        let node = self.next;
        self.pass_next(sample_of(heaps, object));
        self.note_places(node, object, heaps)
    }

    /// Room for the references of an object that are noted. They are counted only where there may be too little.
    ///
    /// `NoMemory`, never where none of them is noted, leaves the build as it was but for its room.
    fn reserve(&mut self, object: Held, heaps: &Heaps) -> Result<(), NoMemory>
        requires order { IsInOrder [] heaps.now }
        requires there { IsThere heaps.now (Some object) }
        ensures rest { self.new ≡ with_room self.new.graph.spare self.old }
        ensures room { OnOk result (length (contents_at heaps.now object) ≤ self.new.graph.spare) }
        ensures refused { OnErr result (contents_at heaps.now object ≢ []) }
    {
        if heaps.places(object) as usize <= self.graph.spare() {
            // enough, however many of them are noted
            return Ok(());
        }
        let references = references_of(heaps, object);
        if references == 0 {
            return Ok(());
        }
        self.graph.reserve(references)
    }

    /// The first node that is not traversed is traversed, with the count of its native. Its references are yet to be noted.
    fn pass_next(&mut self, count: Option<u32>)
        requires within { self.old.next < length self.old.graph.nodes }
        requires few { length self.old.graph.nodes < 4294967295 }
        ensures { self.new ≡ with_next_passed count self.old }
    {
        if let Some(count) = count {
            self.graph.sample(self.next, count);
        }
        self.next += 1;
    }

    /// What an object refers to, as far as it is noted, becomes nodes, where it is none, and references of `node` to it are
    /// noted.
    fn note_places(&mut self, node: u32, object: Held, heaps: &Heaps) -> Result<(), NoMemory>
        requires built { IsBuilt self.old heaps.now }
        requires held { AreHeld self.old.graph (HasKey heaps.now) }
        requires order { IsInOrder [] heaps.now }
        requires within { node < length self.old.graph.nodes }
        requires there { IsThere heaps.now (Some object) }
        requires room { length (contents_at heaps.now object) ≤ self.old.graph.spare }
        ensures noted { OnOk result (snapshot_of self.new ≡ noting (snapshot_of self.old) (vertex_name self.old.graph.nodes node)
            (contents_at heaps.now object)) }
        ensures refused { OnErr result (contents_at heaps.now object ≢ []) }
        ensures candidates { (snapshot_of self.new).candidates ≡ (snapshot_of self.old).candidates }
        ensures next { self.new.next ≡ self.old.next }
        ensures built { IsBuilt self.new heaps.now }
        ensures held { AreHeld self.new.graph (HasKey heaps.now) }
    {
        let places = heaps.places(object);
        for i in 0..places {
            self.note_place(node, object, i, heaps)?;
        }
        Ok(())
    }

    /// What an object refers to at place `i` becomes a node, where it is none, and a reference of `node` to it is noted;
    /// nothing where the place is empty or has a black script object.
    ///
    /// `NoMemory` leaves the build as it was.
    fn note_place(
        &mut self,
        node: u32,
        object: Held,
        i: SlotNo,
        heaps: &Heaps,
    ) -> Result<(), NoMemory>
        requires built { IsBuilt self.old heaps.now }
        requires held { AreHeld self.old.graph (HasKey heaps.now) }
        requires order { IsInOrder [] heaps.now }
        requires within { node < length self.old.graph.nodes }
        requires there { IsThere heaps.now (Some object) }
        requires place { i < length (places_at heaps.now object) }
        requires room { length (noted_place heaps.now object i) ≤ self.old.graph.spare }
        ensures noted { OnOk result (snapshot_of self.new ≡ noting (snapshot_of self.old) (vertex_name self.old.graph.nodes node)
            (noted_place heaps.now object i)) }
        ensures node { vertex_name self.new.graph.nodes node ≡ vertex_name self.old.graph.nodes node }
        ensures within { node < length self.new.graph.nodes }
        ensures spare { OnOk result (self.new.graph.spare + length (noted_place heaps.now object i) ≡ self.old.graph.spare) }
        ensures refused { OnErr result (self.new ≡ self.old) }
        ensures held_there { OnErr result (noted_place heaps.now object i ≢ []) }
        ensures next { self.new.next ≡ self.old.next }
        ensures built { IsBuilt self.new heaps.now }
        ensures held { AreHeld self.new.graph (HasKey heaps.now) }
    {
        match noted_at(heaps, object, i) {
            Some(target) => self.note_reference(node, target, heaps),
            None => Ok(()),
        }
    }

    /// An object becomes a node, where it is none, and a reference of `node` to it is noted.
    fn note_reference(&mut self, node: u32, target: Held, heaps: &Heaps) -> Result<(), NoMemory>
        requires built { IsBuilt self.old heaps.now }
        requires held { AreHeld self.old.graph (HasKey heaps.now) }
        requires order { IsInOrder [] heaps.now }
        requires within { node < length self.old.graph.nodes }
        requires there { IsThere heaps.now (Some target) }
        requires room { 0 < self.old.graph.spare }
        ensures noted { OnOk result (snapshot_of self.new ≡ noting_one (snapshot_of self.old) (vertex_name self.old.graph.nodes node)
            (the_name heaps.now target)) }
        ensures node { vertex_name self.new.graph.nodes node ≡ vertex_name self.old.graph.nodes node }
        ensures within { node < length self.new.graph.nodes }
        ensures spare { OnOk result (self.new.graph.spare + 1 ≡ self.old.graph.spare) }
        ensures refused { OnErr result (self.new ≡ self.old) }
        ensures next { self.new.next ≡ self.old.next }
        ensures built { IsBuilt self.new heaps.now }
        ensures held { AreHeld self.new.graph (HasKey heaps.now) }
    {
        let to = self.add_object(target, heaps)?;
        self.graph.note_edge(node, to);
        Ok(())
    }
}

/// The count of a native; none of a script object.
fn sample_of(heaps: &Heaps, object: Held) -> Option<u32>
    requires there { IsThere heaps.now (Some object) }
    ensures { result ≡ sample_of heaps.now object }
{
    match object {
        Held::Native(key) => Some(heaps.counted().count(key)),
        Held::Script(_) => None,
    }
}

/// Whether references to an object are noted: to a native, and to a script object that is gray.
fn is_noted(heaps: &Heaps, object: Held) -> bool
    requires order { IsInOrder [] heaps.now }
    requires there { IsThere heaps.now (Some object) }
    ensures { result ≡ units.is_noted heaps.now.heap (the_name heaps.now object) }
{
    match object {
        Held::Native(_) => true,
        Held::Script(key) => heaps.scripts().colour(key) == Colour::Gray,
    }
}

/// What an object refers to at place `i`, where the reference is noted.
#[inline(always)]
fn noted_at(heaps: &Heaps, object: Held, i: SlotNo) -> Option<Held>
    requires order { IsInOrder [] heaps.now }
    requires there { IsThere heaps.now (Some object) }
    requires place { i < length (places_at heaps.now object) }
    ensures name { option_to_list (held_name heaps.now result) ≡ noted_place heaps.now object i }
    ensures there { IsThere heaps.now result }
{
    match heaps.place(object, i) {
        Some(target) if is_noted(heaps, target) => Some(target),
        _ => None,
    }
}

/// How many references of an object are noted.
fn references_of(heaps: &Heaps, object: Held) -> usize
    requires order { IsInOrder [] heaps.now }
    requires there { IsThere heaps.now (Some object) }
    ensures { result ≡ length (contents_at heaps.now object) }
{
    let places = heaps.places(object);
    let mut references = 0;
    for i in 0..places {
        references += references_at(heaps, object, i);
    }
    references
}

/// How many references of a place are noted: 1 or none.
fn references_at(heaps: &Heaps, object: Held, i: SlotNo) -> usize
    requires order { IsInOrder [] heaps.now }
    requires there { IsThere heaps.now (Some object) }
    requires place { i < length (places_at heaps.now object) }
    ensures noted { result ≡ length (noted_place heaps.now object i) }
    ensures one { result ≤ 1 }
{
    match noted_at(heaps, object, i) {
        Some(_) => 1,
        None => 0,
    }
}
