//! A site of collections: the build that stands there, and the room that the last one left.
//!
//! A collector reaches its collections through a site alone, and has no memory to build with elsewhere.
ghost use Rattle.std.specs.Prelude.{◌≡◌, ◌<◌, ◌↔◌, ℕ, [], ◌∷◌, length, None, Some, IfSome, IsTrue, is_some, true};
ghost use Rattle.cc_lists.specs.Least.{Least};
ghost use Rattle.cc_model.specs.Snapshot.{white_natives};
ghost use Rattle.cc_model.specs.Units.{first_untraversed};
ghost use Rattle.cc_model.specs.declared.item.Event.TheVariants.{Abandoned};
ghost use Rattle.cc_model.specs.Telling.{TellsEvents};
ghost use Rattle.cc_model.specs.View.{view};
ghost use Rattle.cc_model.specs.Suspected.{IsSuspected};
ghost use Rattle.cc_model.specs.End.{at_end, give_back, refused};
ghost use Rattle.cc_graph.specs.Held.{AreHeld};
ghost use Rattle.cc_graph.specs.Shown.{is_black};
ghost use Rattle.cc_scan.specs.Scanning.{scan_rules};
ghost use Rattle.cc_heaps.specs.Keyed.{IsInOrder, changed_to};
ghost use Rattle.cc_heaps.specs.HasKey.{HasKey};
ghost use Rattle.cc_builder.specs.Beginning.{IsUnseen};
ghost use Rattle.cc_builder.specs.Building.{IsBuilt, snapshot_of};
ghost use Rattle.cc_unlink.specs.Whites.{whites_of};
ghost use Rattle.cc_collector.specs.Kept.{RunsAlone};
ghost use Rattle.cc_collector.specs.Collected.{progress_of};
ghost use Rattle.cc_collector.specs.Units.{HasDoneUnit};
ghost use Rattle.cc_collector.specs.Sites.{KeepsRoom, Leaves, StandsIn};

use crate::collector::Ended;
use cc_builder::{Build, Step};
use cc_graph::Graph;
use cc_heaps::Heaps;
use cc_model::{Event, Item, Notices};
use cc_names::NoMemory;
use cc_repair::mark_touched;
use cc_scan::scan;
use cc_steps::Steps;
use cc_unlink::collect_white;
use std::alloc::Global;
use std::marker::{Brand, Model};
use std::sync::ledger::{Blank, Ledger};

/// The collection that runs, if any, and the room for the next one.
#[derive(Drop)]
pub(crate) struct Site {
    alloc: Global,
    running: Option<Build>,
    // an empty graph that has the room of the last collection's
    room: Option<Graph>,
}

impl Model for Site {
    ghost use Rattle.cc_collector.specs.Sites.{Place, IsOneRoom};

    ghost Value = { Place };

    ghost view = { λ s. record { running = s.running; room = s.room } };

    ghost invariant = { λ s. IsOneRoom (record { running = s.running; room = s.room }) };
}

impl Site {
    /// A site that takes its memory from `alloc`. Nothing stands there.
    pub(crate) fn new(alloc: Global) -> Site
        ensures { result ≡ record { running = None; room = None } }
    {
        Site {
            alloc,
            running: None,
            room: None,
        }
    }

    /// Whether a collection runs.
    pub(crate) fn running(&self) -> bool
        ensures { result ≡ is_some self.now.running }
    {
        self.running.is_some()
    }

    /// One unit: a begin where no collection runs, else one node, or the end where no node is left. A unit that is refused
    /// memory abandons the collection, which is told.
    pub(crate) fn unit<N: Notices>(
        &mut self,
        heaps: &mut Heaps,
        out: &mut N,
    ) -> Result<Ended, NoMemory>
        requires runs { RunsAlone heaps.old self.old.running }
        ensures done { HasDoneUnit heaps.old self.old.running heaps.new self.new.running (progress_of result) (N.telling out.old) (N.telling out.new) }
        ensures room { KeepsRoom self.old self.new (progress_of result) }
    {
        let stepped = match &mut self.running {
            None => return self.begin(heaps, out),
            Some(build) => build.step(heaps),
        };
        let Ok(step) = stepped else {
            self.abandon_running(heaps, out);
            return Err(NoMemory);
        };
        match step {
            Step::Traversed | Step::Gone => Ok(Ended::No),
            Step::Complete => {
                self.end_running(heaps, out);
                Ok(Ended::Yes)
            }
        }
    }

    /// Abandons the collection that runs, which is told.
    // a unit has no place for a build, and what ends or begins one stands apart: the many units that only step pay for none
    #[inline(never)]
    fn abandon_running<N: Notices>(&mut self, heaps: &mut Heaps, out: &mut N)
        requires running { is_some self.old.running ≡ true }
        requires built { IfSome self.old.running (λ b. IsBuilt b heaps.old) }
        requires held { IfSome self.old.running (λ b. AreHeld b.graph (HasKey heaps.old)) }
        requires order { IsInOrder [] heaps.old }
        ensures heap { IfSome self.old.running (λ b. heaps.new ≡ changed_to heaps.old (give_back (snapshot_of b).candidates heaps.old.heap)) }
        ensures suspected { IfSome self.old.running (λ b. IsSuspected (view heaps.old.heap) (snapshot_of b).candidates → IsSuspected (view heaps.new.heap) []) }
        ensures unseen { IsUnseen heaps.old heaps.new }
        ensures told { TellsEvents (N.telling out.old) (N.telling out.new) (Abandoned ∷ []) }
        ensures over { self.new ≡ record { running = None; room = self.old.room } }
    {
        let Some(build) = self.running.take() else {
            unreachable!()
        };
        build.abandon(heaps);
        out.tell(Item::Event(Event::Abandoned));
    }

    /// Ends the collection that runs, all of whose nodes are traversed or gone. Its room stays.
    #[inline(never)]
    fn end_running<N: Notices>(&mut self, heaps: &mut Heaps, out: &mut N)
        requires running { is_some self.old.running ≡ true }
        requires runs { RunsAlone heaps.old self.old.running }
        requires traversed { IfSome self.old.running (λ b. first_untraversed (snapshot_of b).nodes ≡ None) }
        requires behind { IfSome self.old.running (λ b. b.next ≡ length b.graph.nodes) }
        ensures done { HasDoneUnit heaps.old self.old.running heaps.new self.new.running at_end (N.telling out.old) (N.telling out.new) }
        ensures left { IfSome self.old.running (λ b. Leaves b.graph self.new.room) }
    {
        let Some(build) = self.running.take() else {
            unreachable!()
        };
        self.end(build, heaps, out);
    }

    /// Begins a collection in the room that waits, or in a new one where none does.
    #[inline(never)]
    fn begin<N: Notices>(&mut self, heaps: &mut Heaps, out: &mut N) -> Result<Ended, NoMemory>
        requires runs { RunsAlone heaps.old None }
        requires idle { self.old.running ≡ None }
        ensures done { HasDoneUnit heaps.old None heaps.new self.new.running (progress_of result) (N.telling out.old) (N.telling out.new) }
        ensures stands { IfSome self.old.room (λ room. IfSome self.new.running (StandsIn room)) }
        ensures taken { self.new.room ≡ None }
    {
        let room = match self.room.take() {
            Some(room) => room,
            None => Graph::new(self.alloc),
        };
        match Build::begin_in(room, heaps) {
            Ok(build) => {
                self.running = Some(build);
                Ok(Ended::No)
            }
            Err(NoMemory) => {
                out.tell(Item::Event(Event::Abandoned));
                Err(NoMemory)
            }
        }
    }

    /// Ends a collection, all of whose nodes are traversed or gone. Its room stays.
    fn end<N: Notices>(&mut self, build: Build, heaps: &mut Heaps, out: &mut N)
        requires runs { RunsAlone heaps.old (Some build) }
        requires idle { self.old.running ≡ None }
        requires traversed { first_untraversed (snapshot_of build).nodes ≡ None }
        requires behind { build.next ≡ length build.graph.nodes }
        ensures done { HasDoneUnit heaps.old (Some build) heaps.new self.new.running at_end (N.telling out.old) (N.telling out.new) }
        ensures left { Leaves build.graph self.new.room }
    {
        let mut graph = collect_white(blackened(build, heaps), heaps, out);
        graph.clear();
        self.room = Some(graph);
    }
}

/// The graph of a build in which every node is traversed, with its black nodes.
fn blackened(build: Build, heaps: &Heaps) -> Graph
    requires built { IsBuilt build heaps.now }
    requires held { AreHeld build.graph (HasKey heaps.now) }
    requires order { IsInOrder [] heaps.now }
    requires behind { build.next ≡ length build.graph.nodes }
    ensures whites { whites_of result heaps.now.heap ≡ white_natives heaps.now.heap (snapshot_of build) }
    ensures edges { result.edges ≡ build.graph.edges }
    ensures held { AreHeld result (HasKey heaps.now) }
{
    let mut graph = build.finish();
    mark_touched(&mut graph, heaps);
    scan_uncounted::<Brand>(&mut graph, Blank::new(1));
    graph
}

/// Scans a graph. Nobody asks for its steps.
fn scan_uncounted<L: Ledger>(graph: &mut Graph, blank: Blank)
    requires name { blank.name ≡ L.name }
    requires parts { blank.parts ≡ L.parts }
    requires some { 0 < L.parts }
    ensures least { (i : ℕ) → IsTrue (is_black graph.new i) ↔ Least (scan_rules graph.old) i }
    ensures rest { graph.new ≡ record graph.old { blacks = graph.new.blacks } }
{
    let mut steps = Steps::<L>::new(blank);
    scan(graph, &mut steps);
}
