//! A collector: slices, whole collections, markings in slices, and `gc`.
ghost use Rattle.std.specs.Prelude.{◌≡◌, ◌≢◌, ◌<◌, [], None, Ok, OnErr, OnOk, true, false, is_some};
ghost use Rattle.cc_model.specs.End.{at_end, refused};
ghost use Rattle.cc_model.specs.Sweep.{collect_scripts as collected};
ghost use Rattle.cc_laws_run.specs.Doomed.{IsSuspectedNow};
ghost use Rattle.cc_heaps.specs.Standing.{StillStands};
ghost use Rattle.cc_heaps.specs.Keeping.{KeepsHeaps};
ghost use Rattle.cc_gc.specs.Sparing.{KeepsWhatIsReached};
ghost use Rattle.cc_collector.specs.Settled.{HasWhatIsReached, IsSettled, IsUnsettled};
ghost use Rattle.cc_collector.specs.Kept.{ForgetsNothing, MarksIn, RunsAlone, RunsIn, machine_of};
ghost use Rattle.cc_collector.specs.Collected.{IsSliced, IsCollected, IsCollectGivenUp, IsMarkedOn, IsSliceGivenUp, IsSwept, TellsWhatLeaves, progress_of};
ghost use Rattle.cc_collector.specs.Units.{HasDoneUnit, HasDoneAll, HasFinished, HasFinishedMarking, HasMarkedUnit};

use crate::site::Site;
use cc_gc::collect_scripts;
use cc_heaps::Heaps;
use cc_markslice::{MarkStep, Marking};
use cc_model::Notices;
use cc_names::NoMemory;
use cc_steps::Steps;
use std::alloc::Global;
use std::marker::Model;
use std::sync::ledger::Ledger;

/// Whether the units of a slice reached the end of a collection, or of a marking.
#[derive(Clone, Copy, Debug, PartialEq, Eq, Drop)]
pub enum Ended {
    Yes,
    No,
}

/// A collector of cycles, with the collection that is running, if any, or the script marking that goes on; never both.
///
/// The room that the nodes, references and mappings of a collection took stays for the next one, and what that does not use is
/// given back at its end. A collection that is abandoned, for want of memory, gives all of it back.
///
/// `slice`, `whole`, `mark`, `gc` and `settle` promise of the heaps, also where memory was refused:
///
/// - What the registers reach stays as it was (`keeps`): they hold what they held and reach the same objects, each of which
///   is there with its slots and its flag, and a reached map has the same value for a reached key. What stays keeps its key,
///   and the heaps stay in order, with their colours (`kept`).
/// - No register reaches what is told as unlinked or freed, neither before the call nor after it; and what is told as freed
///   is all that leaves (`tells`).
/// - No native that nothing reaches is forgotten (`suspected`): references lead to it from a suspect, from a script object
///   that nothing reaches either, or from a candidate of the running collection, if that was so of each before. So a later
///   collection can find it. It is so of empty heaps, and the calls of `Heaps` on what is reached keep it.
#[derive(Drop)]
pub struct Collector {
    site: Site,
    marking: Option<Marking>,
}

impl Model for Collector {
    ghost use Rattle.std.specs.Prelude.{is_some};
    ghost use Rattle.cc_collector.specs.Kept.{Kept};

    ghost Value = { Kept };

    ghost view = { λ c. record { running = c.site.running; marking = is_some c.marking } };
}

impl Collector {
    /// A collector that takes its memory from `alloc`. No collection runs, and no marking goes on.
    pub fn new(alloc: Global) -> Collector
        ensures { result ≡ record { running = None; marking = false } }
    {
        Collector {
            site: Site::new(alloc),
            marking: None,
        }
    }

    /// Whether a collection runs.
    pub fn running(&self) -> bool
        ensures { result ≡ is_some self.now.running }
    {
        self.site.running()
    }

    /// Whether a script marking goes on.
    pub fn marking(&self) -> bool
        ensures { result ≡ self.now.marking }
    {
        self.marking.is_some()
    }

    /// Does `units` units of the running collection, or of one that begins here where none runs. They are fewer where one
    /// ends the collection: no second one begins. `steps` counts them. A marking that goes on is ended first, which is no unit of
    /// these.
    ///
    /// `Ended::Yes` exactly where these units reached the end. What it unlinks and frees is told; no register reaches any of
    /// it, whatever came between the units: the heaps go on standing for the same graphs.
    ///
    /// `NoMemory`, where a unit wanted memory that was not there: the collection is abandoned, which is told, and its
    /// suspects are suspects again; nothing else changes (`given_up`), but for what the end of a marking did. That unit is not counted.
    pub fn slice<N: Notices, L: Ledger>(
        &mut self,
        heaps: &mut Heaps,
        units: u32,
        out: &mut N,
        steps: &mut Steps<L>,
    ) -> Result<Ended, NoMemory>
        requires runs { RunsIn heaps.old self.old }
        ensures sliced { IsSliced units (machine_of heaps.old self.old) (machine_of heaps.new self.new) (progress_of result)
            steps.old steps.new (N.telling out.old) (N.telling out.new) }
        ensures given_up { OnErr result (IsSliceGivenUp (machine_of heaps.old self.old) heaps.new.heap) }
        ensures over { result ≢ Ok Ended.No → self.new.running ≡ None }
        ensures unmarked { self.new.marking ≡ false }
        ensures keeps { KeepsWhatIsReached heaps.old.heap heaps.new.heap }
        ensures tells { TellsWhatLeaves heaps.old.heap heaps.new.heap (N.telling out.old) (N.telling out.new) }
        ensures stands { StillStands heaps.old.heap heaps.new.heap }
        ensures suspected { ForgetsNothing (machine_of heaps.old self.old) (machine_of heaps.new self.new) }
        ensures kept { KeepsHeaps [] [] heaps.old heaps.new }
        ensures runs { RunsIn heaps.new self.new }
    {
        // a marking and a collection never go on at once
        self.finish_marking(heaps, out);
        for _ in 0..units {
            let ended = self.unit(heaps, out)?;
            steps.tick();
            if let Ended::Yes = ended {
                return Ok(ended);
            }
        }
        Ok(Ended::No)
    }

    /// A whole collection: its begin, a unit for each node, and its end. A marking that goes on is ended first, and so is a
    /// collection that runs; where that is refused memory, no other begins.
    ///
    /// `NoMemory` as in a slice. What the end of the marking did, or of the first collection, stays.
    pub fn whole<N: Notices>(&mut self, heaps: &mut Heaps, out: &mut N) -> Result<(), NoMemory>
        requires runs { RunsIn heaps.old self.old }
        ensures done { OnOk result (IsCollected (machine_of heaps.old self.old) (machine_of heaps.new self.new) at_end (N.telling out.old)
            (N.telling out.new)) }
        ensures refused { OnErr result (IsCollected (machine_of heaps.old self.old) (machine_of heaps.new self.new) refused (N.telling out.old)
            (N.telling out.new)) }
        ensures given_up { OnErr result (IsCollectGivenUp (machine_of heaps.old self.old) heaps.new.heap) }
        ensures over { self.new ≡ record { running = None; marking = false } }
        ensures keeps { KeepsWhatIsReached heaps.old.heap heaps.new.heap }
        ensures tells { TellsWhatLeaves heaps.old.heap heaps.new.heap (N.telling out.old) (N.telling out.new) }
        ensures stands { StillStands heaps.old.heap heaps.new.heap }
        ensures suspected { ForgetsNothing (machine_of heaps.old self.old) (machine_of heaps.new self.new) }
        ensures kept { KeepsHeaps [] [] heaps.old heaps.new }
        ensures runs { RunsIn heaps.new self.new }
    {
        self.finish_marking(heaps, out);
        self.finish_running(heaps, out)?;
        self.go_to_end(heaps, out)
    }

    /// A script collection, before which a marking that goes on is dropped and a collection that runs is ended. Where that is refused
    /// memory it is abandoned, which is told, and the script collection is done all the same.
    pub fn gc<N: Notices>(&mut self, heaps: &mut Heaps, out: &mut N)
        requires runs { RunsIn heaps.old self.old }
        ensures swept { IsSwept (machine_of heaps.old self.old) (machine_of heaps.new self.new) (N.telling out.old) (N.telling out.new) }
        ensures over { self.new ≡ record { running = None; marking = false } }
        ensures keeps { KeepsWhatIsReached heaps.old.heap heaps.new.heap }
        ensures tells { TellsWhatLeaves heaps.old.heap heaps.new.heap (N.telling out.old) (N.telling out.new) }
        ensures stands { StillStands heaps.old.heap heaps.new.heap }
        ensures suspected { ForgetsNothing (machine_of heaps.old self.old) (machine_of heaps.new self.new) }
        ensures kept { KeepsHeaps [] [] heaps.old heaps.new }
        ensures runs { RunsIn heaps.new self.new }
    {
        self.drop_marking(heaps);
        let _refused = self.finish_running(heaps, out);
        collect_scripts(heaps, out);
    }

    /// Does `units` units of the script marking that goes on, or of one that begins here where none does. They are fewer where one
    /// ends the marking: no second one begins. `steps` counts them. A collection that runs is ended first, which is no unit of
    /// these; where that is refused memory it is abandoned, which is told, and the units are done all the same.
    ///
    /// A begin is a unit, and so is each object that is scanned, and the end, which frees the script objects that no mark reached;
    /// what is freed is told. `Ended::Yes` exactly where one of these units was the end. Takes no memory.
    pub fn mark<N: Notices, L: Ledger>(
        &mut self,
        heaps: &mut Heaps,
        units: u32,
        out: &mut N,
        steps: &mut Steps<L>,
    ) -> Ended
        requires runs { RunsIn heaps.old self.old }
        ensures marked { IsMarkedOn units (machine_of heaps.old self.old) (machine_of heaps.new self.new) result steps.old steps.new (N.telling out.old)
            (N.telling out.new) }
        ensures over { self.new.running ≡ None }
        ensures ended { result ≡ Ended.Yes → self.new.marking ≡ false }
        ensures goes_on { result ≡ Ended.No → 0 < units → self.new.marking ≡ true }
        ensures keeps { KeepsWhatIsReached heaps.old.heap heaps.new.heap }
        ensures tells { TellsWhatLeaves heaps.old.heap heaps.new.heap (N.telling out.old) (N.telling out.new) }
        ensures stands { StillStands heaps.old.heap heaps.new.heap }
        ensures suspected { ForgetsNothing (machine_of heaps.old self.old) (machine_of heaps.new self.new) }
        ensures kept { KeepsHeaps [] [] heaps.old heaps.new }
        ensures runs { RunsIn heaps.new self.new }
    {
        let _refused = self.finish_running(heaps, out);
        for _ in 0..units {
            let ended = self.mark_unit(heaps, out);
            steps.tick();
            if let Ended::Yes = ended {
                return ended;
            }
        }
        Ended::No
    }

    /// Leaves in the heaps exactly what the registers reach, where no native was forgotten before (`suspected`): `gc`, which
    /// ends a collection that runs, then a whole collection, then `gc`.
    ///
    /// `NoMemory`, where the whole collection was refused memory: it is abandoned, which is told, and its suspects are
    /// suspects again. What was freed until then stays freed. The last `gc` is left out, for it would free nothing
    /// (`swept`). It can be called again as soon as there is memory.
    pub fn settle<N: Notices>(&mut self, heaps: &mut Heaps, out: &mut N) -> Result<(), NoMemory>
        requires runs { RunsIn heaps.old self.old }
        ensures exact { OnOk result (IsSuspectedNow (machine_of heaps.old self.old) → HasWhatIsReached heaps.new.heap) }
        ensures done { OnOk result (IsSettled (machine_of heaps.old self.old) (machine_of heaps.new self.new) (N.telling out.old) (N.telling out.new)) }
        ensures refused { OnErr result (IsUnsettled (machine_of heaps.old self.old) (machine_of heaps.new self.new) (N.telling out.old) (N.telling out.new)) }
        ensures swept { OnErr result ((collected heaps.new.heap).events ≡ []) }
        ensures over { self.new ≡ record { running = None; marking = false } }
        ensures keeps { KeepsWhatIsReached heaps.old.heap heaps.new.heap }
        ensures tells { TellsWhatLeaves heaps.old.heap heaps.new.heap (N.telling out.old) (N.telling out.new) }
        ensures stands { StillStands heaps.old.heap heaps.new.heap }
        ensures suspected { ForgetsNothing (machine_of heaps.old self.old) (machine_of heaps.new self.new) }
        ensures kept { KeepsHeaps [] [] heaps.old heaps.new }
        ensures runs { RunsIn heaps.new self.new }
    {
        // a native that only unreached script objects hold need be no suspect: once they are gone it is one
        self.gc(heaps, out);
        self.whole(heaps, out)?;
        // script objects that only unlinked natives held are still there, and hold what they reflect
        self.gc(heaps, out);
        Ok(())
    }

    /// Drops a marking that goes on.
    fn drop_marking(&mut self, heaps: &mut Heaps)
        requires { RunsIn heaps.old self.old }
        ensures heaps { heaps.new ≡ record heaps.old { marking = None } }
        ensures kept { KeepsHeaps [] [] heaps.old heaps.new }
        ensures over { self.new ≡ record self.old { marking = false } }
    {
        if self.marking.take().is_some() {
            heaps.drop_new();
        }
    }

    /// Ends a marking that goes on, by a step for each object that is left to scan.
    fn finish_marking<N: Notices>(&mut self, heaps: &mut Heaps, out: &mut N)
        requires { RunsIn heaps.old self.old }
        ensures finished { HasFinishedMarking heaps.old self.old.running heaps.new (N.telling out.old) (N.telling out.new) }
        ensures over { self.new ≡ record self.old { marking = false } }
    {
        let Some(mut marking) = self.marking.take() else {
            return;
        };
        'steps: loop {
            match marking.step(heaps, out) {
                MarkStep::Ended => return,
                MarkStep::Scanned => {}
            }
        }
    }

    /// One unit of a marking: a begin where none goes on, else one object, or the end where none is left to scan.
    fn mark_unit<N: Notices>(&mut self, heaps: &mut Heaps, out: &mut N) -> Ended
        requires runs { RunsIn heaps.old self.old }
        requires alone { self.old.running ≡ None }
        ensures done { HasMarkedUnit heaps.old self.old.marking heaps.new self.new.marking result (N.telling out.old) (N.telling out.new) }
        ensures alone { self.new.running ≡ None }
    {
        let Some(marking) = &mut self.marking else {
            self.marking = Some(Marking::begin(heaps));
            return Ended::No;
        };
        match marking.step(heaps, out) {
            MarkStep::Scanned => Ended::No,
            MarkStep::Ended => {
                self.marking = None;
                Ended::Yes
            }
        }
    }

    /// Ends a collection that runs. Where none runs nothing is done, whether a marking goes on or not.
    fn finish_running<N: Notices>(&mut self, heaps: &mut Heaps, out: &mut N) -> Result<(), NoMemory>
        requires { RunsIn heaps.old self.old }
        ensures done { OnOk result (HasFinished heaps.old self.old.running heaps.new (N.telling out.old) (N.telling out.new)) }
        ensures refused { OnErr result (HasDoneAll heaps.old self.old.running heaps.new refused (N.telling out.old) (N.telling out.new)) }
        ensures ran { OnErr result (is_some self.old.running ≡ true) }
        ensures over { self.new ≡ record self.old { running = None } }
    {
        if self.running() {
            return self.go_to_end(heaps, out);
        }
        Ok(())
    }

    /// Does units until one ends the collection. Where none runs, one begins.
    fn go_to_end<N: Notices>(&mut self, heaps: &mut Heaps, out: &mut N) -> Result<(), NoMemory>
        requires { RunsAlone heaps.old self.old.running }
        ensures done { OnOk result (HasDoneAll heaps.old self.old.running heaps.new at_end (N.telling out.old) (N.telling out.new)) }
        ensures refused { OnErr result (HasDoneAll heaps.old self.old.running heaps.new refused (N.telling out.old) (N.telling out.new)) }
        ensures over { self.new ≡ record self.old { running = None } }
    {
        'units: loop {
            match self.unit(heaps, out)? {
                Ended::Yes => return Ok(()),
                Ended::No => {}
            }
        }
    }

    /// One unit: a begin where no collection runs, else one node, or the end where no node is left. A unit that is refused
    /// memory abandons the collection, which is told.
    fn unit<N: Notices>(&mut self, heaps: &mut Heaps, out: &mut N) -> Result<Ended, NoMemory>
        requires { RunsAlone heaps.old self.old.running }
        ensures done { HasDoneUnit heaps.old self.old.running heaps.new self.new.running (progress_of result) (N.telling out.old) (N.telling out.new) }
        ensures marking { self.new.marking ≡ self.old.marking }
    {
        self.site.unit(heaps, out)
    }
}
