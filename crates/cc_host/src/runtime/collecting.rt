//! Collections, whole and in slices, and script markings.
ghost use Rattle.std.specs.Prelude.{◌≡◌, ◌≢◌, ◌<◌, ◌+◌, ℕ, true, false, length, List, [], None, Ok, OnErr, OnOk, is_some};
ghost use Rattle.cc_names.specs.declared.name.Name.{Name};
ghost use Rattle.cc_model.specs.End.{at_end, refused};
ghost use Rattle.cc_laws_run.specs.Doomed.{IsSuspectedNow};
ghost use Rattle.cc_heaps.specs.Keeping.{KeepsHeaps};
ghost use Rattle.cc_heaps.specs.Standing.{StillStands};
ghost use Rattle.cc_gc.specs.Sparing.{KeepsWhatIsReached};
ghost use Rattle.cc_collector.specs.Collected.{IsCollected, IsMarkedOn, IsSliced, IsSwept, TellsWhatLeaves, progress_of};
ghost use Rattle.cc_collector.specs.Kept.{RunsIn, machine_of};
ghost use Rattle.cc_collector.specs.Settled.{HasWhatIsReached, IsSettled, IsUnsettled};
ghost use Rattle.cc_heaps.specs.Leaving.{NothingLeft};
ghost use Rattle.cc_host.specs.Calls.{Always, Collects, Does, Forgets, NoneComes, TellsFew};
ghost use Rattle.cc_host.specs.Hosted.{machine};
ghost use Rattle.cc_host.specs.Lasting.{Lasts, TellsFreedOnce};
ghost use Rattle.cc_host.specs.Next.{FreesTheUnlinked};
ghost use Rattle.cc_host.specs.Places.{KeepsPlaces};
ghost use Rattle.cc_host.specs.Missing.{CannotMiss, IsOfAGraph, IsUsedWell, Takes, TakesBySlice, TakesGarbage, TellsUnlinked, WillTake, lost_in};

use crate::runtime::Runtime;
use cc_collector::{Collector, Ended, Steps};
use cc_heaps::Heaps;
use cc_model::Notices;
use cc_names::NoMemory;
use cc_skip::forget;
use std::marker::Brand;
use std::sync::ledger::{Blank, Ledger};

impl Runtime {
    /// Whether a collection runs.
    pub fn running(&self) -> bool
        ensures { result ≡ is_some self.now.running }
    {
        self.collector.running()
    }

    /// Whether a script marking goes on.
    pub fn marking(&self) -> bool
        ensures { result ≡ self.now.marking }
    {
        self.collector.marking()
    }

    /// Forgets suspects that are alive: each that the roots reach over slots, reflectors and delegates loses its mark, so that
    /// a collection that begins then does not look at it. How many these were.
    ///
    /// Entries of weak maps are left aside: what is reached by them alone stays a suspect. A native that is written afterwards,
    /// or loses a reference, is a suspect again. This may be called at any time, also while a collection runs or a script marking
    /// goes on, which goes on as it did. No object leaves or comes. It tells
    /// nothing and takes no memory, and time by what the roots reach and by how many suspects there are.
    pub fn forget(&mut self) -> u32
        ensures does { Does Always (λ g. g) self.old self.new }
        ensures forgets { Forgets self.old self.new result }
        ensures none_left { NothingLeft self.old.heaps.heap self.new.heaps.heap }
        ensures none_came { NoneComes self.old self.new }
        ensures places { KeepsPlaces self.old.heaps.heap self.new.heaps.heap }
        ensures lasts { Lasts None self.old self.new }
    {
        forget(&mut self.heaps)
    }

    /// A few units of the running collection, or of one that begins here where none runs: to be called in each frame of a
    /// program. A script marking that goes on is ended first. See `Collector::slice`.
    ///
    /// `Ended::Yes` where a collection came to its end. `NoMemory`, where memory was wanted: the collection is given up, which
    /// is told, and nothing is lost or forgotten.
    pub fn slice<N: Notices>(&mut self, units: u32, out: &mut N) -> Result<Ended, NoMemory>
        ensures collects { Collects self.old self.new (N.telling out.old) (N.telling out.new) }
        ensures few { TellsFew (length self.old.heaps.heap.natives + 1) self.old self.new (N.telling out.old) (N.telling out.new) }
        ensures sliced { (steps : ℕ) × IsSliced units (machine self.old) (machine self.new) (progress_of result) 0 steps (N.telling out.old)
            (N.telling out.new) }
        ensures over { result ≢ Ok Ended.No → self.new.running ≡ None }
        ensures unmarked { self.new.marking ≡ false }
        // what the running collection can't miss is told unlinked at its end; what one can't miss that begins after `gc`
        ensures takes { (ds : List Name) → CannotMiss self.old ds → TakesBySlice ds self.new (progress_of result) (N.telling out.old) (N.telling out.new) }
        ensures begins { 0 < units → IsOfAGraph self.old → TakesGarbage self.old →
            TakesBySlice (lost_in self.old) self.new (progress_of result) (N.telling out.old) (N.telling out.new) }
        // and what was lost at an earlier `gc`
        ensures later { 0 < units → (ds : List Name) → WillTake self.old ds →
            TakesBySlice ds self.new (progress_of result) (N.telling out.old) (N.telling out.new) }
        ensures places { KeepsPlaces self.old.heaps.heap self.new.heaps.heap }
        ensures lasts { Lasts None self.old self.new }
        ensures freed_once { TellsFreedOnce self.old self.new (N.telling out.old) (N.telling out.new) }
    {
        slice::<Brand, N>(
            &mut self.heaps,
            &mut self.collector,
            units,
            out,
            Blank::new(1),
        )
    }

    /// A whole collection; one that runs is ended first, and so is a script marking that goes on. See `Collector::whole`.
    ///
    /// `NoMemory` as in a slice.
    pub fn collect<N: Notices>(&mut self, out: &mut N) -> Result<(), NoMemory>
        ensures collects { Collects self.old self.new (N.telling out.old) (N.telling out.new) }
        ensures few { TellsFew (length self.old.heaps.heap.natives + (length self.old.heaps.heap.natives + 1)) self.old self.new
            (N.telling out.old) (N.telling out.new) }
        ensures done { OnOk result (IsCollected (machine self.old) (machine self.new) at_end (N.telling out.old) (N.telling out.new)) }
        ensures refused { OnErr result (IsCollected (machine self.old) (machine self.new) refused (N.telling out.old) (N.telling out.new)) }
        ensures over { self.new.running ≡ None }
        ensures unmarked { self.new.marking ≡ false }
        ensures takes { (ds : List Name) → CannotMiss self.old ds → Takes ds (N.telling out.old) (N.telling out.new) }
        ensures takes_if_done { OnOk result ((ds : List Name) → CannotMiss self.old ds → TellsUnlinked ds (N.telling out.old) (N.telling out.new)) }
        ensures begins { OnOk result (IsOfAGraph self.old → TakesGarbage self.old → TellsUnlinked (lost_in self.old) (N.telling out.old) (N.telling out.new)) }
        ensures later { OnOk result ((ds : List Name) → WillTake self.old ds → TellsUnlinked ds (N.telling out.old) (N.telling out.new)) }
        ensures places { KeepsPlaces self.old.heaps.heap self.new.heaps.heap }
        ensures lasts { Lasts None self.old self.new }
        ensures freed_once { TellsFreedOnce self.old self.new (N.telling out.old) (N.telling out.new) }
    {
        self.collector.whole(&mut self.heaps, out)
    }

    /// A script collection, before which a script marking that goes on is dropped and a collection that runs is ended. See
    /// `Collector::gc`.
    pub fn gc<N: Notices>(&mut self, out: &mut N)
        ensures collects { Collects self.old self.new (N.telling out.old) (N.telling out.new) }
        ensures few { TellsFew (length self.old.heaps.heap.natives + 1) self.old self.new (N.telling out.old) (N.telling out.new) }
        ensures swept { IsSwept (machine self.old) (machine self.new) (N.telling out.old) (N.telling out.new) }
        ensures over { self.new.running ≡ None }
        ensures unmarked { self.new.marking ≡ false }
        ensures takes { (ds : List Name) → CannotMiss self.old ds → Takes ds (N.telling out.old) (N.telling out.new) }
        // a collection that begins now can't miss what nothing reaches
        ensures garbage { TakesGarbage self.new }
        // nor can one that begins later, where the calls between are handed what is reached
        ensures lost { IsOfAGraph self.old → WillTake self.new (lost_in self.new) }
        // what was unlinked before is gone, and what led to it
        ensures frees { IsUsedWell self.old → FreesTheUnlinked self.old.heaps.heap self.new.heaps.heap }
        ensures places { KeepsPlaces self.old.heaps.heap self.new.heaps.heap }
        ensures lasts { Lasts None self.old self.new }
        ensures freed_once { TellsFreedOnce self.old self.new (N.telling out.old) (N.telling out.new) }
    {
        self.collector.gc(&mut self.heaps, out);
    }

    /// A few units of the script marking that goes on, or of one that begins here where none does: to be called in each frame of a
    /// program, where `gc` would take too long. A collection that runs is ended first. See `Collector::mark`.
    ///
    /// `Ended::Yes` where the marking came to its end: the script objects that it did not reach are freed. Takes no memory.
    pub fn mark<N: Notices>(&mut self, units: u32, out: &mut N) -> Ended
        ensures collects { Collects self.old self.new (N.telling out.old) (N.telling out.new) }
        ensures few { TellsFew (length self.old.heaps.heap.natives + 1) self.old self.new (N.telling out.old) (N.telling out.new) }
        ensures marked { (steps : ℕ) × IsMarkedOn units (machine self.old) (machine self.new) result 0 steps (N.telling out.old) (N.telling out.new) }
        ensures over { self.new.running ≡ None }
        ensures ended { result ≡ Ended.Yes → self.new.marking ≡ false }
        ensures goes_on { result ≡ Ended.No → 0 < units → self.new.marking ≡ true }
        ensures takes { (ds : List Name) → CannotMiss self.old ds → Takes ds (N.telling out.old) (N.telling out.new) }
        ensures places { KeepsPlaces self.old.heaps.heap self.new.heaps.heap }
        ensures lasts { Lasts None self.old self.new }
        ensures freed_once { TellsFreedOnce self.old self.new (N.telling out.old) (N.telling out.new) }
    {
        mark::<Brand, N>(
            &mut self.heaps,
            &mut self.collector,
            units,
            out,
            Blank::new(1),
        )
    }

    /// Leaves exactly what the roots reach: `gc`, a whole collection, and `gc`. See `Collector::settle`.
    ///
    /// `NoMemory`, where memory was wanted: nothing is lost or forgotten, and it can be called again.
    pub fn settle<N: Notices>(&mut self, out: &mut N) -> Result<(), NoMemory>
        ensures exact { OnOk result (HasWhatIsReached self.new.heaps.heap) }
        ensures collects { Collects self.old self.new (N.telling out.old) (N.telling out.new) }
        ensures few { TellsFew ((length self.old.heaps.heap.natives + 1) + (length self.old.heaps.heap.natives + 1)) self.old self.new
            (N.telling out.old) (N.telling out.new) }
        ensures done { OnOk result (IsSettled (machine self.old) (machine self.new) (N.telling out.old) (N.telling out.new)) }
        ensures refused { OnErr result (IsUnsettled (machine self.old) (machine self.new) (N.telling out.old) (N.telling out.new)) }
        ensures over { self.new.running ≡ None }
        ensures unmarked { self.new.marking ≡ false }
        ensures takes { (ds : List Name) → CannotMiss self.old ds → Takes ds (N.telling out.old) (N.telling out.new) }
        ensures places { KeepsPlaces self.old.heaps.heap self.new.heaps.heap }
        ensures lasts { Lasts None self.old self.new }
        ensures freed_once { TellsFreedOnce self.old self.new (N.telling out.old) (N.telling out.new) }
    {
        self.collector.settle(&mut self.heaps, out)
    }
}

/// Units of a collection that nobody counts.
fn slice<L: Ledger, N: Notices>(
    heaps: &mut Heaps,
    collector: &mut Collector,
    units: u32,
    out: &mut N,
    blank: Blank,
) -> Result<Ended, NoMemory>
    requires runs { RunsIn heaps.old collector.old }
    requires name { blank.name ≡ L.name }
    requires parts { blank.parts ≡ L.parts }
    requires some { 0 < L.parts }
    ensures sliced { (steps : ℕ) × IsSliced units (machine_of heaps.old collector.old) (machine_of heaps.new collector.new)
        (progress_of result) 0 steps (N.telling out.old) (N.telling out.new) }
    ensures over { result ≢ Ok Ended.No → collector.new.running ≡ None }
    ensures unmarked { collector.new.marking ≡ false }
    ensures keeps { KeepsWhatIsReached heaps.old.heap heaps.new.heap }
    ensures tells { TellsWhatLeaves heaps.old.heap heaps.new.heap (N.telling out.old) (N.telling out.new) }
    ensures stands { StillStands heaps.old.heap heaps.new.heap }
    ensures suspected { IsSuspectedNow (machine_of heaps.old collector.old) → IsSuspectedNow (machine_of heaps.new collector.new) }
    ensures kept { KeepsHeaps [] [] heaps.old heaps.new }
    ensures runs { RunsIn heaps.new collector.new }
{
    let mut steps = Steps::<L>::new(blank);
    collector.slice(heaps, units, out, &mut steps)
}

/// Units of a marking that nobody counts.
fn mark<L: Ledger, N: Notices>(
    heaps: &mut Heaps,
    collector: &mut Collector,
    units: u32,
    out: &mut N,
    blank: Blank,
) -> Ended
    requires runs { RunsIn heaps.old collector.old }
    requires name { blank.name ≡ L.name }
    requires parts { blank.parts ≡ L.parts }
    requires some { 0 < L.parts }
    ensures marked { (steps : ℕ) × IsMarkedOn units (machine_of heaps.old collector.old) (machine_of heaps.new collector.new)
        result 0 steps (N.telling out.old) (N.telling out.new) }
    ensures over { collector.new.running ≡ None }
    ensures ended { result ≡ Ended.Yes → collector.new.marking ≡ false }
    ensures goes_on { result ≡ Ended.No → 0 < units → collector.new.marking ≡ true }
    ensures keeps { KeepsWhatIsReached heaps.old.heap heaps.new.heap }
    ensures tells { TellsWhatLeaves heaps.old.heap heaps.new.heap (N.telling out.old) (N.telling out.new) }
    ensures stands { StillStands heaps.old.heap heaps.new.heap }
    ensures suspected { IsSuspectedNow (machine_of heaps.old collector.old) → IsSuspectedNow (machine_of heaps.new collector.new) }
    ensures kept { KeepsHeaps [] [] heaps.old heaps.new }
    ensures runs { RunsIn heaps.new collector.new }
{
    let mut steps = Steps::<L>::new(blank);
    collector.mark(heaps, units, out, &mut steps)
}
