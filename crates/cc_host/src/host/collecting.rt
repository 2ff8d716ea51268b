//! Collections, whole and in slices, and script markings.
ghost use Rattle.std.specs.Prelude.{◌≡◌, ◌≢◌, ◌<◌, ℕ, true, false, List, None, Ok, Err, IfOk, OnErr, OnOk, is_some};
ghost use Rattle.cc_names.specs.declared.name.Name.{Name};
ghost use Rattle.cc_model.specs.End.{at_end, refused};
ghost use Rattle.cc_collector.specs.Collected.{IsCollected, IsMarkedOn, IsSliced, IsSwept};
ghost use Rattle.cc_collector.specs.Settled.{HasWhatIsReached, IsSettled, IsUnsettled};
ghost use Rattle.cc_host.specs.Calls.{Always, Collects, Does, Forgets, NoneComes};
ghost use Rattle.cc_host.specs.Hosted.{machine};
ghost use Rattle.cc_host.specs.Lasting.{Lasts, TellsFreedOnce};
ghost use Rattle.cc_host.specs.Missing.{CannotMiss, IsOfAGraph, Takes, TakesBySlice, TakesGarbage, TellsUnlinked, lost_in, IsUsedWell, WillTake};
ghost use Rattle.cc_host.specs.Next.{FreesTheUnlinked};
ghost use Rattle.cc_host.specs.Queues.{told_all};
ghost use Rattle.cc_host.specs.Hosts.{Aside, IsUnfetched, Quiet, hindered, progress_of};

use crate::hindrance::Hindrance;
use crate::host::Host;
use cc_collector::Ended;
use cc_names::NoMemory;

// What a slice answers.
fn of_slice(ended: Result<Ended, NoMemory>) -> Result<Ended, Hindrance>
    ensures { result ≡ hindered ended }
{
    match ended {
        Ok(ended) => Ok(ended),
        Err(NoMemory) => Err(Hindrance::NoMemory),
    }
}

// What a whole collection answers.
fn of_whole(done: Result<(), NoMemory>) -> Result<(), Hindrance>
    ensures { result ≡ hindered done }
{
    match done {
        Ok(()) => Ok(()),
        Err(NoMemory) => Err(Hindrance::NoMemory),
    }
}

impl Host {
    /// Whether a collection runs.
    pub fn running(&self) -> bool
        ensures { result ≡ is_some self.now.host.running }
    {
        self.runtime.running()
    }

    /// Whether a script marking goes on.
    pub fn marking(&self) -> bool
        ensures { result ≡ self.now.host.marking }
    {
        self.runtime.marking()
    }

    /// Forgets suspects that are alive: each that the roots reach over slots, reflectors and delegates loses its mark, so that
    /// a collection that begins then does not look at it. How many these were.
    ///
    /// Entries of weak maps are left aside: what is reached by them alone stays a suspect. A native that is written afterwards,
    /// or loses a reference, is a suspect again. This may be called at any time, also while a collection runs or a script marking
    /// goes on, which goes on as it did. No object leaves or comes. It tells nothing and takes no memory, and time by what the
    /// roots reach and by how many suspects there are.
    #[tactic(auto, using(crate::proofs::HasRoom::after_nothing))]
    pub fn forget(&mut self) -> u32
        ensures does { Does Always (λ g. g) self.old.host self.new.host }
        ensures forgets { Forgets self.old.host self.new.host result }
        ensures quiet { Quiet self.old self.new }
        ensures none_came { NoneComes self.old.host self.new.host }
        ensures lasts { Lasts None self.old.host self.new.host }
    {
        let marks = self.runtime.forget();
        self.runtime.keeps();
        marks
    }

    /// A few units of the running collection, or of one that begins here where none runs: to be called in each frame of a
    /// program. A script marking that goes on is ended first. What a unit is, `Collector::slice` of `cc_collector` says.
    ///
    /// `Ended::Yes` where a collection came to its end. `NoMemory`, where memory was wanted: the collection is given up, which is told,
    /// and nothing is lost or forgotten. `Unfetched` only where something waits to be fetched, and beside it is too little room for all
    /// that a collection can tell; nothing was done then.
    pub fn slice(&mut self, units: u32) -> Result<Ended, Hindrance>
        ensures unfetched { result ≡ Err Hindrance.Unfetched → IsUnfetched self.old self.new }
        ensures collects { result ≢ Err Hindrance.Unfetched → Collects self.old.host self.new.host (told_all self.old.told) (told_all self.new.told) }
        ensures sliced { result ≢ Err Hindrance.Unfetched →
            (steps : ℕ) × IsSliced units (machine self.old.host) (machine self.new.host) (progress_of result) 0 steps
            (told_all self.old.told) (told_all self.new.told) }
        ensures over { result ≢ Err Hindrance.Unfetched → result ≢ Ok Ended.No → self.new.host.running ≡ None }
        ensures unmarked { result ≢ Err Hindrance.Unfetched → self.new.host.marking ≡ false }
        ensures aside { Aside self.old self.new }
        // what the running collection can't miss is told unlinked at its end; what one can't miss that begins after `gc`
        ensures takes { result ≢ Err Hindrance.Unfetched → (ds : List Name) → CannotMiss self.old.host ds →
            TakesBySlice ds self.new.host (progress_of result) (told_all self.old.told) (told_all self.new.told) }
        ensures begins { result ≢ Err Hindrance.Unfetched → 0 < units → IsOfAGraph self.old.host → TakesGarbage self.old.host →
            TakesBySlice (lost_in self.old.host) self.new.host (progress_of result) (told_all self.old.told) (told_all self.new.told) }
        // and what was lost at an earlier `gc`
        ensures later { result ≢ Err Hindrance.Unfetched → 0 < units → (ds : List Name) → WillTake self.old.host ds →
            TakesBySlice ds self.new.host (progress_of result) (told_all self.old.told) (told_all self.new.told) }
        ensures lasts { Lasts None self.old.host self.new.host }
        ensures freed_once { result ≢ Err Hindrance.Unfetched → TellsFreedOnce self.old.host self.new.host (told_all self.old.told) (told_all self.new.told) }
    {
        let most = self.most_told();
        let Ok(()) = self.told.reserve(most) else {
            return Err(Hindrance::Unfetched);
        };
        let ended = self.runtime.slice(units, &mut self.told);
        self.told.keeps();
        self.runtime.keeps();
        of_slice(ended)
    }

    /// A whole collection; one that runs is ended first, and so is a script marking that goes on.
    ///
    /// `NoMemory` and `Unfetched` as in a slice.
    pub fn collect(&mut self) -> Result<(), Hindrance>
        ensures unfetched { result ≡ Err Hindrance.Unfetched → IsUnfetched self.old self.new }
        ensures collects { result ≢ Err Hindrance.Unfetched → Collects self.old.host self.new.host (told_all self.old.told) (told_all self.new.told) }
        ensures done { OnOk result (IsCollected (machine self.old.host) (machine self.new.host) at_end (told_all self.old.told) (told_all self.new.told)) }
        ensures refused { result ≡ Err Hindrance.NoMemory → IsCollected (machine self.old.host) (machine self.new.host) refused
            (told_all self.old.told) (told_all self.new.told) }
        ensures over { result ≢ Err Hindrance.Unfetched → self.new.host.running ≡ None }
        ensures unmarked { result ≢ Err Hindrance.Unfetched → self.new.host.marking ≡ false }
        ensures aside { Aside self.old self.new }
        ensures takes { result ≢ Err Hindrance.Unfetched → (ds : List Name) → CannotMiss self.old.host ds →
            Takes ds (told_all self.old.told) (told_all self.new.told) }
        ensures takes_if_done { OnOk result ((ds : List Name) → CannotMiss self.old.host ds →
            TellsUnlinked ds (told_all self.old.told) (told_all self.new.told)) }
        ensures begins { OnOk result (IsOfAGraph self.old.host → TakesGarbage self.old.host →
            TellsUnlinked (lost_in self.old.host) (told_all self.old.told) (told_all self.new.told)) }
        ensures later { OnOk result ((ds : List Name) → WillTake self.old.host ds →
            TellsUnlinked ds (told_all self.old.told) (told_all self.new.told)) }
        ensures lasts { Lasts None self.old.host self.new.host }
        ensures freed_once { result ≢ Err Hindrance.Unfetched → TellsFreedOnce self.old.host self.new.host (told_all self.old.told) (told_all self.new.told) }
    {
        let most = self.most_told();
        let Ok(()) = self.told.reserve(most) else {
            return Err(Hindrance::Unfetched);
        };
        let done = self.runtime.collect(&mut self.told);
        self.told.keeps();
        self.runtime.keeps();
        of_whole(done)
    }

    /// A script collection, before which a script marking that goes on is dropped and a collection that runs is ended: frees the script
    /// objects that neither roots nor natives lead to, and the natives of which these held the last reference.
    ///
    /// `Unfetched`, and no other, as in a slice.
    pub fn gc(&mut self) -> Result<(), Hindrance>
        ensures refused { (h : Hindrance) → result ≡ Err h → h ≡ Hindrance.Unfetched }
        ensures unfetched { OnErr result (IsUnfetched self.old self.new) }
        ensures collects { OnOk result (Collects self.old.host self.new.host (told_all self.old.told) (told_all self.new.told)) }
        ensures swept { OnOk result (IsSwept (machine self.old.host) (machine self.new.host) (told_all self.old.told) (told_all self.new.told)) }
        ensures over { OnOk result (self.new.host.running ≡ None) }
        ensures unmarked { OnOk result (self.new.host.marking ≡ false) }
        ensures aside { Aside self.old self.new }
        ensures takes { OnOk result ((ds : List Name) → CannotMiss self.old.host ds → Takes ds (told_all self.old.told) (told_all self.new.told)) }
        // a collection that begins now can't miss what nothing reaches
        ensures garbage { OnOk result (TakesGarbage self.new.host) }
        // nor can one that begins later, where the calls between are handed what is reached
        ensures lost { OnOk result (IsOfAGraph self.old.host → WillTake self.new.host (lost_in self.new.host)) }
        // what was unlinked before is gone, and what led to it
        ensures frees { OnOk result (IsUsedWell self.old.host → FreesTheUnlinked self.old.host.heaps.heap self.new.host.heaps.heap) }
        ensures lasts { Lasts None self.old.host self.new.host }
        ensures freed_once { OnOk result (TellsFreedOnce self.old.host self.new.host (told_all self.old.told) (told_all self.new.told)) }
    {
        let most = self.most_told();
        let Ok(()) = self.told.reserve(most) else {
            return Err(Hindrance::Unfetched);
        };
        self.runtime.gc(&mut self.told);
        self.told.keeps();
        self.runtime.keeps();
        Ok(())
    }

    /// A few units of the script marking that goes on, or of one that begins here where none does: to be called in each frame of a
    /// program, where `gc` would take too long. A collection that runs is ended first.
    ///
    /// `Ended::Yes` where the marking came to its end: the script objects that it did not reach are freed. `Unfetched`, and no other, as in
    /// a slice.
    pub fn mark(&mut self, units: u32) -> Result<Ended, Hindrance>
        ensures refused { (h : Hindrance) → result ≡ Err h → h ≡ Hindrance.Unfetched }
        ensures unfetched { OnErr result (IsUnfetched self.old self.new) }
        ensures collects { OnOk result (Collects self.old.host self.new.host (told_all self.old.told) (told_all self.new.told)) }
        ensures marked { IfOk result (λ ended.
            (steps : ℕ) × IsMarkedOn units (machine self.old.host) (machine self.new.host) ended 0 steps (told_all self.old.told) (told_all self.new.told)) }
        ensures over { OnOk result (self.new.host.running ≡ None) }
        ensures ended { result ≡ Ok Ended.Yes → self.new.host.marking ≡ false }
        ensures goes_on { result ≡ Ok Ended.No → 0 < units → self.new.host.marking ≡ true }
        ensures aside { Aside self.old self.new }
        ensures takes { OnOk result ((ds : List Name) → CannotMiss self.old.host ds → Takes ds (told_all self.old.told) (told_all self.new.told)) }
        ensures lasts { Lasts None self.old.host self.new.host }
        ensures freed_once { OnOk result (TellsFreedOnce self.old.host self.new.host (told_all self.old.told) (told_all self.new.told)) }
    {
        let most = self.most_told();
        let Ok(()) = self.told.reserve(most) else {
            return Err(Hindrance::Unfetched);
        };
        let ended = self.runtime.mark(units, &mut self.told);
        self.told.keeps();
        self.runtime.keeps();
        Ok(ended)
    }

    /// Leaves exactly what the roots reach: `gc`, a whole collection, and `gc`.
    ///
    /// `NoMemory`, where memory was wanted: the collection is given up, which is told, and nothing is lost or forgotten. `Unfetched` as in
    /// a slice. It can be called again.
    pub fn settle(&mut self) -> Result<(), Hindrance>
        ensures exact { OnOk result (HasWhatIsReached self.new.host.heaps.heap) }
        ensures unfetched { result ≡ Err Hindrance.Unfetched → IsUnfetched self.old self.new }
        ensures collects { result ≢ Err Hindrance.Unfetched → Collects self.old.host self.new.host (told_all self.old.told) (told_all self.new.told) }
        ensures done { OnOk result (IsSettled (machine self.old.host) (machine self.new.host) (told_all self.old.told) (told_all self.new.told)) }
        ensures refused { result ≡ Err Hindrance.NoMemory → IsUnsettled (machine self.old.host) (machine self.new.host)
            (told_all self.old.told) (told_all self.new.told) }
        ensures over { result ≢ Err Hindrance.Unfetched → self.new.host.running ≡ None }
        ensures unmarked { result ≢ Err Hindrance.Unfetched → self.new.host.marking ≡ false }
        ensures aside { Aside self.old self.new }
        ensures takes { result ≢ Err Hindrance.Unfetched → (ds : List Name) → CannotMiss self.old.host ds →
            Takes ds (told_all self.old.told) (told_all self.new.told) }
        ensures lasts { Lasts None self.old.host self.new.host }
        ensures freed_once { result ≢ Err Hindrance.Unfetched → TellsFreedOnce self.old.host self.new.host (told_all self.old.told) (told_all self.new.told) }
    {
        let most = self.most_told();
        let Ok(()) = self.told.reserve(most) else {
            return Err(Hindrance::Unfetched);
        };
        let done = self.runtime.settle(&mut self.told);
        self.told.keeps();
        self.runtime.keeps();
        of_whole(done)
    }
}
