//! A marking of script objects in slices.
ghost use Rattle.std.specs.Prelude.{◌≡◌, ◌<◌, ℕ, List, [], None, Some};
ghost use Rattle.cc_model.specs.Colours.{HasColourInvariant};
ghost use Rattle.cc_model.specs.Marking.{NewMarks, begun_marks, ended_marks};
ghost use Rattle.cc_model.specs.Suspected.{IsSuspected};
ghost use Rattle.cc_model.specs.View.{view};
ghost use Rattle.cc_heaps.specs.Keyed.{IsInOrder};
ghost use Rattle.cc_heaps.specs.NewMarks.{marks_of};
ghost use Rattle.cc_heaps.specs.Standing.{StillStands};
ghost use Rattle.cc_heaps.specs.Keeping.{KeepsAllButMarks, KeepsHeaps};
ghost use Rattle.cc_gc.specs.Sparing.{KeepsWhatIsReached, SparesWhatIsReached};
ghost use Rattle.cc_markslice.specs.Going.{IsMarkingWell, scans_left_in};
ghost use Rattle.cc_markslice.specs.Stepping.{IsStepped, SparesWhatIsMarked};

use cc_heaps::Heaps;
use cc_model::Notices;

/// What a step of a marking did.
#[derive(Clone, Copy, Debug, PartialEq, Eq, Drop)]
pub enum MarkStep {
    /// It scanned an object.
    Scanned,
    /// Nothing was left to scan, and it ended the marking.
    Ended,
}

/// A marking that goes on. There is at most one, and the heaps have all of it: this says only that it was begun and has not
/// ended.
#[derive(Drop)]
pub struct Marking {
    begun: (),
}

impl Marking {
    /// Begins a marking; none goes on yet. What script registers hold is black by its marks, and what natives hold gray; the
    /// heaps stay as they were. Takes no memory.
    pub fn begin(heaps: &mut Heaps) -> Marking
        requires order { (owned : List ℕ) × IsInOrder owned heaps.old }
        requires idle { heaps.old.marking ≡ None }
        ensures marks { marks_of heaps.new ≡ Some (begun_marks heaps.old.heap) }
        ensures well { IsMarkingWell heaps.new }
        ensures heap { heaps.new.heap ≡ heaps.old.heap }
        ensures rest { heaps.new ≡ record heaps.old { scripts = heaps.new.scripts; marking = heaps.new.marking } }
        ensures kept { KeepsAllButMarks heaps.old heaps.new }
        ensures stands { StillStands heaps.old.heap heaps.new.heap }
    {
        heaps.begin_new();
        Marking { begun: () }
    }

    /// One step: the next object is scanned. Where none is left the marking ends: entries carry its marks on, these become the
    /// colours, and what is white then is swept, which is told. Each scan leaves fewer (`less`), so a loop over steps ends.
    ///
    /// Nothing that is reached is freed, and no script object that a native holds. The heaps go on standing for the same graph,
    /// and no native that nothing reaches is forgotten, where no collection runs. Takes no memory.
    pub fn step<N: Notices>(&mut self, heaps: &mut Heaps, out: &mut N) -> MarkStep
        requires order { (owned : List ℕ) × IsInOrder owned heaps.old }
        requires well { IsMarkingWell heaps.old }
        ensures stepped { (m : NewMarks) → marks_of heaps.old ≡ Some m → IsStepped result m heaps.old heaps.new (N.telling out.old) (N.telling out.new) }
        ensures well { result ≡ MarkStep.Scanned → IsMarkingWell heaps.new }
        ensures less { result ≡ MarkStep.Scanned → scans_left_in heaps.new < scans_left_in heaps.old }
        ensures over { result ≡ MarkStep.Ended → heaps.new.marking ≡ None }
        ensures invariant { result ≡ MarkStep.Ended → HasColourInvariant (view heaps.new.heap) }
        ensures keeps { KeepsWhatIsReached heaps.old.heap heaps.new.heap }
        ensures spares { (m : NewMarks) → marks_of heaps.old ≡ Some m → result ≡ MarkStep.Ended →
            SparesWhatIsReached heaps.old.heap heaps.new.heap (ended_marks heaps.old.heap m).events }
        ensures spares_marked { (m : NewMarks) → marks_of heaps.old ≡ Some m → result ≡ MarkStep.Ended →
            SparesWhatIsMarked heaps.old.heap (ended_marks heaps.old.heap m).events }
        ensures stands { StillStands heaps.old.heap heaps.new.heap }
        ensures suspected { IsSuspected (view heaps.old.heap) [] → IsSuspected (view heaps.new.heap) [] }
        ensures kept { KeepsHeaps [] [] heaps.old heaps.new }
    {
        if heaps.scan_new() {
            return MarkStep::Scanned;
        }
        heaps.end_new(out);
        MarkStep::Ended
    }
}
