//! Rounds of marking and sweeping.
ghost use Rattle.std.specs.Prelude.{◌≡◌, ℕ, List, [], None};
ghost use Rattle.cc_model.specs.Colours.{HasColours, HasColourInvariant, marked};
ghost use Rattle.cc_model.specs.Suspected.{IsSuspected};
ghost use Rattle.cc_model.specs.Sweep.{collect_scripts as collected, sweep, sweeps};
ghost use Rattle.cc_model.specs.View.{view};
ghost use Rattle.cc_heaps.specs.Keyed.{IsInOrder};
ghost use Rattle.cc_heaps.specs.Standing.{StillStands};
ghost use Rattle.cc_heaps.specs.Keeping.{KeepsHeaps};
ghost use Rattle.cc_model.specs.Telling.{TellsEvents};
ghost use Rattle.cc_gc.specs.Sparing.{KeepsWhatIsReached, SparesWhatIsReached};

use cc_heaps::Heaps;
use cc_model::Notices;

/// Marks, then sweeps what is white. Whether something was swept.
fn round<N: Notices>(heaps: &mut Heaps, out: &mut N) -> bool
    requires order { (owned : List ℕ) × IsInOrder owned heaps.old }
    ensures swept { result ≡ sweeps (marked heaps.old.heap) }
    ensures heap { heaps.new.heap ≡ (sweep (marked heaps.old.heap)).heap }
    ensures told { TellsEvents (N.telling out.old) (N.telling out.new) (sweep (marked heaps.old.heap)).events }
    ensures kept { KeepsHeaps [] [] heaps.old heaps.new }
{
    heaps.mark_scripts();
    heaps.sweep(out)
}

/// A whole script collection: marks and sweeps, again and again, until a round sweeps nothing. What is swept is told.
///
/// What the registers reach stays as it was: each such object is there, with its slots, its delegate, its flag and its key,
/// and an entry of a reached map and a reached key keeps its value. No register reaches what is freed, before or after, and
/// what is freed is all that leaves. Afterwards no script object is white: each is reached from a script register, or a native
/// holds what reaches it. The heaps go on standing for the same graph.
///
/// No native that nothing reaches is forgotten, where no collection runs: references lead to it from a suspect, or from a
/// script object that nothing reaches either, if that was so of each before. So the next collection can find it. Takes no
/// memory.
///
/// A marking in slices that went on is dropped (`marking`): what it had yet to scan may be gone.
pub fn collect_scripts<N: Notices>(heaps: &mut Heaps, out: &mut N)
    requires order { (owned : List ℕ) × IsInOrder owned heaps.old }
    ensures heap { heaps.new.heap ≡ (collected heaps.old.heap).heap }
    ensures told { TellsEvents (N.telling out.old) (N.telling out.new) (collected heaps.old.heap).events }
    ensures keeps { KeepsWhatIsReached heaps.old.heap heaps.new.heap }
    ensures spares { SparesWhatIsReached heaps.old.heap heaps.new.heap (collected heaps.old.heap).events }
    ensures stands { StillStands heaps.old.heap heaps.new.heap }
    ensures suspected { IsSuspected (view heaps.old.heap) [] → IsSuspected (view heaps.new.heap) [] }
    ensures colours { HasColours heaps.new.heap }
    ensures invariant { HasColourInvariant (view heaps.new.heap) }
    ensures kept { KeepsHeaps [] [] heaps.old heaps.new }
    ensures marking { heaps.new.marking ≡ None }
{
    // sweeping may take away what alone held other objects, so the rounds go on until one sweeps nothing
    'rounds: while round(heaps, out) {}
    heaps.drop_new();
}
