//! Suspects that the registers reach lose their mark.
ghost use Rattle.std.specs.Prelude.{◌≡◌, ◌+◌, ◌↔◌, ℕ, List, length};
ghost use Rattle.cc_lists.specs.Members.{Among};
ghost use Rattle.cc_names.specs.Names.{native};
ghost use Rattle.cc_model.specs.Skipping.{IsSkippable, forgotten};
ghost use Rattle.cc_model.specs.View.{view};
ghost use Rattle.cc_heaps.specs.Keyed.{IsInOrder, changed_to};
ghost use Rattle.cc_heaps.specs.Keeping.{KeepsAll};
ghost use Rattle.cc_heaps.specs.Marks.{KeepsMarks};
ghost use Rattle.cc_heaps.specs.Standing.{StillStands};
ghost use Rattle.cc_heaps.specs.Walking.{unwalked};

use crate::walking::walk;
use cc_heaps::Heaps;

/// Forgets the suspects that can be skipped: each native with the purple mark that the registers reach over slots, preserved
/// reflectors, delegates of proxies and natives of reflectors loses the mark. Entries of weak maps are left aside, so what is
/// reached by them alone stays a suspect. How many lost it.
///
/// Each keeps its place in the buffer, and nothing else changes. So this may be called between any two slices of a collection, and
/// between any two steps of a script marking, whose marks stay.
/// Takes no memory, and time in step with what is reached.
pub fn forget(heaps: &mut Heaps) -> u32
    requires order { (owned : List ℕ) × IsInOrder owned heaps.old }
    ensures forgotten { heaps.new ≡ unwalked (changed_to heaps.old (forgotten heaps.old.heap)) }
    ensures exactly { (k : ℕ) → Among (native k) (view heaps.old.heap).purple → (¬ Among (native k) (view heaps.new.heap).purple) ↔
        IsSkippable heaps.old.heap (native k) }
    ensures count { result + length (view heaps.new.heap).purple ≡ length (view heaps.old.heap).purple }
    ensures places { (view heaps.new.heap).buffer ≡ (view heaps.old.heap).buffer }
    ensures kept { KeepsAll heaps.old heaps.new }
    ensures marks { KeepsMarks heaps.old heaps.new }
    ensures stands { StillStands heaps.old.heap heaps.new.heap }
{
    heaps.walk_clear();
    let forgotten = walk(heaps);
    heaps.walk_clear();
    forgotten
}
