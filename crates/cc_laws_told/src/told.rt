//! How much collections tell.

ghost use Rattle.std.specs.Prelude.{◌≡◌, ◌+◌, ℕ, [], None, length};
ghost use Rattle.cc_model.specs.Collecting.{Machine, collect, gc, mark, slice};
ghost use Rattle.cc_laws_heap.specs.Sound.{IsSound};
ghost use Rattle.cc_laws_run.specs.Running.{IsMarkingNow};
ghost use Rattle.cc_laws_told.specs.Told.{TellsFew};

/// A slice, which ends one collection at most, tells each native unlinked once, or that the collection was given up. So do `gc` and
/// `mark`, where a collection runs, and else nothing but what leaves. A whole collection ends a running one before. A marking that a
/// slice or a whole collection ends first, as it should go on, tells what leaves and nothing besides.
pub fn collections_tell_few()
    ensures slice { (units : ℕ) (m : Machine) → IsSound [] m.heap → IsMarkingNow m.heap m.marking m.snapshot →
        TellsFew (length m.heap.natives + 1) m (slice units m) }
    ensures collect { (m : Machine) → IsSound [] m.heap → IsMarkingNow m.heap m.marking m.snapshot →
        TellsFew (length m.heap.natives + (length m.heap.natives + 1)) m (collect m) }
    ensures collect_alone { (m : Machine) → IsSound [] m.heap → IsMarkingNow m.heap m.marking m.snapshot → m.snapshot ≡ None →
        TellsFew (length m.heap.natives + 1) m (collect m) }
    ensures gc { (m : Machine) → IsSound [] m.heap → TellsFew (length m.heap.natives + 1) m (gc m) }
    ensures gc_alone { (m : Machine) → IsSound [] m.heap → m.snapshot ≡ None → TellsFew 0 m (gc m) }
    ensures mark { (units : ℕ) (m : Machine) → IsSound [] m.heap → IsMarkingNow m.heap m.marking m.snapshot →
        TellsFew (length m.heap.natives + 1) m (mark units m) }
    ensures mark_alone { (units : ℕ) (m : Machine) → IsSound [] m.heap → IsMarkingNow m.heap m.marking m.snapshot → m.snapshot ≡ None →
        TellsFew 0 m (mark units m) }
    // no collection runs then, and no marking goes on
    ensures over { (m : Machine) → ((collect m).machine.snapshot ≡ None) × ((gc m).machine.snapshot ≡ None) ×
        ((collect m).machine.marking ≡ None) × ((gc m).machine.marking ≡ None) }
    // no marking goes on
    ensures over_slices { (units : ℕ) (m : Machine) → (slice units m).machine.marking ≡ None }
    // no collection runs
    ensures over_marks { (units : ℕ) (m : Machine) → (mark units m).machine.snapshot ≡ None }
{}
