//! What collections leave for good.

ghost use Rattle.std.specs.Prelude.{ℕ, []};
ghost use Rattle.cc_model.specs.Collecting.{Machine, collect, gc, mark, slice};
ghost use Rattle.cc_laws_heap.specs.Sound.{IsSound};
ghost use Rattle.cc_laws_run.specs.Running.{IsMarkingNow};
ghost use Rattle.cc_laws_told.specs.Lasting.{FreesOnce, KeepsEnded};

/// Whatever a collection does, numbers made never fall, a native that has ended never comes back, and what is told as freed was there,
/// is there no more, and is told once.
pub fn collections_bring_nothing_back()
    ensures slice { (units : ℕ) (m : Machine) → IsSound [] m.heap → IsMarkingNow m.heap m.marking m.snapshot →
        KeepsEnded m.heap (slice units m).machine.heap × FreesOnce m.heap (slice units m).machine.heap (slice units m).events }
    ensures collect { (m : Machine) → IsSound [] m.heap → IsMarkingNow m.heap m.marking m.snapshot →
        KeepsEnded m.heap (collect m).machine.heap × FreesOnce m.heap (collect m).machine.heap (collect m).events }
    ensures gc { (m : Machine) → IsSound [] m.heap →
        KeepsEnded m.heap (gc m).machine.heap × FreesOnce m.heap (gc m).machine.heap (gc m).events }
    ensures mark { (units : ℕ) (m : Machine) → IsSound [] m.heap → IsMarkingNow m.heap m.marking m.snapshot →
        KeepsEnded m.heap (mark units m).machine.heap × FreesOnce m.heap (mark units m).machine.heap (mark units m).events }
{}
