//! The premises of the laws can be met: scripts whose runs meet them.

ghost use Rattle.std.specs.Prelude.{◌≡◌, [], Some};
ghost use Rattle.cc_names.specs.Names.{native};
ghost use Rattle.cc_model.specs.View.{view, ReachedIn};
ghost use Rattle.cc_model.specs.Snapshot.{Snapshot, IsWhite};
ghost use Rattle.cc_model.specs.Fresh.{IsFresh, IsLiving, IsTraversed};
ghost use Rattle.cc_model.specs.Suspected.{IsCovered};
ghost use Rattle.cc_model.specs.Collecting.{Machine};
ghost use Rattle.cc_laws_heap.specs.Sound.{IsSound};
ghost use Rattle.cc_laws_run.specs.Doomed.{IsSuspectedNow};
ghost use Rattle.cc_laws_run.specs.Premises.{IsLeftByAScript};

/// A script can leave sound heaps and a running collection whose snapshot is fresh and has no node left to traverse,
/// while a native is white in it.
pub fn freshness_can_be_met()
    ensures { (m : Machine) × IsLeftByAScript m × IsSound [] m.heap × (s : Snapshot) × (m.snapshot ≡ Some s)
        × IsFresh m.heap.natives_made (view m.heap) s × IsTraversed s × IsWhite (view m.heap) s (native 1) }
{}

/// A script can leave sound heaps in which no unreached native is forgotten, while a native is in them that nothing
/// reaches.
pub fn suspicion_can_be_met()
    ensures { (m : Machine) × IsLeftByAScript m × IsSound [] m.heap × IsSuspectedNow m × IsLiving (view m.heap) (native 2)
        × (¬ (ReachedIn (view m.heap) (native 2))) × IsCovered (view m.heap) (native 2) }
{}
