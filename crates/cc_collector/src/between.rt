//! What may come between the units of a collection or of a marking.
ghost use Rattle.cc_heaps.specs.Keyed.{Keyed};
ghost use Rattle.cc_collector.specs.Kept.{Kept, RunsIn, MayComeBetween};

/// A change that may come between units leaves a collector that runs in the changed heaps. All that a command of the
/// mutator changes is such a change.
pub fn running_collections_go_on()
    ensures { (old new : Keyed) (k : Kept) → RunsIn old k → MayComeBetween old new → RunsIn new k }
{}
