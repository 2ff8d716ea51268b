//! Weak registers hold the keys of their natives, whatever the heaps do.

ghost use Rattle.std.specs.Prelude.{◌≤◌, List, Option};
ghost use Rattle.cc_heaps.specs.Keyed.{Keyed};
ghost use Rattle.cc_heaps.specs.Changes.{KeepsKeys};
ghost use Rattle.cc_weakrefs.specs.declared.noted.Noted.{Noted};
ghost use Rattle.cc_weakrefs.specs.Noting.{HoldKeys, NoneComesBack};

/// Weak registers that hold the keys of the natives that they note go on holding them over a change of the heaps that keeps
/// keys and brings no native back. Each call of the heaps and of what stands on them is such a change.
pub fn weak_registers_go_on()
    ensures { (weak : List (Option Noted)) (old new : Keyed) → KeepsKeys old new → NoneComesBack old.heap new.heap →
        old.heap.natives_made ≤ new.heap.natives_made → HoldKeys weak old → HoldKeys weak new }
{}
