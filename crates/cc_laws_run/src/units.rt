//! How many units a collection takes.
ghost use Rattle.std.specs.Prelude.{◌≡◌, ◌+◌, Bool, suc, length, Option, Some};
ghost use Rattle.cc_model.specs.Heap.{Heap};
ghost use Rattle.cc_model.specs.Snapshot.{Snapshot};
ghost use Rattle.cc_model.specs.End.{unit, went_on, at_end};
ghost use Rattle.cc_laws_run.specs.UnitsTaken.{units_taken};

/// A collection takes a unit for each node, and two: its begin and its end. How many it has taken is read off its snapshot,
/// which nothing but a unit changes: each unit that goes on raises the number by one, and the one that ends a collection
/// of N nodes is number N + 2.
pub fn collections_take_a_unit_a_node()
    ensures goes_on { (h : Heap) (s : Option Snapshot) (memory : Bool) → (unit h s memory).progress ≡ went_on →
        units_taken (unit h s memory).snapshot ≡ suc (units_taken s) }
    ensures ends { (h : Heap) (s : Option Snapshot) (memory : Bool) → (unit h s memory).progress ≡ at_end →
        (t : Snapshot) × (s ≡ Some t) × (suc (units_taken s) ≡ length t.nodes + 2) }
{}
