//! What the audit of the examples says where it says yes.

ghost use Rattle.std.specs.Prelude.{ℕ, IsTrue, List};
ghost use Rattle.cc_model.specs.View.{View};
ghost use Rattle.cc_model.specs.Snapshot.{Snapshot};
ghost use Rattle.cc_model.specs.Fresh.{IsFresh};
ghost use Rattle.cc_model.specs.Suspected.{IsSuspected};
ghost use Rattle.cc_worked.specs.SnapshotTests.{is_fresh, is_suspected};

/// The audit's test of a fresh snapshot, and that of suspicion, say yes only where the relation holds.
pub fn audit_is_sound()
    ensures fresh { (made : ℕ) (v : View) (s : Snapshot) → IsTrue (is_fresh made v s) → IsFresh made v s }
    ensures suspected { (v : View) (candidates : List ℕ) → IsTrue (is_suspected v candidates) → IsSuspected v candidates }
{}
