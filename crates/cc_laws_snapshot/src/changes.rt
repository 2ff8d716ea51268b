//! Laws of changes that keep every snapshot fresh.
ghost use Rattle.std.specs.Prelude.{◌≡◌, ℕ, IsTrue, [], None};
ghost use Rattle.cc_model.specs.declared.command.Command.{Command};
ghost use Rattle.cc_model.specs.Ranges.{in_range};
ghost use Rattle.cc_model.specs.Checks.{refusal_of};
ghost use Rattle.cc_model.specs.Heap.{Heap, objects_of};
ghost use Rattle.cc_model.specs.View.{View, view};
ghost use Rattle.cc_model.specs.Effects.{effects};
ghost use Rattle.cc_model.specs.Snapshot.{Snapshot};
ghost use Rattle.cc_model.specs.Fresh.{IsFresh};
ghost use Rattle.cc_laws_heap.specs.Sound.{IsSound};
ghost use Rattle.cc_laws_snapshot.specs.Gentle.{IsGentle};

/// A gentle change keeps every snapshot fresh.
pub fn gentle_changes_keep_fresh()
    ensures { (made now_made : ℕ) (h k : View) (s : Snapshot) → IsGentle made now_made h k → IsFresh made h s → IsFresh now_made k s }
{}

/// Each command that is not refused keeps every fresh snapshot fresh, at any moment of a collection.
pub fn commands_keep_fresh()
    ensures { (h : Heap) (s : Snapshot) (c : Command) → IsSound [] h → IsFresh h.natives_made (view h) s → IsTrue (in_range c) →
        refusal_of (objects_of h) c ≡ None → IsFresh (effects h c).heap.natives_made (view (effects h c).heap) s }
{}
