//! Laws of the units of a collection: a snapshot is fresh once it is begun, and stays so.
ghost use Rattle.std.specs.Prelude.{◌≡◌, [], Bool, ℕ, Some, None};
ghost use Rattle.cc_names.specs.declared.name.Name.{Name};
ghost use Rattle.cc_model.specs.Heap.{Heap};
ghost use Rattle.cc_model.specs.View.{view};
ghost use Rattle.cc_model.specs.Colours.{HasColourInvariant};
ghost use Rattle.cc_model.specs.Snapshot.{Snapshot};
ghost use Rattle.cc_model.specs.Units.{begun, with_empty_buffer, first_untraversed, to_note, after_node};
ghost use Rattle.cc_model.specs.End.{unit, refused};
ghost use Rattle.cc_model.specs.Fresh.{IsFresh};
ghost use Rattle.cc_laws_heap.specs.Sound.{IsSound};

/// A snapshot that was just begun is fresh; a refused begin leaves the heaps as they were.
pub fn begin_is_fresh()
    ensures fresh { (h : Heap) → IsSound [] h → HasColourInvariant (view h) →
        IsFresh h.natives_made (view (with_empty_buffer h)) (begun h) }
    ensures refused { (h : Heap) (memory : Bool) → (unit h None memory).progress ≡ refused → (unit h None memory).heap ≡ h }
{}

/// The unit of a node keeps a snapshot fresh, at each kind of node.
pub fn units_keep_fresh()
    ensures node { (h : Heap) (s : Snapshot) (x : Name) → IsSound [] h → IsFresh h.natives_made (view h) s →
        first_untraversed s.nodes ≡ Some x → IsFresh h.natives_made (view h) (after_node h s x (to_note h x)) }
{}
