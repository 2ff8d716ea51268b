//! The law of cascades: what giving up a reference leaves and tells.
ghost use Rattle.std.specs.Prelude.{ℕ, List, ◌∷◌};
ghost use Rattle.cc_model.specs.Heap.{Heap};
ghost use Rattle.cc_model.specs.Cascade.{cascade};
ghost use Rattle.cc_laws_heap.specs.Sound.{IsSound};
ghost use Rattle.cc_laws_heap.specs.Freeing.{Frees};

/// Giving up a reference that is owned leaves the heaps sound: each count is that of the references, and no
/// native has count zero. The free lines name distinct natives that were there; these are taken out, and no
/// slot, flag, register, entry or script object changes beside.
pub fn cascade_keeps_counts()
    ensures sound { (owned : List ℕ) (h : Heap) (k : ℕ) → IsSound (k ∷ owned) h → IsSound owned (cascade h k).heap }
    ensures frees { (owned : List ℕ) (h : Heap) (k : ℕ) → IsSound (k ∷ owned) h →
        (ks : List ℕ) × Frees h ks (cascade h k) }
{}
