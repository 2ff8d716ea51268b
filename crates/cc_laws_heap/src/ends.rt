//! Laws of the end of a collection: what taking natives away leaves and tells.
ghost use Rattle.std.specs.Prelude.{◌≡◌, ◌≤◌, ℕ, List, [], ◌∷◌, ◌++◌, map};
ghost use Rattle.cc_lists.specs.Members.{Among};
ghost use Rattle.cc_names.specs.declared.name.Name.{Name};
ghost use Rattle.cc_model.specs.declared.item.Event.TheVariants.{Freed, Unlinked};
ghost use Rattle.cc_model.specs.Graph.{Graph};
ghost use Rattle.cc_model.specs.WellMade.{IsWellMade};
ghost use Rattle.cc_model.specs.Reached.{Reached};
ghost use Rattle.cc_model.specs.Heap.{Heap, HeapNative};
ghost use Rattle.cc_model.specs.View.{view};
ghost use Rattle.cc_model.specs.WellFormed.{native_names, IsRising};
ghost use Rattle.cc_model.specs.Counts.{times};
ghost use Rattle.cc_model.specs.Colours.{HasColourInvariant};
ghost use Rattle.cc_model.specs.End.{take_away, unlink};
ghost use Rattle.cc_model.specs.StandsFor.{StandsFor};
ghost use Rattle.cc_laws_heap.specs.Sound.{IsSound};
ghost use Rattle.cc_laws_heap.specs.Apart.{AreApart};
ghost use Rattle.cc_laws_heap.specs.Ending.{TakesAway, AreThere, IsLeft};

/// Unlinking a native that is rooted leaves the heaps sound; if the native is left, it is empty and unlinked for good, and
/// the others change in their counts alone. Where it is apart, so that registers and the other natives do not lead to it, the heaps
/// go on standing for the graph.
pub fn unlinking_keeps_counts()
    ensures sound { (owned : List ℕ) (h : Heap) (k : ℕ) → IsSound owned h → Among k owned → IsSound owned (unlink h k).heap }
    ensures left { (owned : List ℕ) (h : Heap) (k : ℕ) (n : HeapNative) → IsSound owned h → Among k owned → Among n (unlink h k).heap.natives →
        IsLeft h (k ∷ []) n }
    ensures stands { (owned : List ℕ) (h : Heap) (g : Graph) (k : ℕ) → IsSound owned h → Among k owned → IsWellMade g → StandsFor h g →
        AreApart h (k ∷ []) → StandsFor (unlink h k).heap g }
{}

/// The end of a collection over natives that are there, by rising number: it leaves the heaps sound; each of them is
/// told unlinked once, in that order, before any of them is freed; the free lines name distinct natives that were
/// there, and take out these and no others. Of them what is left is empty and unlinked for good; other natives change in
/// their counts alone.
pub fn ends_keep_counts()
    ensures sound { (h : Heap) (ks : List ℕ) → IsSound [] h → AreThere ks h → IsSound [] (take_away ks h).heap }
    ensures colours { (h : Heap) (ks : List ℕ) → IsSound [] h → AreThere ks h → HasColourInvariant (view h) →
        HasColourInvariant (view (take_away ks h).heap) }
    ensures takes { (h : Heap) (ks : List ℕ) → IsSound [] h → AreThere ks h → (freed : List ℕ) × TakesAway h ks freed (take_away ks h) }
{}

/// The end of a collection over natives that are apart: the registers and the other natives of the heaps lead to none of them.
/// The heaps go on standing for the same graph, and nothing that a register reaches is freed.
pub fn ends_stand()
    ensures stands { (h : Heap) (g : Graph) (ks : List ℕ) → IsSound [] h → AreThere ks h → IsWellMade g → StandsFor h g →
        AreApart h ks → StandsFor (take_away ks h).heap g }
    ensures freed { (h : Heap) (g : Graph) (ks : List ℕ) (x : Name) → IsSound [] h → AreThere ks h → IsWellMade g → StandsFor h g →
        AreApart h ks → Among (Freed x) (take_away ks h).events → ¬ (Reached g x) }
{}
