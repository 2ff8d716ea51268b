//! Laws of black and white: what the colours of a snapshot are, and that white is unreached.
ghost use Rattle.std.specs.Prelude.{[], ◌↔◌, ℕ, IsTrue};
ghost use Rattle.cc_lists.specs.Members.{Among, has};
ghost use Rattle.cc_names.specs.declared.name.Name.{Name};
ghost use Rattle.cc_names.specs.Names.{native, same_name};
ghost use Rattle.cc_model.specs.Graph.{Graph};
ghost use Rattle.cc_model.specs.WellMade.{IsWellMade};
ghost use Rattle.cc_model.specs.Reached.{Reached};
ghost use Rattle.cc_model.specs.Heap.{Heap};
ghost use Rattle.cc_model.specs.View.{View, view, is_there, ReachedIn};
ghost use Rattle.cc_model.specs.WellFormed.{native_names};
ghost use Rattle.cc_model.specs.StandsFor.{StandsFor};
ghost use Rattle.cc_model.specs.Snapshot.{Snapshot, BlackIn, black_in, IsWhite, white_natives};
ghost use Rattle.cc_model.specs.Fresh.{IsNode, IsFresh, IsTraversed};
ghost use Rattle.cc_laws_heap.specs.Sound.{IsSound};
ghost use Rattle.cc_laws_heap.specs.Apart.{AreApart};
ghost use Rattle.cc_laws_snapshot.specs.Black.{IsBlackByRules};

/// White is unreached: where a snapshot is fresh and no node is left to traverse, no native that is white in it
/// is reached from a register, over the heaps as they are now; nor in the graph that the heaps stand for. White is apart, too:
/// the other natives of the heaps do not lead there either, whether something reaches them or not.
pub fn white_is_unreached()
    ensures white { (h : Heap) (s : Snapshot) (k : ℕ) → IsSound [] h → IsFresh h.natives_made (view h) s → IsTraversed s →
        IsWhite (view h) s (native k) → ¬ (ReachedIn (view h) (native k)) }
    ensures taken_away { (h : Heap) (s : Snapshot) (k : ℕ) → IsSound [] h → IsFresh h.natives_made (view h) s → IsTraversed s →
        Among k (white_natives h s) → ¬ (ReachedIn (view h) (native k)) }
    ensures apart { (h : Heap) (s : Snapshot) → IsSound [] h → IsFresh h.natives_made (view h) s → IsTraversed s → AreApart h (white_natives h s) }
    ensures in_graph { (h : Heap) (g : Graph) (s : Snapshot) (k : ℕ) → IsSound [] h → IsWellMade g → StandsFor h g →
        IsFresh h.natives_made (view h) s → IsTraversed s → Among k (white_natives h s) → ¬ (Reached g (native k)) }
{}

/// What is black in a snapshot is the least set of its rules, and the list of black names decides it. A node is white
/// where its object is in the heaps and it is not in that set; of natives, the list of the white ones has just these.
pub fn black_is_least()
    ensures set { (v : View) (s : Snapshot) (x : Name) → BlackIn v s x ↔ IsBlackByRules v s x }
    ensures list { (v : View) (s : Snapshot) (x : Name) → IsTrue (has same_name (black_in v s) x) ↔ IsBlackByRules v s x }
    ensures white { (v : View) (s : Snapshot) (x : Name) →
        IsWhite v s x ↔ (IsNode s x × IsTrue (is_there v x) × (¬ (IsBlackByRules v s x))) }
    ensures white_natives { (h : Heap) (s : Snapshot) (k : ℕ) →
        Among k (white_natives h s) ↔ (IsNode s (native k) × Among (native k) (native_names h) × (¬ (IsBlackByRules (view h) s (native k)))) }
{}
