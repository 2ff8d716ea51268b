//! Laws of the end of a collection that takes the white natives away.
ghost use Rattle.std.specs.Prelude.{◌≡◌, ◌⊎◌, ℕ, true, List, []};
ghost use Rattle.cc_lists.specs.Members.{Among};
ghost use Rattle.cc_names.specs.declared.name.Name.{Name};
ghost use Rattle.cc_names.specs.Names.{native};
ghost use Rattle.cc_model.specs.declared.item.Event.TheVariants.{Freed, Unlinked};
ghost use Rattle.cc_model.specs.Graph.{Graph};
ghost use Rattle.cc_model.specs.WellMade.{IsWellMade};
ghost use Rattle.cc_model.specs.Reached.{Reached};
ghost use Rattle.cc_model.specs.Given.{Given};
ghost use Rattle.cc_model.specs.Heap.{Heap, HeapNative};
ghost use Rattle.cc_model.specs.View.{view};
ghost use Rattle.cc_model.specs.WellFormed.{names_there};
ghost use Rattle.cc_model.specs.Colours.{HasColourInvariant};
ghost use Rattle.cc_model.specs.End.{take_away};
ghost use Rattle.cc_model.specs.StandsFor.{StandsFor, shape_at};
ghost use Rattle.cc_model.specs.Snapshot.{Snapshot, white_natives};
ghost use Rattle.cc_model.specs.Fresh.{IsFresh, IsTraversed};
ghost use Rattle.cc_laws_heap.specs.Sound.{IsSound};
ghost use Rattle.cc_laws_heap.specs.Ending.{TakesAway};

/// The end of a collection over the natives that are white in a fresh snapshot: each of them is unlinked once, by
/// rising number, before any of them is freed; the heaps stay sound.
pub fn ends_take_white()
    ensures sound { (h : Heap) (s : Snapshot) → IsSound [] h → IsFresh h.natives_made (view h) s → IsTraversed s →
        IsSound [] (take_away (white_natives h s) h).heap }
    ensures colours { (h : Heap) (s : Snapshot) → IsSound [] h → IsFresh h.natives_made (view h) s → IsTraversed s →
        HasColourInvariant (view (take_away (white_natives h s) h).heap) }
    ensures takes { (h : Heap) (s : Snapshot) → IsSound [] h → IsFresh h.natives_made (view h) s → IsTraversed s →
        (freed : List ℕ) × TakesAway h (white_natives h s) freed (take_away (white_natives h s) h) }
{}

/// What a register reaches stays in the heaps, with its slots and its flag; only what none reaches is told. What is told is given no
/// more: neither the registers nor a native that was not unlinked leads to it, so no weak reference brings it back. The same holds of
/// each native that was unlinked before and is still in the heaps.
pub fn ends_keep_reached()
    ensures stands { (h : Heap) (g : Graph) (s : Snapshot) → IsSound [] h → IsWellMade g → StandsFor h g →
        IsFresh h.natives_made (view h) s → IsTraversed s → StandsFor (take_away (white_natives h s) h).heap g }
    ensures kept { (h : Heap) (g : Graph) (s : Snapshot) (x : Name) → IsSound [] h → IsWellMade g → StandsFor h g →
        IsFresh h.natives_made (view h) s → IsTraversed s → Reached g x →
        Among x (names_there (take_away (white_natives h s) h).heap) × (shape_at (take_away (white_natives h s) h).heap x ≡ shape_at h x) }
    ensures unreached { (h : Heap) (g : Graph) (s : Snapshot) (x : Name) → IsSound [] h → IsWellMade g → StandsFor h g →
        IsFresh h.natives_made (view h) s → IsTraversed s →
        Among (Freed x) (take_away (white_natives h s) h).events ⊎ Among (Unlinked x) (take_away (white_natives h s) h).events →
        ¬ (Reached g x) }
    ensures ended { (h : Heap) (g : Graph) (s : Snapshot) (x : Name) → IsSound [] h → IsWellMade g → StandsFor h g →
        IsFresh h.natives_made (view h) s → IsTraversed s →
        Among (Freed x) (take_away (white_natives h s) h).events ⊎ Among (Unlinked x) (take_away (white_natives h s) h).events →
        ¬ (Given (take_away (white_natives h s) h).heap g x) }
    ensures spent { (h : Heap) (g : Graph) (s : Snapshot) (n : HeapNative) → IsSound [] h → IsWellMade g → StandsFor h g →
        IsFresh h.natives_made (view h) s → IsTraversed s →
        Among n (take_away (white_natives h s) h).heap.natives → n.unlinked ≡ true → ¬ (Given (take_away (white_natives h s) h).heap g (native n.number)) }
{}
