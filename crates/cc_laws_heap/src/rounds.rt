//! Laws of script collections: colours are least sets, and what the rounds leave and tell.
ghost use Rattle.std.specs.Prelude.{◌≡◌, ◌↔◌, ◌≤◌, ℕ, List, [], map, count_by};
ghost use Rattle.cc_lists.specs.Members.{Among};
ghost use Rattle.cc_names.specs.declared.name.Name.{Name};
ghost use Rattle.cc_names.specs.declared.kind.Colour.TheVariants.{Black, Gray};
ghost use Rattle.cc_names.specs.Names.{same_name};
ghost use Rattle.cc_model.specs.declared.item.Event.TheVariants.{Freed};
ghost use Rattle.cc_model.specs.Graph.{Graph};
ghost use Rattle.cc_model.specs.WellMade.{IsWellMade};
ghost use Rattle.cc_model.specs.Reached.{Reached};
ghost use Rattle.cc_model.specs.Heap.{Heap, HeapScript};
ghost use Rattle.cc_model.specs.View.{view};
ghost use Rattle.cc_model.specs.WellFormed.{IsWellFormed};
ghost use Rattle.cc_model.specs.Colours.{HasColours, HasColourInvariant, IsBlack, IsGray, marked};
ghost use Rattle.cc_model.specs.Sweep.{collect_scripts, sweep, unmarked};
ghost use Rattle.cc_model.specs.StandsFor.{StandsFor};
ghost use Rattle.cc_laws_heap.specs.Sound.{IsSound};
ghost use Rattle.cc_laws_heap.specs.Marks.{AreMarksClosed, IsBlackClosed};
ghost use Rattle.cc_laws_heap.specs.Rounds.{FreesNames};

/// Marking gives each script object the colour of its least set.
pub fn marking_is_least()
    ensures colours { (h : Heap) → HasColours (marked h) }
    ensures black { (h : Heap) (o : HeapScript) → Among o (marked h).scripts → (o.colour ≡ Black) ↔ IsBlack h o.name }
    ensures gray { (h : Heap) (o : HeapScript) → Among o (marked h).scripts → (o.colour ≡ Gray) ↔ IsGray h o.name }
{}

/// A script collection leaves the heaps sound, no script object white, and the colours those of the heap that is
/// left; its free lines name distinct objects that were there, and take out these and no others. Its last round finds
/// nothing to sweep.
pub fn rounds_keep_counts()
    ensures sound { (h : Heap) → IsSound [] h → IsSound [] (collect_scripts h).heap }
    ensures colours { (h : Heap) → HasColours (collect_scripts h).heap }
    ensures last { (h : Heap) → (g : Heap) × ((collect_scripts h).heap ≡ marked g) × (unmarked (marked g) ≡ []) }
    ensures invariant { (h : Heap) → IsSound [] h → HasColourInvariant (view (collect_scripts h).heap) }
    ensures frees { (h : Heap) → IsSound [] h → (xs : List Name) × FreesNames h xs (collect_scripts h) }
{}

/// A sweep needs no more of the colours than that the marks are closed, as those of marking are. Then it leaves the heaps
/// sound and standing for the same graph, and frees nothing that a register reaches. If black is closed too, as it is by
/// marking, no script object is white afterwards and the colour invariant holds. What a sweep tells is what it takes out,
/// whatever the colours.
pub fn sweeps_stand()
    ensures closed { (h : Heap) → HasColours h → IsWellFormed h → AreMarksClosed h × IsBlackClosed h }
    ensures sound { (owned : List ℕ) (h : Heap) → AreMarksClosed h → IsSound owned h → IsSound owned (sweep h).heap }
    ensures invariant { (h : Heap) → AreMarksClosed h → IsBlackClosed h → IsSound [] h → HasColourInvariant (view (sweep h).heap) }
    ensures frees { (h : Heap) → IsSound [] h → (xs : List Name) × FreesNames h xs (sweep h) }
    ensures stands { (h : Heap) (g : Graph) → AreMarksClosed h → IsSound [] h → IsWellMade g → StandsFor h g → StandsFor (sweep h).heap g }
    ensures freed { (h : Heap) (g : Graph) (x : Name) → AreMarksClosed h → IsSound [] h → IsWellMade g → StandsFor h g →
        Among (Freed x) (sweep h).events → ¬ (Reached g x) }
{}

/// The heaps go on standing for the same graph, and nothing that a register reaches is freed.
pub fn rounds_stand()
    ensures stands { (h : Heap) (g : Graph) → IsSound [] h → IsWellMade g → StandsFor h g → StandsFor (collect_scripts h).heap g }
    ensures freed { (h : Heap) (g : Graph) (x : Name) → IsSound [] h → IsWellMade g → StandsFor h g →
        Among (Freed x) (collect_scripts h).events → ¬ (Reached g x) }
{}
