//! Laws of a marking from its begin to its end, whatever comes between.
ghost use Rattle.std.specs.Prelude.{ℕ, ◌⊎◌, List, [], Option};
ghost use Rattle.cc_lists.specs.Members.{Among};
ghost use Rattle.cc_names.specs.declared.name.Name.{Name};
ghost use Rattle.cc_model.specs.declared.item.Event.TheVariants.{Freed};
ghost use Rattle.cc_model.specs.Graph.{Graph};
ghost use Rattle.cc_model.specs.WellMade.{IsWellMade};
ghost use Rattle.cc_model.specs.Reached.{Reached};
ghost use Rattle.cc_model.specs.Heap.{Heap};
ghost use Rattle.cc_model.specs.Effects.{hold_native};
ghost use Rattle.cc_model.specs.Skipping.{forgotten};
ghost use Rattle.cc_model.specs.WellFormed.{script_names};
ghost use Rattle.cc_model.specs.Colours.{IsMarked};
ghost use Rattle.cc_model.specs.Marking.{NewMarks, ended_marks};
ghost use Rattle.cc_model.specs.StandsFor.{StandsFor};
ghost use Rattle.cc_laws_heap.specs.Sound.{IsSound};
ghost use Rattle.cc_laws_heap.specs.UnderMarking.{IsUnderMarking, IsScannedSoFar};
ghost use Rattle.cc_laws_marking.specs.Lists.{HasListsInOrder};
ghost use Rattle.cc_laws_marking.specs.Between.{KeepsMarkings, GoesOn};

/// Two commands that do no deed leave a marking as it is, with its marks: one that reads a weak register, and one that forgets
/// suspects.
pub fn other_commands_keep_marking()
    ensures weak_read { (h : Heap) (d : ℕ) (x : Option Name) → KeepsMarkings h (hold_native h d x).heap }
    ensures forgotten { (h : Heap) → KeepsMarkings h (forgotten h) }
{}

/// What was white when a marking began is freed at its end, but for what was answered again meanwhile where a native was wrapped. What
/// is reached at the end is not freed. Meanwhile the heaps stay sound, standing for the graph and under marking, and the lists in order.
pub fn markings_free_what_was_white()
    ensures freed { (h k : Heap) (g f : Graph) (m : NewMarks) (answered : List Name) (x : Name) → IsSound [] h → IsWellMade g → StandsFor h g →
        GoesOn h g answered k f m → Among x (script_names h) → ¬ (IsMarked h x) → Among (Freed x) (ended_marks k m).events ⊎ Among x answered }
    ensures spared { (h k : Heap) (g f : Graph) (m : NewMarks) (answered : List Name) (x : Name) → IsSound [] h → IsWellMade g → StandsFor h g →
        GoesOn h g answered k f m → Reached f x → ¬ (Among (Freed x) (ended_marks k m).events) }
    ensures sound { (h k : Heap) (g f : Graph) (m : NewMarks) (answered : List Name) → IsSound [] h → IsWellMade g → StandsFor h g →
        GoesOn h g answered k f m → IsSound [] k }
    ensures stands { (h k : Heap) (g f : Graph) (m : NewMarks) (answered : List Name) → IsSound [] h → IsWellMade g → StandsFor h g →
        GoesOn h g answered k f m → StandsFor k f }
    ensures under { (h k : Heap) (g f : Graph) (m : NewMarks) (answered : List Name) → IsSound [] h → IsWellMade g → StandsFor h g →
        GoesOn h g answered k f m → IsUnderMarking k m × IsScannedSoFar k m }
    ensures lists { (h k : Heap) (g f : Graph) (m : NewMarks) (answered : List Name) → IsSound [] h → IsWellMade g → StandsFor h g →
        GoesOn h g answered k f m → HasListsInOrder k m }
{}
