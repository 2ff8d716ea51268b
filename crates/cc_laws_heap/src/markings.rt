//! Laws of a script marking in slices: what its new marks keep to from its begin to its end, and what an end sweeps.
ghost use Rattle.std.specs.Prelude.{◌≡◌, ◌<◌, false, List, [], None, IsTrue};
ghost use Rattle.cc_lists.specs.Members.{Among};
ghost use Rattle.cc_names.specs.declared.name.Name.{Name};
ghost use Rattle.cc_names.specs.Names.{is_script};
ghost use Rattle.cc_model.specs.declared.item.Event.TheVariants.{Freed};
ghost use Rattle.cc_model.specs.declared.command.Command.{Command};
ghost use Rattle.cc_model.specs.Ranges.{in_range};
ghost use Rattle.cc_model.specs.Checks.{refusal_of};
ghost use Rattle.cc_model.specs.Deeds.{deed_of};
ghost use Rattle.cc_model.specs.Slots.{contents};
ghost use Rattle.cc_model.specs.Graph.{Graph};
ghost use Rattle.cc_model.specs.WellMade.{IsWellMade};
ghost use Rattle.cc_model.specs.Reached.{Reached};
ghost use Rattle.cc_model.specs.Heap.{Heap, HeapNative, objects_of};
ghost use Rattle.cc_model.specs.View.{view};
ghost use Rattle.cc_model.specs.Places.{places_of_native};
ghost use Rattle.cc_model.specs.Effects.{effects};
ghost use Rattle.cc_model.specs.Marking.{NewMarks, begun_marks, scanned, is_scanned, marking_after, blacks_by_mark, marks_by_mark, ended_marks, scans_left};
ghost use Rattle.cc_model.specs.Colours.{HasColourInvariant, IsMarked, coloured_by};
ghost use Rattle.cc_model.specs.StandsFor.{StandsFor};
ghost use Rattle.cc_laws_heap.specs.Sound.{IsSound};
ghost use Rattle.cc_laws_heap.specs.Marks.{AreMarksClosed, IsBlackClosed};
ghost use Rattle.cc_laws_heap.specs.Rounds.{FreesNames};
ghost use Rattle.cc_laws_heap.specs.UnderMarking.{IsUnderMarking, IsScannedSoFar};

/// A marking that was just begun over sound heaps is under way as it should be: script registers hold what is black by the
/// new marks, and natives what is marked by them. Each command that is not refused keeps it so, with the marks after what it
/// exposes.
pub fn commands_keep_marking()
    ensures begun { (h : Heap) → IsSound [] h → IsUnderMarking h (begun_marks h) }
    ensures command { (h : Heap) (m : NewMarks) (c : Command) → IsSound [] h → IsUnderMarking h m → IsTrue (in_range c) →
        refusal_of (objects_of h) c ≡ None → IsUnderMarking (effects h c).heap (marking_after h (deed_of (objects_of h) c) m) }
{}

/// Each command that is not refused keeps what was scanned as it should be: it has given its mark on.
pub fn commands_keep_scanned()
    ensures begun { (h : Heap) → IsSound [] h → IsScannedSoFar h (begun_marks h) }
    ensures command { (h : Heap) (m : NewMarks) (c : Command) → IsSound [] h → IsUnderMarking h m → IsScannedSoFar h m → IsTrue (in_range c) →
        refusal_of (objects_of h) c ≡ None → IsScannedSoFar (effects h c).heap (marking_after h (deed_of (objects_of h) c) m) }
{}

/// A scan keeps a marking under way as it should be, and where something is left to scan, less is left after it: so many
/// scans are enough. A scan gives the mark of its object on, and keeps what was scanned before.
pub fn scans_keep_marking()
    ensures scanned { (h : Heap) (m : NewMarks) → IsUnderMarking h m → IsUnderMarking h (scanned h m) }
    ensures given_on { (h : Heap) (m : NewMarks) → IsSound [] h → IsUnderMarking h m → IsScannedSoFar h m → IsScannedSoFar h (scanned h m) }
    ensures less { (h : Heap) (m : NewMarks) → is_scanned m ≡ false → scans_left (scanned h m) < scans_left m }
{}

/// The colours that the end of a marking gives are closed, and so is black. So its sweep leaves the heaps sound and standing
/// for the same graph, with the colour invariant, and frees nothing that a register reaches.
pub fn markings_end_well()
    ensures closed { (h : Heap) (m : NewMarks) → IsSound [] h → IsUnderMarking h m →
        AreMarksClosed (coloured_by (blacks_by_mark h m) (marks_by_mark h m) h) × IsBlackClosed (coloured_by (blacks_by_mark h m) (marks_by_mark h m) h) }
    ensures sound { (h : Heap) (m : NewMarks) → IsSound [] h → IsUnderMarking h m → IsSound [] (ended_marks h m).heap }
    ensures invariant { (h : Heap) (m : NewMarks) → IsSound [] h → IsUnderMarking h m → HasColourInvariant (view (ended_marks h m).heap) }
    ensures frees { (h : Heap) (m : NewMarks) → IsSound [] h → IsUnderMarking h m → (xs : List Name) × FreesNames h xs (ended_marks h m) }
    ensures stands { (h : Heap) (m : NewMarks) (g : Graph) → IsSound [] h → IsUnderMarking h m → IsWellMade g → StandsFor h g →
        StandsFor (ended_marks h m).heap g }
    ensures freed { (h : Heap) (m : NewMarks) (g : Graph) (x : Name) → IsSound [] h → IsUnderMarking h m → IsWellMade g → StandsFor h g →
        Among (Freed x) (ended_marks h m).events → ¬ (Reached g x) }
{}

/// A script object that the end of a marking sweeps is not marked by the least sets of the heaps: neither script registers
/// nor natives lead to it. So it stands in no slot of a native, and is no preserved reflector.
pub fn markings_spare_what_is_held()
    ensures marked { (h : Heap) (m : NewMarks) (x : Name) → IsSound [] h → IsUnderMarking h m → IsTrue (is_script x) →
        Among (Freed x) (ended_marks h m).events → ¬ (IsMarked h x) }
    ensures held { (h : Heap) (m : NewMarks) (n : HeapNative) (x : Name) → IsSound [] h → IsUnderMarking h m → Among n h.natives → IsTrue (is_script x) →
        Among x (contents (places_of_native n)) → ¬ (Among (Freed x) (ended_marks h m).events) }
{}
