//! Laws of the lists of a marking: the order in which they stand, and that each name waits once.
ghost use Rattle.std.specs.Prelude.{◌≡◌, ◌+◌, ◌≤◌, IsTrue, [], None, length};
ghost use Rattle.cc_model.specs.declared.command.Command.{Command};
ghost use Rattle.cc_model.specs.Ranges.{in_range};
ghost use Rattle.cc_model.specs.Checks.{refusal_of};
ghost use Rattle.cc_model.specs.Deeds.{deed_of};
ghost use Rattle.cc_model.specs.Heap.{Heap, objects_of};
ghost use Rattle.cc_model.specs.Effects.{effects};
ghost use Rattle.cc_model.specs.Marking.{NewMarks, begun_marks, scanned, marking_after, scans_left};
ghost use Rattle.cc_laws_heap.specs.Sound.{IsSound};
ghost use Rattle.cc_laws_heap.specs.UnderMarking.{IsUnderMarking, IsScannedSoFar};
ghost use Rattle.cc_laws_marking.specs.Lists.{HasListsInOrder};

/// From its begin on a marking has what is not marked, and what is not black, in order of making, and each object waits at most
/// once on a list of those to scan: a scan keeps that, and so does each command that is not refused.
pub fn markings_keep_order()
    ensures begun { (h : Heap) → HasListsInOrder h (begun_marks h) }
    ensures scanned { (h : Heap) (m : NewMarks) → IsScannedSoFar h m → HasListsInOrder h m → HasListsInOrder h (scanned h m) }
    ensures command { (h : Heap) (m : NewMarks) (c : Command) → IsSound [] h → IsUnderMarking h m → HasListsInOrder h m → IsTrue (in_range c) →
        refusal_of (objects_of h) c ≡ None → HasListsInOrder (effects h c).heap (marking_after h (deed_of (objects_of h) c) m) }
{}

/// The black ones that wait and what is not black are no more than the script objects together, and the gray ones that wait and what is
/// not marked are no more than what is not black. So at most two scans an object are left.
pub fn markings_scan_few()
    ensures black { (h : Heap) (m : NewMarks) → IsSound [] h → IsUnderMarking h m → IsScannedSoFar h m → HasListsInOrder h m →
        length m.black_list + length m.unblack ≤ length h.scripts }
    ensures gray { (h : Heap) (m : NewMarks) → IsSound [] h → IsUnderMarking h m → IsScannedSoFar h m → HasListsInOrder h m →
        length m.gray_list + length m.unmarked ≤ length m.unblack }
    ensures scans { (h : Heap) (m : NewMarks) → IsSound [] h → IsUnderMarking h m → IsScannedSoFar h m → HasListsInOrder h m →
        scans_left m ≤ length h.scripts + length h.scripts }
{}
