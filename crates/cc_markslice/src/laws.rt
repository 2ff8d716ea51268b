//! What a marking that goes on keeps to, as laws.
ghost use Rattle.std.specs.Prelude.{◌≡◌, IsTrue, [], None, Some, option_map};
ghost use Rattle.cc_model.specs.declared.command.Command.{Command};
ghost use Rattle.cc_model.specs.Ranges.{in_range};
ghost use Rattle.cc_model.specs.Checks.{refusal_of};
ghost use Rattle.cc_model.specs.Heap.{objects_of};
ghost use Rattle.cc_model.specs.Marking.{begun_marks, scanned};
ghost use Rattle.cc_laws_heap.specs.Sound.{IsSound};
ghost use Rattle.cc_laws_marking.specs.Between.{KeepsMarkings};
ghost use Rattle.cc_heaps.specs.Keyed.{Keyed};
ghost use Rattle.cc_heaps.specs.NewMarks.{AreListed, marks_of};
ghost use Rattle.cc_markslice.specs.Going.{IsDoneUnderMarking, IsMarkingWell};

/// A marking goes on as it should once it began over sound heaps, and a scan keeps it so. Each command that is not refused
/// keeps it so too, where the new marks are those after what it exposes. So does what changes no mark, where it is one of the
/// changes that leave every marking as it is: a native register takes what a weak one gives, or suspects are forgotten.
pub fn markings_stay_well()
    ensures begun { (old new : Keyed) → IsSound [] old.heap → new.heap ≡ old.heap → marks_of new ≡ Some (begun_marks old.heap) → AreListed new →
        IsMarkingWell new }
    ensures scanned { (old new : Keyed) → IsSound [] old.heap → IsMarkingWell old → new.heap ≡ old.heap →
        marks_of new ≡ option_map (scanned old.heap) (marks_of old) → AreListed new → IsMarkingWell new }
    ensures command { (old new : Keyed) (c : Command) → IsSound [] old.heap → IsMarkingWell old → IsTrue (in_range c) →
        refusal_of (objects_of old.heap) c ≡ None → IsDoneUnderMarking c old new → IsMarkingWell new }
    ensures beside { (old new : Keyed) → IsMarkingWell old → KeepsMarkings old.heap new.heap → marks_of new ≡ marks_of old → AreListed new →
        IsMarkingWell new }
{}
