//! Laws of what a marking frees: what was white when it began, but for what commands answered again.
ghost use Rattle.std.specs.Prelude.{◌≡◌, ◌↔◌, IsTrue, List, [], None};
ghost use Rattle.cc_lists.specs.Members.{Among};
ghost use Rattle.cc_names.specs.declared.name.Name.{Name};
ghost use Rattle.cc_model.specs.declared.item.Event.TheVariants.{Freed};
ghost use Rattle.cc_model.specs.declared.command.Command.{Command};
ghost use Rattle.cc_model.specs.Ranges.{in_range};
ghost use Rattle.cc_model.specs.Checks.{refusal_of};
ghost use Rattle.cc_model.specs.Deeds.{deed_of};
ghost use Rattle.cc_model.specs.Graph.{Graph};
ghost use Rattle.cc_model.specs.Heap.{Heap, objects_of};
ghost use Rattle.cc_model.specs.Effects.{effects};
ghost use Rattle.cc_model.specs.WellFormed.{script_names};
ghost use Rattle.cc_model.specs.Colours.{IsMarked};
ghost use Rattle.cc_model.specs.Marking.{NewMarks, without_all, begun_marks, scanned, marking_after, ended_marks};
ghost use Rattle.cc_model.specs.StandsFor.{StandsFor};
ghost use Rattle.cc_laws_heap.specs.Sound.{IsSound};
ghost use Rattle.cc_laws_heap.specs.UnderMarking.{IsUnderMarking, IsScannedSoFar};
ghost use Rattle.cc_laws_marking.specs.Unmarkable.{IsUnmarkable, not_marked, wrapped_by, LeadsNowhere};

/// What the least sets do not mark when a marking begins can't be marked by it, and each scan leaves that so. At the end, whether
/// something is left to scan or not, all that can't be marked is told as freed.
pub fn markings_free_what_was_not_marked()
    ensures not_marked { (h : Heap) (x : Name) → Among x (not_marked h) ↔ (Among x (script_names h) × (¬ (IsMarked h x))) }
    ensures begun { (h : Heap) → IsSound [] h → IsUnmarkable h (begun_marks h) (not_marked h) }
    ensures scanned { (h : Heap) (m : NewMarks) (them : List Name) → IsSound [] h → IsUnderMarking h m → IsScannedSoFar h m → IsUnmarkable h m them →
        IsUnmarkable h (scanned h m) them }
    ensures freed { (h : Heap) (m : NewMarks) (them : List Name) (x : Name) → IsSound [] h → IsUnderMarking h m → IsUnmarkable h m them →
        Among x them → Among (Freed x) (ended_marks h m).events }
{}

/// Each command that is not refused leaves what can't be marked so, as long as it wraps no native whose reflector is among it; it
/// takes no script object away. Where it wraps one whose reflector leads nowhere, the others still can't be marked; and so it is with
/// each that can't be marked, where the heaps stand for a graph: a native that is wrapped does not preserve it, so it is blank there.
pub fn commands_keep_unmarkable()
    ensures command { (h : Heap) (m : NewMarks) (them : List Name) (c : Command) → IsSound [] h → IsUnderMarking h m → IsUnmarkable h m them →
        IsTrue (in_range c) → refusal_of (objects_of h) c ≡ None →
        ((x : Name) → Among x (wrapped_by (deed_of (objects_of h) c)) → ¬ (Among x them)) →
        IsUnmarkable (effects h c).heap (marking_after h (deed_of (objects_of h) c) m) them }
    ensures wrapped { (h : Heap) (m : NewMarks) (them : List Name) (c : Command) → IsSound [] h → IsUnderMarking h m → IsUnmarkable h m them →
        IsTrue (in_range c) → refusal_of (objects_of h) c ≡ None →
        ((x : Name) → Among x (wrapped_by (deed_of (objects_of h) c)) → LeadsNowhere h x) →
        IsUnmarkable (effects h c).heap (marking_after h (deed_of (objects_of h) c) m) (without_all (wrapped_by (deed_of (objects_of h) c)) them) }
    ensures stands { (h : Heap) (g : Graph) (m : NewMarks) (them : List Name) (c : Command) → IsSound [] h → StandsFor h g → IsUnderMarking h m →
        IsUnmarkable h m them → IsTrue (in_range c) → refusal_of (objects_of h) c ≡ None →
        IsUnmarkable (effects h c).heap (marking_after h (deed_of (objects_of h) c) m) (without_all (wrapped_by (deed_of (objects_of h) c)) them) }
    ensures there { (h : Heap) (c : Command) (x : Name) → IsSound [] h → IsTrue (in_range c) → refusal_of (objects_of h) c ≡ None →
        Among x (script_names h) → Among x (script_names (effects h c).heap) }
{}
