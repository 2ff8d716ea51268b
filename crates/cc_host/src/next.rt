//! What was unlinked, through calls, until the next `gc` frees it; and what is lost, until a collection takes it.
ghost use Rattle.std.specs.Prelude.{◌≡◌, List, Option};
ghost use Rattle.cc_lists.specs.Members.{Among};
ghost use Rattle.cc_names.specs.Allowance.{Allowance};
ghost use Rattle.cc_names.specs.declared.name.Name.{Name};
ghost use Rattle.cc_model.specs.Graph.{Graph};
ghost use Rattle.cc_model.specs.Heap.{Heap, empty_heap};
ghost use Rattle.cc_model.specs.Telling.{Telling};
ghost use Rattle.cc_host.specs.Calls.{Always, Brings, Collects, Does, Tries};
ghost use Rattle.cc_host.specs.Hosted.{Hosted};
ghost use Rattle.cc_host.specs.Missing.{IsNoneOf, IsUsedWell, LeavesUnlinked, WillTake};
ghost use Rattle.cc_host.specs.Next.{LeadsToUnlinked, UnlinkedIsOutOfReach};

/// A law: a host that is used well stays so over calls that are handed what is reached, and over collections; a new host is used
/// well. What a collection tells unlinked has ended (`ends` of `Collects`); and what leads to it is out of reach, while a host is used
/// well. That stays so over such calls and over collections (`does_so` and the next three), until the next `gc` frees it all,
/// whatever such calls come between (`frees` of `gc`). A weak reference may bring back what was not unlinked.
pub fn what_was_unlinked_goes_at_the_next_gc()
    ensures starts { (limits : Allowance) (h : Hosted) → h.heaps.heap ≡ empty_heap limits → IsUsedWell h }
    ensures does { (change : Graph → Graph) (old new : Hosted) → Does Always change old new → IsUsedWell old → IsUsedWell new }
    ensures brings { (x : Option Name) (change : Graph → Graph) (old new : Hosted) → Brings x change old new → IsUsedWell old → IsUsedWell new }
    ensures tries { (old new : Hosted) → Tries Always old new → IsUsedWell old → IsUsedWell new }
    ensures collects { (old new : Hosted) (before after : Telling) → Collects old new before after → IsUsedWell old → IsUsedWell new }
    ensures leads { (h : Heap) (o : UnlinkedIsOutOfReach h) (x : Name) → LeadsToUnlinked h x → Among x o.names }
    ensures does_so { (change : Graph → Graph) (old new : Hosted) → Does Always change old new → LeavesUnlinked old.heaps.heap new.heaps.heap }
    ensures brings_so { (x : Option Name) (change : Graph → Graph) (old new : Hosted) → Brings x change old new → LeavesUnlinked old.heaps.heap new.heaps.heap }
    ensures tries_so { (old new : Hosted) → Tries Always old new → LeavesUnlinked old.heaps.heap new.heaps.heap }
    ensures collects_so { (old new : Hosted) (before after : Telling) → Collects old new before after → LeavesUnlinked old.heaps.heap new.heaps.heap }
{}

/// A law: what a collection would take that begins later it will take after a call too, where that is handed what is reached. So what
/// nothing reached after a `gc` is told unlinked by the next collection, whenever that begins (`lost` of `gc`, `later` of `slice` and
/// of `collect`). A native that a weak reference brings back may be one of them: then the law holds of lists that have neither it
/// nor what leads to it (`brings`).
pub fn what_was_lost_is_taken_later()
    ensures does { (change : Graph → Graph) (old new : Hosted) (ds : List Name) → Does Always change old new → WillTake old ds → WillTake new ds }
    ensures brings { (x : Option Name) (change : Graph → Graph) (old new : Hosted) (ds : List Name) → Brings x change old new → IsNoneOf ds x
        → WillTake old ds → WillTake new ds }
    ensures tries { (old new : Hosted) (ds : List Name) → Tries Always old new → WillTake old ds → WillTake new ds }
{}
