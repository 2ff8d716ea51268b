//! What the running collection can't miss, through calls.
ghost use Rattle.std.specs.Prelude.{List, Option};
ghost use Rattle.cc_names.specs.declared.name.Name.{Name};
ghost use Rattle.cc_model.specs.Graph.{Graph};
ghost use Rattle.cc_host.specs.Calls.{Always, Brings, Does, Tries};
ghost use Rattle.cc_host.specs.Hosted.{Hosted};
ghost use Rattle.cc_host.specs.Missing.{CannotMiss, IsNoneOf};

/// A law: what the running collection can't miss it can't miss after a call either, whatever the call makes of the graph, where
/// what was handed in is reached. So between a `gc`, the slice that begins a collection and the slice that ends it, a program
/// may call what it likes: each native that nothing reached when it began is told unlinked (`garbage` of `gc`, `begins` and
/// `takes` of `slice`), unless the collection is abandoned, which is told. A native that a weak reference brings back may be one
/// of them: then the law holds of lists that have neither it nor what leads to it (`brings`).
pub fn calls_make_it_miss_nothing()
    ensures does { (change : Graph → Graph) (old new : Hosted) (ds : List Name) → Does Always change old new → CannotMiss old ds → CannotMiss new ds }
    ensures brings { (x : Option Name) (change : Graph → Graph) (old new : Hosted) (ds : List Name) → Brings x change old new → IsNoneOf ds x
        → CannotMiss old ds → CannotMiss new ds }
    ensures tries { (old new : Hosted) (ds : List Name) → Tries Always old new → CannotMiss old ds → CannotMiss new ds }
{}
