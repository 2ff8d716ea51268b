//! Laws of what the end of a marking forgets: nothing.
ghost use Rattle.std.specs.Prelude.{[]};
ghost use Rattle.cc_model.specs.Heap.{Heap};
ghost use Rattle.cc_model.specs.View.{view};
ghost use Rattle.cc_model.specs.Suspected.{IsSuspected};
ghost use Rattle.cc_model.specs.Marking.{NewMarks, ended_marks};
ghost use Rattle.cc_laws_heap.specs.Sound.{IsSound};
ghost use Rattle.cc_laws_heap.specs.UnderMarking.{IsUnderMarking};

/// The end of a marking forgets nothing: where no collection runs, each native that registers do not reach is still covered after
/// it, by a purple native or by a script object that they do not reach.
pub fn markings_keep_suspected()
    ensures { (h : Heap) (m : NewMarks) → IsSound [] h → IsUnderMarking h m → IsSuspected (view h) [] →
        IsSuspected (view (ended_marks h m).heap) [] }
{}
