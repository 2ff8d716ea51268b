//! After `gc`, `collect`, `gc` exactly what is reached is there.

ghost use Rattle.std.specs.Prelude.{◌≡◌, ◌↔◌, ℕ, List, []};
ghost use Rattle.cc_lists.specs.Members.{Among};
ghost use Rattle.cc_names.specs.declared.name.Name.{Name};
ghost use Rattle.cc_names.specs.Names.{native};
ghost use Rattle.cc_model.specs.Heap.{Heap};
ghost use Rattle.cc_model.specs.View.{view, ReachedIn};
ghost use Rattle.cc_model.specs.WellFormed.{names_there};
ghost use Rattle.cc_model.specs.Colours.{HasColourInvariant};
ghost use Rattle.cc_model.specs.Snapshot.{Snapshot, white_natives};
ghost use Rattle.cc_model.specs.Units.{begun, with_empty_buffer, first_untraversed, to_note, after_node};
ghost use Rattle.cc_model.specs.Sweep.{collect_scripts};
ghost use Rattle.cc_model.specs.End.{refused};
ghost use Rattle.cc_model.specs.Fresh.{IsFresh, IsTraversed};
ghost use Rattle.cc_model.specs.Suspected.{IsSuspected};
ghost use Rattle.cc_model.specs.Collecting.{Machine, collect, gc};
ghost use Rattle.cc_laws_heap.specs.Sound.{IsSound};
ghost use Rattle.cc_laws_run.specs.Running.{IsFreshNow};
ghost use Rattle.cc_laws_run.specs.Doomed.{IsDoomed, IsSuspectedNow, garbage};
ghost use Rattle.std.specs.declared.option.Option.TheVariants.{Some};

/// A collection that begins right after a script collection dooms all garbage; a node's unit keeps it doomed; and
/// where no node is left to traverse, each doomed native is white.
pub fn garbage_is_doomed()
    ensures begin { (h : Heap) → IsSound [] h → IsSuspected (view h) [] → let g = (collect_scripts h).heap in
        IsDoomed (view (with_empty_buffer g)) (begun g) (garbage g) }
    ensures node { (h : Heap) (s : Snapshot) (x : Name) (ds : List Name) → IsSound [] h → IsFresh h.natives_made (view h) s →
        IsDoomed (view h) s ds → first_untraversed s.nodes ≡ Some x → IsDoomed (view h) (after_node h s x (to_note h x)) ds }
    ensures white { (h : Heap) (s : Snapshot) (ds : List Name) (k : ℕ) → IsSound [] h → IsFresh h.natives_made (view h) s →
        IsTraversed s → IsDoomed (view h) s ds → Among (native k) ds → Among k (white_natives h s) }
{}

/// After `gc`, `collect`, `gc` in a row, the `collect` not refused, the heaps have exactly the objects that a register
/// reaches.
pub fn gc_collect_gc_is_quiet()
    ensures { (m : Machine) (x : Name) → IsSound [] m.heap → HasColourInvariant (view m.heap) → IsFreshNow m.heap m.snapshot →
        IsSuspectedNow m → ¬ ((collect (gc m).machine).progress ≡ refused) →
        Among x (names_there (gc (collect (gc m).machine).machine).machine.heap) ↔
        ReachedIn (view (gc (collect (gc m).machine).machine).machine.heap) x }
{}
