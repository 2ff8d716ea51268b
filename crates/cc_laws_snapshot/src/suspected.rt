//! Laws of suspicion: no unreached native is forgotten.
ghost use Rattle.std.specs.Prelude.{◌≡◌, ◌↔◌, ℕ, IsTrue, List, [], None};
ghost use Rattle.cc_lists.specs.Members.{Among};
ghost use Rattle.cc_names.specs.Allowance.{Allowance};
ghost use Rattle.cc_names.specs.declared.name.Name.{Name};
ghost use Rattle.cc_model.specs.declared.command.Command.{Command};
ghost use Rattle.cc_model.specs.Ranges.{in_range};
ghost use Rattle.cc_model.specs.Checks.{refusal_of};
ghost use Rattle.cc_model.specs.Heap.{Heap, empty_heap, objects_of};
ghost use Rattle.cc_model.specs.View.{view, ReachedIn};
ghost use Rattle.cc_model.specs.Effects.{effects};
ghost use Rattle.cc_model.specs.Skipping.{IsSkippable, forgotten};
ghost use Rattle.cc_model.specs.Colours.{HasColourInvariant};
ghost use Rattle.cc_model.specs.Sweep.{collect_scripts, sweep};
ghost use Rattle.cc_model.specs.Snapshot.{Snapshot, white_natives};
ghost use Rattle.cc_model.specs.Units.{candidates_of, with_empty_buffer};
ghost use Rattle.cc_model.specs.End.{give_back, take_away};
ghost use Rattle.cc_model.specs.Fresh.{IsFresh, IsTraversed};
ghost use Rattle.cc_model.specs.Suspected.{IsSuspected};
ghost use Rattle.cc_model.specs.WellFormed.{IsWellFormed};
ghost use Rattle.cc_laws_heap.specs.Sound.{IsSound};
ghost use Rattle.cc_laws_heap.specs.Marks.{AreMarksClosed};
ghost use Rattle.cc_laws_snapshot.specs.Kinds.{IsFreshIn};
ghost use Rattle.cc_laws_snapshot.specs.KindsSuspected.{IsSuspectedIn};
ghost use Rattle.cc_laws_snapshot.specs.Losing.{IsLoyal};

/// Each command that is not refused keeps every unreached native suspected, for each list of candidates.
pub fn commands_keep_suspected()
    ensures start { (limits : Allowance) → IsSuspected (view (empty_heap limits)) [] }
    ensures command { (h : Heap) (c : Command) (candidates : List ℕ) → IsSound [] h → IsTrue (in_range c) →
        refusal_of (objects_of h) c ≡ None → IsSuspected (view h) candidates → IsSuspected (view (effects h c).heap) candidates }
{}

/// Suspects that can be skipped are forgotten, and no unreached native is: what can be skipped is reached. A native in the
/// buffer loses its mark exactly where it can be skipped, and all keep their places; every snapshot stays fresh, and every
/// unreached native stays suspected, for each list of candidates.
pub fn forgetting_keeps_suspected()
    ensures skippable { (h : Heap) (x : Name) → IsSkippable h x → ReachedIn (view h) x }
    ensures marks { (h : Heap) (x : Name) → Among x (view (forgotten h)).purple ↔ (Among x (view h).purple × (¬ (IsSkippable h x))) }
    ensures taken { (h : Heap) (x : Name) → Among x (view h).purple → (¬ (Among x (view (forgotten h)).purple)) ↔ IsSkippable h x }
    ensures places { (h : Heap) → (view (forgotten h)).buffer ≡ (view h).buffer }
    ensures fresh { (h : Heap) (s : Snapshot) → IsFreshIn h s → IsFreshIn (forgotten h) s }
    ensures suspected { (h : Heap) (candidates : List ℕ) → IsWellFormed h → IsSuspectedIn h candidates → IsSuspectedIn (forgotten h) candidates }
{}

/// A collection forgets no unreached native: its begin hands the suspects on to the candidates, its end and its
/// abandonment leave every unreached native suspected with no candidates. So does a sweep of closed marks, while no collection
/// runs, and a script collection.
pub fn collections_keep_suspected()
    ensures begin { (h : Heap) → IsSound [] h → IsSuspected (view h) [] → IsSuspected (view (with_empty_buffer h)) (candidates_of h) }
    ensures abandonment { (h : Heap) (candidates : List ℕ) → IsSound [] h → IsSuspected (view h) candidates →
        IsSuspected (view (give_back candidates h)) [] }
    ensures end { (h : Heap) (s : Snapshot) → IsSound [] h → IsFresh h.natives_made (view h) s → IsTraversed s →
        IsSuspected (view h) s.candidates → IsSuspected (view (take_away (white_natives h s) h).heap) [] }
    ensures sweep { (h : Heap) → AreMarksClosed h → IsSound [] h → IsSuspected (view h) [] → IsSuspected (view (sweep h).heap) [] }
    ensures rounds { (h : Heap) → IsSound [] h → IsSuspected (view h) [] → IsSuspected (view (collect_scripts h).heap) [] }
{}

/// A change is loyal where each native that loses a reference, its purple mark or its place outside the buffer, and each
/// that is new, is purple, gone or reached afterwards. Such a change keeps every unreached native suspected.
pub fn loyal_changes_keep_suspected()
    ensures { (h k : Heap) (candidates : List ℕ) → IsWellFormed h → IsWellFormed k → IsLoyal (view h) (view k) →
        IsSuspected (view h) candidates → IsSuspected (view k) candidates }
{}
