//! What a collection that begins right after `gc` can't miss.

ghost use Rattle.std.specs.Prelude.{◌≡◌, ℕ, IsTrue, List, [], ◌∷◌, true};
ghost use Rattle.std.specs.List.{list_all};
ghost use Rattle.cc_lists.specs.Members.{Among};
ghost use Rattle.cc_names.specs.declared.name.Name.{Name};
ghost use Rattle.cc_names.specs.Names.{native};
ghost use Rattle.cc_model.specs.declared.command.Command.TheVariants.{Gc};
ghost use Rattle.cc_model.specs.Asks.{Ask, taken};
ghost use Rattle.cc_model.specs.Heap.{Heap};
ghost use Rattle.cc_model.specs.Lawful.{State, next};
ghost use Rattle.cc_model.specs.End.{went_on};
ghost use Rattle.cc_model.specs.Collecting.{Machine, gc};
ghost use Rattle.cc_model.specs.Run.{do_ask, turns};
ghost use Rattle.cc_laws_run.specs.Running.{IsRunning, ask_in_range};
ghost use Rattle.cc_laws_run.specs.Doomed.{IsDoomedNow, IsSuspectedNow, KeepsReflectors, garbage};
ghost use Rattle.cc_laws_run.specs.Returning.{brings_none_back};
ghost use Rattle.cc_laws_run.specs.Followed.{first_collection};
ghost use Rattle.cc_laws_run.specs.Missing.{AreTold, CannotMissNow, MissesNone, MissesNoneAtAll, begins_one, lost};

/// A collection that begins right after `gc` misses nothing: whatever asks come, it goes on until it has unlinked all that
/// was lost when it began, but what a weak reference may have brought back, unless this collection is abandoned; a second one
/// under the same ask counts for nothing. Where no weak register is read, it unlinks all that was lost. Every native that was
/// unreached when it began is among that. What the collection tells begins an answer.
///
/// What may be back is what the graph gives from all names that were reached since the collection began, and not only those
/// names: where the map of an entry came back at one moment and its key at another, the collection keeps the value, though
/// no register reached it at any moment.
pub fn collections_after_gc_miss_nothing()
    ensures all_natives { (h : Heap) (k : ℕ) → Among (native k) (garbage h) → Among (native k) (lost h) }
    ensures with_natives { (m : Machine) (s : State) → IsRunning m s → KeepsReflectors (lost (gc m).machine.heap) }
    ensures begins { (m : Machine) (s : State) (ask : Ask) (asks : List Ask) → IsRunning m s → IsSuspectedNow m → begins_one ask ≡ true →
        IsTrue (list_all ask_in_range asks) →
        MissesNone (lost (gc m).machine.heap) [] (gc m).machine (next s (taken Gc) (do_ask m (taken Gc)).answer) (ask ∷ asks) }
    ensures goes_on { (m : Machine) (s : State) (asks : List Ask) (ds met : List Name) → IsRunning m s → IsTrue (list_all ask_in_range asks) →
        CannotMissNow m s.graph met ds → MissesNone ds met m s asks }
    ensures begins_at_all { (m : Machine) (s : State) (ask : Ask) (asks : List Ask) → IsRunning m s → IsSuspectedNow m → begins_one ask ≡ true →
        IsTrue (list_all ask_in_range asks) → IsTrue (list_all brings_none_back asks) →
        MissesNoneAtAll (lost (gc m).machine.heap) (gc m).machine (ask ∷ asks) }
    ensures goes_on_at_all { (m : Machine) (s : State) (asks : List Ask) (ds : List Name) → IsRunning m s → IsTrue (list_all ask_in_range asks) →
        IsTrue (list_all brings_none_back asks) → KeepsReflectors ds → IsDoomedNow m ds → MissesNoneAtAll ds m asks }
    ensures told { (m : Machine) (asks : List Ask) → ¬ ((first_collection m asks).progress ≡ went_on) →
        AreTold (first_collection m asks).events (turns m asks) }
{}
