//! What a collection has unlinked is gone after `gc`.

ghost use Rattle.std.specs.Prelude.{◌≡◌, ◌++◌, IsTrue, List, [], ◌∷◌, true};
ghost use Rattle.std.specs.List.{list_all};
ghost use Rattle.cc_lists.specs.Members.{Among};
ghost use Rattle.cc_names.specs.declared.name.Name.{Name};
ghost use Rattle.cc_model.specs.declared.command.Command.TheVariants.{Gc};
ghost use Rattle.cc_model.specs.WellFormed.{names_there};
ghost use Rattle.cc_model.specs.Asks.{Ask, taken};
ghost use Rattle.cc_model.specs.Lawful.{State, next};
ghost use Rattle.cc_model.specs.End.{at_end, refused};
ghost use Rattle.cc_model.specs.Collecting.{Machine, gc};
ghost use Rattle.cc_model.specs.Run.{do_ask, machine_after};
ghost use Rattle.cc_laws_run.specs.Running.{IsRunning, ask_in_range};
ghost use Rattle.cc_laws_run.specs.Doomed.{IsDoomedNow, IsSuspectedNow, KeepsReflectors};
ghost use Rattle.cc_laws_run.specs.Returning.{MayBeBack, brings_none_back};
ghost use Rattle.cc_laws_run.specs.Followed.{first_collection};
ghost use Rattle.cc_laws_run.specs.Missing.{CannotMissNow, begins_one, graph_then, lost, met_then};
ghost use Rattle.cc_laws_run.specs.Spent.{IsSpent, LeavesSpent};

/// What a collection that began right after `gc` has unlinked stays out of reach, whatever asks come, and the next `gc`
/// takes all of it away; so does a `gc` that ends the collection itself, unless this collection is abandoned. Of what was lost
/// when it began, that is all but what a weak reference may have brought back meanwhile; and all of it, where no weak register
/// is read. No weak register gives what was unlinked, so no ask brings that back.
pub fn unlinked_are_gone_after_gc()
    ensures begins { (m : Machine) (s : State) (ask : Ask) (asks : List Ask) → IsRunning m s → IsSuspectedNow m → begins_one ask ≡ true →
        IsTrue (list_all ask_in_range asks) → (first_collection (gc m).machine (ask ∷ asks)).progress ≡ at_end →
        LeavesSpent (lost (gc m).machine.heap) [] (gc m).machine (next s (taken Gc) (do_ask m (taken Gc)).answer) (ask ∷ asks) }
    ensures ends { (m : Machine) (s : State) (asks : List Ask) (ds met : List Name) → IsRunning m s → IsTrue (list_all ask_in_range asks) →
        CannotMissNow m s.graph met ds → (first_collection m asks).progress ≡ at_end → LeavesSpent ds met m s asks }
    ensures begins_at_all { (m : Machine) (s : State) (ask : Ask) (asks : List Ask) → IsRunning m s → IsSuspectedNow m → begins_one ask ≡ true →
        IsTrue (list_all ask_in_range asks) → IsTrue (list_all brings_none_back asks) →
        (first_collection (gc m).machine (ask ∷ asks)).progress ≡ at_end →
        IsSpent (machine_after (gc m).machine (ask ∷ asks)).heap (lost (gc m).machine.heap) }
    ensures ends_at_all { (m : Machine) (s : State) (asks : List Ask) (ds : List Name) → IsRunning m s → IsTrue (list_all ask_in_range asks) →
        IsTrue (list_all brings_none_back asks) → KeepsReflectors ds → IsDoomedNow m ds → (first_collection m asks).progress ≡ at_end →
        IsSpent (machine_after m asks).heap ds }
    ensures stays { (m : Machine) (s : State) (ask : Ask) (ds : List Name) → IsRunning m s → IsTrue (ask_in_range ask) → KeepsReflectors ds →
        IsSpent m.heap ds → IsSpent (do_ask m ask).machine.heap ds }
    ensures all_stay { (m : Machine) (s : State) (asks : List Ask) (ds : List Name) → IsRunning m s → IsTrue (list_all ask_in_range asks) →
        KeepsReflectors ds → IsSpent m.heap ds → IsSpent (machine_after m asks).heap ds }
    ensures gone { (m : Machine) (s : State) (x : Name) (ds : List Name) → IsRunning m s → KeepsReflectors ds →
        IsSpent m.heap ds → Among x ds → ¬ (Among x (names_there (gc m).machine.heap)) }
    ensures gone_with_it { (m : Machine) (s : State) (asks : List Ask) (x : Name) (ds met : List Name) → IsRunning m s →
        IsTrue (list_all ask_in_range asks) → CannotMissNow m s.graph met ds →
        ¬ ((first_collection m (asks ++ taken Gc ∷ [])).progress ≡ refused) → Among x ds →
        ¬ (MayBeBack (graph_then m s asks) (met_then met m s asks) x) →
        ¬ (Among x (names_there (machine_after m (asks ++ taken Gc ∷ [])).heap)) }
    ensures gone_with_it_at_all { (m : Machine) (s : State) (asks : List Ask) (x : Name) (ds : List Name) → IsRunning m s →
        IsTrue (list_all ask_in_range asks) → IsTrue (list_all brings_none_back asks) → KeepsReflectors ds → IsDoomedNow m ds →
        ¬ ((first_collection m (asks ++ taken Gc ∷ [])).progress ≡ refused) → Among x ds →
        ¬ (Among x (names_there (machine_after m (asks ++ taken Gc ∷ [])).heap)) }
{}
