//! What the answers of memory decide, and what not.

ghost use Rattle.std.specs.Prelude.{◌≡◌, ◌⊎◌, ◌++◌, ℕ, Bool, IsTrue, List, [], ◌∷◌, Option, Some, None};
ghost use Rattle.cc_lists.specs.Members.{Among};
ghost use Rattle.cc_names.specs.Allowance.{Allowance};
ghost use Rattle.cc_names.specs.Names.{native};
ghost use Rattle.cc_model.specs.declared.item.Event.TheVariants.{Abandoned};
ghost use Rattle.cc_model.specs.declared.item.Refusal.TheVariants.{NoMemory};
ghost use Rattle.cc_model.specs.declared.item.Reply.TheVariants.{Refused};
ghost use Rattle.cc_model.specs.Answers.{Answer};
ghost use Rattle.cc_model.specs.Asks.{Ask};
ghost use Rattle.cc_model.specs.Heap.{Heap};
ghost use Rattle.cc_model.specs.View.{view};
ghost use Rattle.cc_model.specs.WellFormed.{native_names};
ghost use Rattle.cc_model.specs.Snapshot.{Snapshot};
ghost use Rattle.cc_model.specs.End.{give_back, heap_given_back, refused, unit};
ghost use Rattle.cc_model.specs.Collecting.{Machine, collect, finish_running, slice};
ghost use Rattle.cc_model.specs.Run.{do_ask, machine_after, turns};
ghost use Rattle.cc_laws_run.specs.Doomed.{candidates_now};
ghost use Rattle.cc_laws_run.specs.GivenUp.{CollectGivesUp, GivesUp, IsGivenUp, SliceGivesUp};
ghost use Rattle.cc_laws_run.specs.Memory.{AreDoneFor, SameMachine, all_noes_told, noes, with_memory};

/// The plain run of asks in a row is that of the first, and then of the rest from the machine that is left.
/// Where each ask is done for some list of memory, one list serves for all, which says no once for each
/// `! nomem` and each collection abandoned under `gc` or `mark`, and never else.
pub fn runs_compose()
    ensures one_then_other { (m : Machine) (xs ys : List Ask) → turns m (xs ++ ys) ≡ turns m xs ++ turns (machine_after m xs) ys }
    ensures machines { (m : Machine) (xs ys : List Ask) → machine_after m (xs ++ ys) ≡ machine_after (machine_after m xs) ys }
    ensures one_list { (m n : Machine) (asks : List Ask) (answers : List Answer) → AreDoneFor m asks answers n →
        (memory : List Bool) × (turns (with_memory m memory) asks ≡ answers) ×
        (SameMachine (machine_after (with_memory m memory) asks) n) × (noes memory ≡ all_noes_told asks answers) }
{}

/// With memory at every place nothing wants memory and no collection is abandoned, and where memory never says no it is
/// as if it were at every place. A refused unit drops the
/// snapshot: each candidate that still exists is purple in the buffer again, a refused begin leaves the heaps.
pub fn memory_decides_nothing_else()
    ensures replies { (m : Machine) (ask : Ask) → m.memory ≡ [] → ¬ ((do_ask m ask).answer.reply ≡ Some (Refused NoMemory)) }
    ensures none_abandoned { (m : Machine) (ask : Ask) → m.memory ≡ [] → ¬ (Among Abandoned (do_ask m ask).answer.events) }
    ensures memory_stays { (m : Machine) (ask : Ask) → m.memory ≡ [] → (do_ask m ask).machine.memory ≡ [] }
    ensures ample { (m : Machine) (asks : List Ask) → noes m.memory ≡ 0 → turns m asks ≡ turns (with_memory m []) asks }
    ensures refused_begin { (h : Heap) (memory : Bool) → (unit h None memory).progress ≡ refused →
        ((unit h None memory).heap ≡ h) × ((unit h None memory).snapshot ≡ None) × ((unit h None memory).events ≡ Abandoned ∷ []) }
    ensures refused_node { (h : Heap) (s : Snapshot) (memory : Bool) → (unit h (Some s) memory).progress ≡ refused →
        ((unit h (Some s) memory).heap ≡ give_back s.candidates h) × ((unit h (Some s) memory).snapshot ≡ None) ×
        ((unit h (Some s) memory).events ≡ Abandoned ∷ []) }
    ensures given_back { (h : Heap) (candidates : List ℕ) (k : ℕ) → Among k candidates → Among (native k) (native_names h) →
        Among (native k) (view (give_back candidates h)).purple }
{}

/// Over whole asks: a slice or a collection that was refused memory gave the collection up. So did the end of a running one
/// under `gc` or `mark`, which go on. The heaps are those from before the ask, or from where it ended a marking, but for the buffer, in
/// which each native that was purple, and each candidate of the collection that ran, is purple, where it is there.
pub fn refused_collections_are_given_up()
    ensures slice { (n : ℕ) (m : Machine) → (slice n m).progress ≡ refused → SliceGivesUp m (slice n m) }
    ensures collect { (m : Machine) → (collect m).progress ≡ refused → CollectGivesUp m (collect m) }
    ensures finished { (m : Machine) → (finish_running m).progress ≡ refused → GivesUp m [] (finish_running m) }
    ensures suspects { (h : Heap) (s : Option Snapshot) (k : Heap) → IsGivenUp h s k → (i : ℕ) → Among (native i) (native_names h) →
        Among (native i) (view h).purple ⊎ Among i (candidates_now s) → Among (native i) (view k).purple }
    ensures rest { (h : Heap) (s : Option Snapshot) (k : Heap) → IsGivenUp h s k → k ≡ record h { buffer = k.buffer } }
{}
