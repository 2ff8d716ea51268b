//! What holds after any asks in range, from the empty heaps on.

ghost use Rattle.std.specs.Prelude.{◌++◌, ℕ, Bool, IsTrue, List, ◌∷◌};
ghost use Rattle.std.specs.List.{list_all};
ghost use Rattle.cc_names.specs.Allowance.{Allowance};
ghost use Rattle.cc_model.specs.declared.command.Command.TheVariants.{Gc};
ghost use Rattle.cc_model.specs.Asks.{Ask, taken};
ghost use Rattle.cc_model.specs.Lawful.{start};
ghost use Rattle.cc_model.specs.Reached.{Reached};
ghost use Rattle.cc_lists.specs.Members.{Among};
ghost use Rattle.cc_names.specs.Names.{native};
ghost use Rattle.cc_model.specs.Collecting.{empty_machine};
ghost use Rattle.cc_model.specs.Run.{machine_after, plain_run};
ghost use Rattle.cc_laws_run.specs.Running.{IsRunning, ask_in_range, state_after};
ghost use Rattle.cc_laws_run.specs.Doomed.{IsSuspectedNow};
ghost use Rattle.cc_laws_run.specs.Returning.{brings_none_back};
ghost use Rattle.cc_laws_run.specs.Missing.{BeginsAfterGc, MissesNothing, MissesNothingAtAll};

/// After any asks in range the machine runs: its heaps are sound and stand for the graph that the replies make, its
/// snapshot is fresh, and its objects are those that a census would list.
pub fn runs_go_on()
    ensures { (limits : Allowance) (memory : List Bool) (asks : List Ask) → IsTrue (list_all ask_in_range asks) →
        IsRunning (machine_after (empty_machine limits memory) asks) (state_after (start limits) asks (plain_run limits memory asks)) }
{}

/// After any asks in range no unreached native is forgotten.
pub fn runs_forget_nothing()
    ensures { (limits : Allowance) (memory : List Bool) (asks : List Ask) → IsTrue (list_all ask_in_range asks) →
        IsSuspectedNow (machine_after (empty_machine limits memory) asks) }
{}

/// A COLLECTION AFTER `gc` MISSES NOTHING, in any run from the empty heaps: for all limits, answers of memory and asks in
/// range, with blank lines and comments between `gc` and the ask that begins the collection. Every native that was
/// unreached when it began, and that no weak reference may have brought back since, is told unlinked at its end, unless this
/// collection was abandoned, and after the `gc` that comes next, or that ends it, none of these is in the heaps.
///
/// What may be back is what the graph gives from all names that were reached at some moment since the collection began, by its
/// own rules and in place of the registers: with a native all comes back that it leads to. It is not only what was reached:
/// the map of an entry may come back at one moment and its key at another, when the map is dropped again, and then the
/// collection keeps the value.
///
/// Where the asks read no weak register nothing comes back, and every native that was unreached is told unlinked.
pub fn runs_after_gc_miss_nothing()
    ensures nothing { (limits : Allowance) (memory : List Bool) (before blanks : List Ask) (ask : Ask) (asks : List Ask) →
        BeginsAfterGc before blanks ask asks → MissesNothing limits memory (before ++ taken Gc ∷ blanks) (ask ∷ asks) }
    ensures nothing_at_all { (limits : Allowance) (memory : List Bool) (before blanks : List Ask) (ask : Ask) (asks : List Ask) →
        BeginsAfterGc before blanks ask asks → IsTrue (list_all brings_none_back asks) →
        MissesNothingAtAll limits memory (before ++ taken Gc ∷ blanks) (ask ∷ asks) }
{}

/// WHAT HAS ENDED IS NEVER REACHED AGAIN, in any run from the empty heaps: a native that an unlink or a free line had is reached
/// neither after those asks nor after any later ones. So no weak register gives back what a root can't hold.
pub fn ended_stay_unreached()
    ensures { (limits : Allowance) (memory : List Bool) (asks later : List Ask) → IsTrue (list_all ask_in_range (asks ++ later)) → (k : ℕ) →
        Among (native k) (state_after (start limits) asks (plain_run limits memory asks)).ended →
        ¬ (Reached (state_after (start limits) (asks ++ later) (plain_run limits memory (asks ++ later))).graph (native k)) }
{}
