//! The plain run is lawful and quiet.

ghost use Rattle.std.specs.Prelude.{ℕ, Bool, IsTrue, List};
ghost use Rattle.std.specs.List.{list_all};
ghost use Rattle.cc_names.specs.Allowance.{Allowance};
ghost use Rattle.cc_model.specs.Asks.{Ask, asks_of};
ghost use Rattle.cc_model.specs.Lawful.{IsLawful, State};
ghost use Rattle.cc_model.specs.Quiet.{IsQuiet};
ghost use Rattle.cc_model.specs.Collecting.{Machine};
ghost use Rattle.cc_model.specs.Run.{do_ask, plain_run};
ghost use Rattle.cc_laws_run.specs.Doomed.{IsSuspectedNow};
ghost use Rattle.cc_laws_run.specs.Running.{IsRunning, ask_in_range};

/// No ask makes a running machine forget an unreached native, whatever memory answers.
pub fn asks_keep_suspected()
    ensures { (m : Machine) (s : State) (ask : Ask) → IsRunning m s → IsTrue (ask_in_range ask) → IsSuspectedNow m →
        IsSuspectedNow (do_ask m ask).machine }
{}

/// THE PLAIN RUN IS LAWFUL AND QUIET: what it answers is the transcript of an object graph from which nothing is freed,
/// and after `gc`, `collect`, `gc` a census lists exactly the reached objects; for all limits, answers of memory and asks
/// in range, as all asks of an input are.
pub fn plain_run_is_lawful()
    ensures lawful { (limits : Allowance) (memory : List Bool) (asks : List Ask) → IsTrue (list_all ask_in_range asks) →
        IsLawful limits asks (plain_run limits memory asks) }
    ensures quiet { (limits : Allowance) (memory : List Bool) (asks : List Ask) → IsTrue (list_all ask_in_range asks) →
        IsQuiet limits asks (plain_run limits memory asks) }
    ensures in_range { (bytes : List ℕ) → IsTrue (list_all ask_in_range (asks_of bytes)) }
{}
