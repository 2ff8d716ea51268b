//! What an ask that moves no collection answers is lawful.

ghost use Rattle.std.specs.Prelude.{IsTrue, List, Bool};
ghost use Rattle.cc_names.specs.Allowance.{Allowance};
ghost use Rattle.cc_model.specs.Asks.{Ask};
ghost use Rattle.cc_model.specs.Lawful.{State, AnswersAsk, next, start};
ghost use Rattle.cc_model.specs.Collecting.{Machine, empty_machine};
ghost use Rattle.cc_model.specs.Run.{do_ask};
ghost use Rattle.cc_laws_run.specs.Running.{IsRunning, ask_in_range, moves_no_collection};

/// Each ask that moves no collection is answered lawfully, and leaves a machine that runs, whatever memory answers.
pub fn commands_are_lawful()
    ensures start { (limits : Allowance) (memory : List Bool) → IsRunning (empty_machine limits memory) (start limits) }
    ensures answered { (m : Machine) (s : State) (ask : Ask) → IsRunning m s → IsTrue (ask_in_range ask) → IsTrue (moves_no_collection ask) →
        AnswersAsk s ask (do_ask m ask).answer }
    ensures runs { (m : Machine) (s : State) (ask : Ask) → IsRunning m s → IsTrue (ask_in_range ask) → IsTrue (moves_no_collection ask) →
        IsRunning (do_ask m ask).machine (next s ask (do_ask m ask).answer) }
{}
