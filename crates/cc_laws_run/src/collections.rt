//! What `slice`, `collect`, `gc` and `mark` answer is lawful.

ghost use Rattle.std.specs.Prelude.{◌≡◌, false};
ghost use Rattle.cc_model.specs.Asks.{Ask};
ghost use Rattle.cc_model.specs.Lawful.{State, AnswersAsk, next};
ghost use Rattle.cc_model.specs.Collecting.{Machine};
ghost use Rattle.cc_model.specs.Run.{do_ask};
ghost use Rattle.cc_laws_run.specs.Running.{IsRunning, moves_no_collection};

/// `slice`, `collect`, `gc` and `mark` are answered lawfully, and leave a machine that runs, whatever memory answers.
pub fn collections_are_lawful()
    ensures answered { (m : Machine) (s : State) (ask : Ask) → IsRunning m s → moves_no_collection ask ≡ false →
        AnswersAsk s ask (do_ask m ask).answer }
    ensures runs { (m : Machine) (s : State) (ask : Ask) → IsRunning m s → moves_no_collection ask ≡ false →
        IsRunning (do_ask m ask).machine (next s ask (do_ask m ask).answer) }
{}
