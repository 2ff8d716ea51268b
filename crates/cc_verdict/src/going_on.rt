//! Laws of going on: from where a check stands lines go on exactly where none of its tests forbids it.
ghost use Rattle.std.specs.Prelude.{◌≡◌, false, IsTrue, ℕ, List, [], ◌++◌};
ghost use Rattle.cc_names.specs.Allowance.{Allowance};
ghost use Rattle.cc_model.specs.declared.command.Command.{Command};
ghost use Rattle.cc_model.specs.declared.item.Event.{Event};
ghost use Rattle.cc_model.specs.declared.item.Reply.{Reply};
ghost use Rattle.cc_model.specs.Asks.{Ask, asks_of};
ghost use Rattle.cc_model.specs.Graph.{empty_graph};
ghost use Rattle.cc_model.specs.Mutating.{reads_weakly};
ghost use Rattle.cc_model.specs.Ranges.{in_range};
ghost use Rattle.cc_verdict.specs.Following.{first_place, Follows, Place};
ghost use Rattle.cc_verdict.specs.GoingOn.{AreInRange, CanGoOn, ListsAll, ListsAllAt, ListsAllIn, ReadNone};
ghost use Rattle.cc_verdict.specs.Hearing.{Hearing, MayCome, MayEnd, hearing, is_heard, place_ended, with_told};
ghost use Rattle.cc_verdict.specs.Parting.{HasParted, IsLawfulSoFar};
ghost use Rattle.cc_verdict.specs.Positions.{GoesOn, Position};

/// Lines go on only where the check can go on: no line may come behind an event under a command that the graph refuses, nor where a
/// census is asked next that must list exactly the reached names and does not.
pub fn dead_ends_lead_nowhere()
    ensures { (p : Position) (asks : List Ask) (lines : List (List ℕ)) → GoesOn p asks lines → CanGoOn p asks }
{}

/// Wherever else a check stands, some lines go on, to the end of the script, whatever it asks, where it reads no weak register.
pub fn other_ends_lead_on()
    ensures { (p : Position) (asks : List Ask) → AreInRange asks → ReadNone asks → ListsAllAt p → CanGoOn p asks → (lines : List (List ℕ)) ×
        GoesOn p asks lines }
{}

/// What is reached is listed, wherever a check stands: at the start, and with each answer, event by event, but to a command that reads a
/// weak register.
pub fn all_that_is_reached_is_listed()
    ensures start { (limits : Allowance) → ListsAll (empty_graph limits) [] }
    ensures begins { (p : Place) (c : Command) → IsTrue (is_heard c) → IsTrue (in_range c) → reads_weakly c ≡ false →
        ListsAll p.state.graph p.state.listed → ListsAllIn (hearing p c) }
    ensures event { (h : Hearing) (e : Event) → MayCome h e → ListsAllIn h → ListsAllIn (with_told h e) }
    ensures ends { (h : Hearing) (r : Reply) → MayEnd h r → ListsAllIn h → ListsAll (place_ended h r).state.graph (place_ended h r).state.listed }
{}

/// A transcript is lawful so far, or has parted from every lawful one, as its lines go on or do not.
pub fn transcripts_part_line_by_line()
    ensures so_far { (limits : Allowance) (script : List ℕ) (lines rest : List (List ℕ)) →
        Follows (first_place limits) (asks_of script) (lines ++ rest) → IsLawfulSoFar limits script lines }
    ensures parted { (limits : Allowance) (script : List ℕ) (lines : List (List ℕ)) →
        ((rest : List (List ℕ)) → ¬ (Follows (first_place limits) (asks_of script) (lines ++ rest))) → HasParted limits script lines }
{}
