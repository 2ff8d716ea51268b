//! Laws of answers: how each kind of ask is answered.
ghost use Rattle.std.specs.Prelude.{◌≡◌, ◌≢◌, ◌↔◌, IsTrue, ℕ, List, [], ◌∷◌, None, true, false};
ghost use Rattle.cc_names.specs.declared.name.Name.{Name};
ghost use Rattle.cc_model.specs.declared.command.Command.{Command};
ghost use Rattle.cc_model.specs.declared.command.Command.TheVariants as command;
ghost use Rattle.cc_model.specs.declared.item.Refusal.TheVariants as refusal;
ghost use Rattle.cc_model.specs.declared.item.Reply.TheVariants as reply;
ghost use Rattle.cc_model.specs.Answers.{items_of, no_answer, replying};
ghost use Rattle.cc_model.specs.Asks.{Ask, bad, long, taken};
ghost use Rattle.cc_model.specs.Checks.{refusal_of};
ghost use Rattle.cc_model.specs.Derivations.{leads_made, why_of};
ghost use Rattle.cc_model.specs.Graph.{objects_of};
ghost use Rattle.cc_model.specs.Lawful.{census_of, may_want_memory, runs_units};
ghost use Rattle.cc_model.specs.Quiet.{CensusIsQuiet};
ghost use Rattle.cc_model.specs.Texts.{text_of_reply};
ghost use Rattle.cc_verdict.specs.Following.{Follows, Place, Recites, place_after};
ghost use Rattle.cc_verdict.specs.Hearing.{Hears, hearing, is_heard};

/// A blank line and a comment are answered by nothing, and leave all as it was. Where nothing is asked any more, no line comes.
pub fn lines_that_ask_nothing_have_no_answer()
    ensures nothing { (p : Place) (asks : List Ask) (lines : List (List ℕ)) →
        Follows p (taken command.Nothing ∷ asks) lines ↔ Follows p asks lines }
    ensures over { (p : Place) (lines : List (List ℕ)) → Follows p [] lines ↔ (lines ≡ []) }
{}

/// A line that is too long or not in the grammar, and a census, have one answer each. A census has none where it must list
/// exactly the reached names and does not.
pub fn exact_answers_are_recited()
    ensures long { (p : Place) (asks : List Ask) (lines : List (List ℕ)) →
        Follows p (long ∷ asks) lines ↔ Recites (items_of (replying [] (reply.Refused refusal.Long)))
        (place_after p long (replying [] (reply.Refused refusal.Long))) asks lines }
    ensures bad { (p : Place) (asks : List Ask) (lines : List (List ℕ)) →
        Follows p (bad ∷ asks) lines ↔ Recites (items_of (replying [] (reply.Refused refusal.Line)))
        (place_after p bad (replying [] (reply.Refused refusal.Line))) asks lines }
    ensures census { (p : Place) (asks : List Ask) (lines : List (List ℕ)) → CensusIsQuiet p.row p.state (taken command.Census) →
        Follows p (taken command.Census ∷ asks) lines ↔ Recites (items_of (census_of p.state.listed))
        (place_after p (taken command.Census) (census_of p.state.listed)) asks lines }
    ensures unquiet { (p : Place) (asks : List Ask) (lines : List (List ℕ)) → ¬ (CensusIsQuiet p.row p.state (taken command.Census)) →
        ¬ (Follows p (taken command.Census ∷ asks) lines) }
{}

/// `why` is answered by the steps that lead to the object; or by want of memory.
pub fn reasons_are_recited()
    ensures refused { (p : Place) (x : Name) (asks : List Ask) (lines : List (List ℕ)) →
        Follows p (taken (command.Why x) ∷ asks) (text_of_reply (reply.Refused refusal.NoMemory) ∷ lines)
        ↔ Follows (place_after p (taken (command.Why x)) (replying [] (reply.Refused refusal.NoMemory))) asks lines }
    ensures told { (p : Place) (x : Name) (asks : List Ask) (line : List ℕ) (lines : List (List ℕ)) → line ≢ text_of_reply (reply.Refused refusal.NoMemory) →
        Follows p (taken (command.Why x) ∷ asks) (line ∷ lines)
        ↔ Recites (items_of (why_of (leads_made p.state.graph) x)) (place_after p (taken (command.Why x)) (why_of (leads_made p.state.graph) x)) asks
        (line ∷ lines) }
    ensures end { (p : Place) (x : Name) (asks : List Ask) → ¬ (Follows p (taken (command.Why x) ∷ asks) []) }
{}

/// Every other command is answered by events and a reply. Want of memory alone comes first only where the command may want it,
/// is not refused, and runs no units.
pub fn answers_are_heard()
    ensures refused { (p : Place) (c : Command) (asks : List Ask) (lines : List (List ℕ)) → IsTrue (is_heard c) →
        Follows p (taken c ∷ asks) (text_of_reply (reply.Refused refusal.NoMemory) ∷ lines)
        ↔ ((may_want_memory p.state c ≡ true) × (refusal_of (objects_of p.state.graph) c ≡ None) × (runs_units c ≡ false)
        × Follows (place_after p (taken c) (replying [] (reply.Refused refusal.NoMemory))) asks lines) }
    ensures heard { (p : Place) (c : Command) (asks : List Ask) (line : List ℕ) (lines : List (List ℕ)) → IsTrue (is_heard c) →
        line ≢ text_of_reply (reply.Refused refusal.NoMemory) →
        Follows p (taken c ∷ asks) (line ∷ lines) ↔ Hears asks (hearing p c) (line ∷ lines) }
    ensures end { (p : Place) (c : Command) (asks : List Ask) → IsTrue (is_heard c) → ¬ (Follows p (taken c ∷ asks) []) }
{}
