//! What a marking frees over asks.

ghost use Rattle.std.specs.Prelude.{◌≡◌, ◌≤◌, ◌⊎◌, ℕ, IsTrue, List, ◌∷◌, None};
ghost use Rattle.std.specs.List.{list_all};
ghost use Rattle.cc_lists.specs.Members.{Among};
ghost use Rattle.cc_names.specs.declared.name.Name.{Name};
ghost use Rattle.cc_model.specs.declared.command.Command.TheVariants.{Mark};
ghost use Rattle.cc_model.specs.declared.item.Event.TheVariants.{Freed};
ghost use Rattle.cc_model.specs.Asks.{Ask, taken};
ghost use Rattle.cc_model.specs.Lawful.{State};
ghost use Rattle.cc_model.specs.Collecting.{Machine};
ghost use Rattle.cc_model.specs.Run.{machine_after, turns};
ghost use Rattle.cc_laws_run.specs.Running.{IsRunning, ask_in_range};
ghost use Rattle.cc_laws_run.specs.Whites.{events_over, keeps_marking, white_at_begin, wrapped_over};

/// WHAT WAS WHITE WHEN A MARKING BEGAN IS FREED BY ITS END, whatever asks come between, unless `wrap` answered it since or `gc`
/// dropped the marking. It began under this `mark`, where none went on, and it has ended where none goes on after these asks.
pub fn runs_free_what_was_white()
    ensures { (m : Machine) (s : State) (n : ℕ) (asks : List Ask) (x : Name) → IsRunning m s → m.marking ≡ None → 1 ≤ n →
        IsTrue (list_all ask_in_range asks) → IsTrue (list_all keeps_marking asks) → Among x (white_at_begin m) →
        (machine_after m (taken (Mark n) ∷ asks)).marking ≡ None →
        Among (Freed x) (events_over (turns m (taken (Mark n) ∷ asks))) ⊎
        Among x (wrapped_over (taken (Mark n) ∷ asks) (turns m (taken (Mark n) ∷ asks))) }
{}
