//! Laws of one answer: what its next line may be.
ghost use Rattle.std.specs.Prelude.{◌≡◌, ◌↔◌, ◌<◌, ◌^◌, ◌⊎◌, ℕ, List, [], ◌∷◌};
ghost use Rattle.cc_model.specs.declared.item.Event.{Event};
ghost use Rattle.cc_model.specs.declared.item.Item.{Item};
ghost use Rattle.cc_model.specs.declared.item.Reply.{Reply};
ghost use Rattle.cc_model.specs.Asks.{Ask};
ghost use Rattle.cc_model.specs.Texts.{text_of_event, text_of_reply, words_of};
ghost use Rattle.cc_verdict.specs.Following.{Follows, Place, Recites};
ghost use Rattle.cc_verdict.specs.Hearing.{Hearing, Hears, MayCome, MayEnd, place_ended, with_told};
ghost use Rattle.cc_verdict.specs.Numbers.{number_in_event, number_in_reply};

/// Items are recited one line each.
pub fn answers_are_recited_line_by_line()
    ensures nothing { (p : Place) (asks : List Ask) (lines : List (List ℕ)) → Recites [] p asks lines ↔ Follows p asks lines }
    ensures line { (i : Item) (items : List Item) (p : Place) (asks : List Ask) (line : List ℕ) (lines : List (List ℕ)) →
        Recites (i ∷ items) p asks (line ∷ lines) ↔ ((line ≡ words_of i) × Recites items p asks lines) }
    ensures end { (i : Item) (items : List Item) (p : Place) (asks : List Ask) → ¬ (Recites (i ∷ items) p asks []) }
{}

/// The next line of an answer that is heard is that of an event that may come, or of a reply that may end it; which of them, the
/// line says. The line of an event or a reply says it where the number in it is below 2 ^ 32.
pub fn answers_are_heard_line_by_line()
    ensures event { (h : Hearing) (e : Event) (asks : List Ask) (lines : List (List ℕ)) → number_in_event e < 2 ^ 32 →
        Hears asks h (text_of_event e ∷ lines) ↔ (MayCome h e × Hears asks (with_told h e) lines) }
    ensures reply { (h : Hearing) (r : Reply) (asks : List Ask) (lines : List (List ℕ)) → number_in_reply r < 2 ^ 32 →
        Hears asks h (text_of_reply r ∷ lines) ↔ (MayEnd h r × Follows (place_ended h r) asks lines) }
    ensures either { (h : Hearing) (asks : List Ask) (line : List ℕ) (lines : List (List ℕ)) → Hears asks h (line ∷ lines) →
        ((e : Event) × (line ≡ text_of_event e) × MayCome h e) ⊎ ((r : Reply) × (line ≡ text_of_reply r) × MayEnd h r) }
    ensures end { (h : Hearing) (asks : List Ask) → ¬ (Hears asks h []) }
{}
