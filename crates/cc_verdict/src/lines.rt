//! Laws of lines: a transcript is its lines, each with its line feed, and a line tells an item from others.
ghost use Rattle.std.specs.Prelude.{◌≡◌, ◌≢◌, ◌↔◌, ◌<◌, ◌^◌, ℕ, List, length};
ghost use Rattle.cc_names.specs.Allowance.{Allowance};
ghost use Rattle.cc_names.specs.declared.name.Name.{Name};
ghost use Rattle.cc_names.specs.Names.{number_of, text_of_name};
ghost use Rattle.cc_model.specs.declared.item.Event.{Event};
ghost use Rattle.cc_model.specs.declared.item.Reply.{Reply};
ghost use Rattle.cc_model.specs.Asks.{Ask};
ghost use Rattle.cc_model.specs.Lines.{lines_of};
ghost use Rattle.cc_model.specs.Texts.{text_of_event, text_of_reply};
ghost use Rattle.cc_verdict.specs.Following.{first_place, Follows};
ghost use Rattle.cc_verdict.specs.Numbers.{number_in_event, number_in_reply};
ghost use Rattle.cc_verdict.specs.Verdicts.{length_of_lines, IsLawfulText};

/// A transcript is lawful exactly where its lines may follow from the start, and each of them, the last too, ends with a line
/// feed: so its length says.
pub fn transcripts_are_lines()
    ensures lawful { (limits : Allowance) (asks : List Ask) (text : List ℕ) →
        IsLawfulText limits asks text ↔ ((length text ≡ length_of_lines (lines_of text)) × Follows (first_place limits) asks (lines_of text)) }
{}

/// The line of an event or of a reply whose number is below 2 ^ 32 tells it from all others; and lines tell events from replies.
pub fn lines_tell_items_apart()
    ensures names { (x y : Name) → number_of x < 2 ^ 32 → text_of_name x ≡ text_of_name y → x ≡ y }
    ensures events { (e f : Event) → number_in_event e < 2 ^ 32 → text_of_event e ≡ text_of_event f → e ≡ f }
    ensures replies { (r q : Reply) → number_in_reply r < 2 ^ 32 → text_of_reply r ≡ text_of_reply q → r ≡ q }
    ensures apart { (e : Event) (r : Reply) → text_of_event e ≢ text_of_reply r }
{}
