//! Laws of made scripts.

ghost use Rattle.std.specs.Prelude.{◌≡◌, ℕ, ◌+◌, ◌*◌, ◌^◌, ◌-◌, ◌≤◌, IsTrue, List, ◌++◌, length, All};
ghost use Rattle.std.specs.List.{list_all};
ghost use Rattle.cc_names.specs.Allowance.{Allowance};
ghost use Rattle.cc_model.specs.Answers.{Answer};
ghost use Rattle.cc_model.specs.Asks.{Ask, asks_of};
ghost use Rattle.cc_model.specs.Checks.{Objects};
ghost use Rattle.cc_model.specs.Lawful.{IsLawful};
ghost use Rattle.cc_model.specs.Lines.{lines_of};
ghost use Rattle.cc_model.specs.Quiet.{IsQuiet};
ghost use Rattle.cc_made.specs.Asked.{writes_of_eight, is_command, tail_asks};
ghost use Rattle.cc_made.specs.Ending.{LeavesNothing};
ghost use Rattle.cc_made.specs.Known.{four_of_the_greatest, thirty_of_111, three_of_seven};
ghost use Rattle.cc_made.specs.Made.{made_lines, made_script, tail};

/// A made script is cut into the lines that it was made of: so many as were wanted and the tail's twenty, each short. So
/// its length is bounded too, far below the limit on bytes for a million lines.
pub fn made_scripts_are_cut_into_their_lines()
    ensures lines { (seed count : ℕ) → lines_of (made_script seed count) ≡ made_lines seed count }
    ensures many { (seed count : ℕ) → length (made_lines seed count) ≡ count + 20 }
    ensures short { (seed count : ℕ) → All (λ line. length line ≤ 13) (made_lines seed count) }
    ensures bytes { (seed count : ℕ) → length (made_script seed count) ≤ 14 * count + 149 }
    ensures within { (seed count : ℕ) → count ≤ 1000000 → length (made_script seed count) ≤ 2 ^ 32 - 1 }
{}

/// Each line of a made script asks a command: none is blank, a comment, too long or not in the grammar, and none asks for
/// a version, so the script is of version 1. They write the first eight registers of each bank alone, whatever the
/// objects are. The last twenty empty these, collect, and take a census.
pub fn made_scripts_ask_commands()
    ensures many { (seed count : ℕ) → length (asks_of (made_script seed count)) ≡ count + 20 }
    ensures commands { (seed count : ℕ) → IsTrue (list_all is_command (asks_of (made_script seed count))) }
    ensures registers { (objects : Objects) (seed count : ℕ) → IsTrue (list_all (writes_of_eight objects) (asks_of (made_script seed count))) }
    ensures tail { (seed count : ℕ) → (asks : List Ask) × (asks_of (made_script seed count) ≡ asks ++ tail_asks) }
{}

/// In each lawful and quiet transcript of a made script the last census lists nothing, where the tail's `collect` was not
/// given up: no register holds anything by then.
pub fn made_scripts_leave_nothing()
    ensures { (seed count : ℕ) (limits : Allowance) (answers : List Answer) →
        IsLawful limits (asks_of (made_script seed count)) answers →
        IsQuiet limits (asks_of (made_script seed count)) answers → LeavesNothing count answers }
{}

/// Some made scripts are those that were worked out apart from the definition.
pub fn known_scripts_are_made()
    ensures none { (seed : ℕ) → made_lines seed 0 ≡ tail }
    ensures three { made_lines 7 3 ≡ three_of_seven ++ tail }
    ensures each_form { made_lines 111 30 ≡ thirty_of_111 ++ tail }
    ensures greatest { made_lines (2 ^ 64 - 1) 4 ≡ four_of_the_greatest ++ tail }
{}
