//! Whether a transcript is lawful, and whether it is quiet, is decided by tests that compute.

ghost use Rattle.std.specs.Prelude.{◌↔◌, IsTrue, List};
ghost use Rattle.cc_names.specs.Allowance.{Allowance};
ghost use Rattle.cc_model.specs.Answers.{Answer};
ghost use Rattle.cc_model.specs.Asks.{Ask};
ghost use Rattle.cc_model.specs.Lawful.{IsLawful};
ghost use Rattle.cc_model.specs.Quiet.{IsQuiet};
ghost use Rattle.cc_worked.specs.Verdict.{is_lawful, is_quiet, verdict};

/// THE VERDICT DECIDES. One test says yes to exactly the lawful transcripts, one to exactly the quiet ones, and the
/// verdict to those that are both.
pub fn verdict_decides()
    ensures lawful { (limits : Allowance) (asks : List Ask) (answers : List Answer) →
        IsTrue (is_lawful limits asks answers) ↔ IsLawful limits asks answers }
    ensures quiet { (limits : Allowance) (asks : List Ask) (answers : List Answer) →
        IsTrue (is_quiet limits asks answers) ↔ IsQuiet limits asks answers }
    ensures both { (limits : Allowance) (asks : List Ask) (answers : List Answer) →
        IsTrue (verdict limits asks answers) ↔ (IsLawful limits asks answers × IsQuiet limits asks answers) }
{}
