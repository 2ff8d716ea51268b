//! A lawful and quiet transcript has each part of the headline.

ghost use Rattle.std.specs.Prelude.{List};
ghost use Rattle.cc_names.specs.Allowance.{Allowance};
ghost use Rattle.cc_model.specs.Asks.{Ask};
ghost use Rattle.cc_model.specs.Answers.{Answer};
ghost use Rattle.cc_model.specs.Lawful.{IsLawful};
ghost use Rattle.cc_model.specs.Quiet.{IsQuiet};
ghost use Rattle.cc_laws_headline.specs.Headline.{TellsOfAGraph};

/// A lawful and quiet transcript tells of an object graph from which nothing is freed, line by line.
pub fn lawful_transcripts_tell_of_a_graph()
    ensures { (limits : Allowance) (asks : List Ask) (answers : List Answer) → IsLawful limits asks answers → IsQuiet limits asks answers →
        TellsOfAGraph limits asks answers }
{}
