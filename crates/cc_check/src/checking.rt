//! A whole check.

ghost use Rattle.std.specs.Prelude.{◌≡◌, ◌≢◌, ◌<◌, ◌≤◌, ◌+◌, ◌-◌, ◌*◌, ◌^◌, ◌⊎◌, ℕ, List, length, Some, Ok, Err, IfOk, OnOk, true, false};
ghost use Rattle.cc_lists.specs.Faults.{Rose};
ghost use Rattle.cc_verdict.specs.Verdicts.{IsLawfulTranscript};
ghost use Rattle.cc_reader.specs.Given.{AreAllGiven, HasGiven, IsBroken, IsOver};
ghost use Rattle.cc_reader.specs.HasRead.{ReadsOn};
ghost use Rattle.cc_reader.specs.Pending.{nothing_read, weight};
ghost use Rattle.cc_check.specs.Checked.{ends, IsFoundLawful, IsFoundUnlawful, IsOverLimit};
ghost use Rattle.cc_check.specs.declared.parting.Blame.{Blame as TheBlame};
ghost use Rattle.cc_check.specs.Parted.{IsFoundEarly, IsFoundParted};
ghost use Rattle.cc_check.specs.Tried.{moment, AreAllTried, GoesOnTrying, IsReady, StaysWithin};

use crate::heard::Heard;
use crate::parting::Parting;
use crate::trial::Trial;
use crate::verdict::{CheckStop, Verdict};
use cc_names::Limits;
use cc_outside::Source;
use cc_reader::{Line, Lines};
use std::alloc::Global;

/// Reads the next line and hears it. False comes at the end of the source.
fn hear_next<S: Source>(trial: &mut Trial<'_>, lines: &mut Lines<'_, S>) -> Result<bool, CheckStop>
    requires going { lines.old.stopped ≡ false }
    requires ready { IsReady trial.old }
    requires room { trial.old.bytes + 121 < 2 ^ 64 }
    requires line { trial.old.lines + 1 < 2 ^ 64 }
    ensures more { result ≡ Ok true → GoesOnTrying HasGiven (moment (S.left lines.old.source.now) lines.old.window trial.old)
        (moment (S.left lines.new.source.now) lines.new.window trial.new) }
    ensures whole { result ≡ Ok false → GoesOnTrying AreAllGiven (moment (S.left lines.old.source.now) lines.old.window trial.old)
        (moment (S.left lines.new.source.now) lines.new.window trial.new) }
    ensures fault { result ≡ Err CheckStop.Fault → GoesOnTrying IsBroken (moment (S.left lines.old.source.now) lines.old.window trial.old)
        (moment (S.left lines.new.source.now) lines.new.window trial.new) }
    ensures over { result ≡ Err CheckStop.Limit → GoesOnTrying IsOver (moment (S.left lines.old.source.now) lines.old.window trial.old)
        (moment (S.left lines.new.source.now) lines.new.window trial.new) }
    ensures within { StaysWithin (moment (S.left lines.old.source.now) lines.old.window trial.old)
        (moment (S.left lines.new.source.now) lines.new.window trial.new) }
    ensures going_on { result ≡ Ok true → lines.new.stopped ≡ false }
    ensures falls { result ≡ Ok true → weight lines.new.window < weight lines.old.window }
    ensures ready { OnOk result (IsReady trial.new) }
    ensures bytes { OnOk result (trial.new.bytes ≤ trial.old.bytes + 121) }
    ensures lines { OnOk result (trial.new.lines ≤ trial.old.lines + 1) }
    ensures limit { lines.new.window.limit ≡ lines.old.window.limit }
    ensures reads { ReadsOn (S.reads lines.old.source.now) (S.reads lines.new.source.now) lines.old.window lines.new.window }
    ensures same { lines.new.source.ghost_name ≡ lines.old.source.ghost_name }
    ensures calm { result ≢ Err CheckStop.Fault → S.faults lines.new.source.now ≡ S.faults lines.old.source.now }
    ensures rose { result ≡ Err CheckStop.Fault → Rose (S.faults lines.old.source.now) (S.faults lines.new.source.now) }
{
    match lines.next()? {
        Line::End => return Ok(false),
        Line::TooLong => trial.hear(Heard::Long)?,
        Line::Text => trial.hear(Heard::Text(lines.text()))?,
    }
    Ok(true)
}

/// Hears each line that is left, to the end of the source.
fn hear_all<S: Source>(trial: &mut Trial<'_>, lines: &mut Lines<'_, S>) -> Result<(), CheckStop>
    requires going { lines.old.stopped ≡ false }
    requires ready { IsReady trial.old }
    requires room { trial.old.bytes + 121 * weight lines.old.window + 121 < 2 ^ 64 }
    requires line { trial.old.lines + weight lines.old.window + 2 < 2 ^ 64 }
    ensures lines { OnOk result (trial.new.lines + 1 < 2 ^ 64) }
    ensures whole { OnOk result (GoesOnTrying AreAllGiven (moment (S.left lines.old.source.now) lines.old.window trial.old)
        (moment (S.left lines.new.source.now) lines.new.window trial.new)) }
    ensures fault { result ≡ Err CheckStop.Fault → GoesOnTrying IsBroken (moment (S.left lines.old.source.now) lines.old.window trial.old)
        (moment (S.left lines.new.source.now) lines.new.window trial.new) }
    ensures over { result ≡ Err CheckStop.Limit → GoesOnTrying IsOver (moment (S.left lines.old.source.now) lines.old.window trial.old)
        (moment (S.left lines.new.source.now) lines.new.window trial.new) }
    ensures within { StaysWithin (moment (S.left lines.old.source.now) lines.old.window trial.old)
        (moment (S.left lines.new.source.now) lines.new.window trial.new) }
    ensures limit { lines.new.window.limit ≡ lines.old.window.limit }
    ensures reads { ReadsOn (S.reads lines.old.source.now) (S.reads lines.new.source.now) lines.old.window lines.new.window }
    ensures same { lines.new.source.ghost_name ≡ lines.old.source.ghost_name }
    ensures calm { result ≢ Err CheckStop.Fault → S.faults lines.new.source.now ≡ S.faults lines.old.source.now }
    ensures rose { result ≡ Err CheckStop.Fault → Rose (S.faults lines.old.source.now) (S.faults lines.new.source.now) }
{
    'lines: while hear_next(trial, lines)? {}
    Ok(())
}

/// Tries each line of a source that was not read yet. It leaves the trial, and how many bytes were taken.
fn try_lines<'a, S: Source>(
    alloc: Global,
    limits: Limits,
    script: &'a [u8],
    lines: &mut Lines<'_, S>,
) -> Result<(Trial<'a>, u64), CheckStop>
    requires going { lines.old.stopped ≡ false }
    requires within { length script.now ≤ limits.bytes }
    requires start { lines.old.window ≡ nothing_read (limits.bytes - length script.now) }
    ensures tried { IfOk result (λ r. AreAllTried limits script.now (ends S.left S.reads lines.old.source.now lines.new.source.now) r.0 r.1) }
    ensures lines { IfOk result (λ r. r.0.lines + 1 < 2 ^ 64) }
    ensures over { result ≡ Err CheckStop.Limit → IsOverLimit limits script.now (ends S.left S.reads lines.old.source.now lines.new.source.now) }
    ensures fault { result ≡ Err CheckStop.Fault → Rose (S.faults lines.old.source.now) (S.faults lines.new.source.now) }
    ensures calm { result ≢ Err CheckStop.Fault → S.faults lines.new.source.now ≡ S.faults lines.old.source.now }
    ensures reads { (S.reads lines.new.source.now).answered + length script.now ≤ (S.reads lines.old.source.now).answered + limits.bytes + 1 }
    ensures end_unread { result ≡ Err CheckStop.Fault → (S.reads lines.new.source.now).ended ≡ (S.reads lines.old.source.now).ended }
    ensures source { lines.new.source.ghost_name ≡ lines.old.source.ghost_name }
{
    let mut trial = Trial::new(alloc, limits, script)?;
    hear_all(&mut trial, lines)?;
    Ok((trial, lines.taken()))
}

/// Tries each line that a source gives, to its end: the one walk of `check` and of `find_parting`, which read their answers off the
/// trial that it leaves, and the number of bytes that were taken.
fn try_all<'a, S: Source>(
    alloc: Global,
    limits: Limits,
    script: &'a [u8],
    source: &mut S,
) -> Result<(Trial<'a>, u64), CheckStop>
    requires within { length script.now ≤ limits.bytes }
    ensures tried { IfOk result (λ r. AreAllTried limits script.now (ends S.left S.reads source.old source.new) r.0 r.1) }
    ensures lines { IfOk result (λ r. r.0.lines + 1 < 2 ^ 64) }
    ensures fault { result ≡ Err CheckStop.Fault → Rose (S.faults source.old) (S.faults source.new) }
    ensures calm { result ≢ Err CheckStop.Fault → S.faults source.new ≡ S.faults source.old }
    ensures over { result ≡ Err CheckStop.Limit → IsOverLimit limits script.now (ends S.left S.reads source.old source.new) }
    ensures reads { (S.reads source.new).answered + length script.now ≤ (S.reads source.old).answered + limits.bytes + 1 }
    ensures end_unread { (result ≡ Err CheckStop.Fault) ⊎ (result ≡ Err CheckStop.Limit) → (S.reads source.new).ended ≡ (S.reads source.old).ended }
{
    let mut lines = Lines::new(source, limits.bytes() - script.len() as u32);
    try_lines(alloc, limits, script, &mut lines)
}

/// Whether what the source gives, to its end, is a lawful transcript of the script, within the limits of the run that it is of.
///
/// The source is read to its end before there is a verdict, whatever it gives. `Fault` where a read failed. `Limit` where script and
/// transcript together have more bytes than the limits allow. `NoMemory` where memory was wanted and not there, at any time.
///
/// It keeps the graph that the script makes, which nothing leaves, and of the transcript the names that were unlinked or freed, and no
/// more than one line.
pub fn check<S: Source>(
    alloc: Global,
    limits: Limits,
    script: &[u8],
    source: &mut S,
) -> Result<Verdict, CheckStop>
    requires within { length script.now ≤ limits.bytes }
    // The verdict is exactly the definition's, on the bytes to the end of the source,
    ensures lawful { result ≡ Ok Verdict.Lawful → IsFoundLawful limits script.now (ends S.left S.reads source.old source.new) }
    ensures unlawful { result ≡ Ok Verdict.Unlawful → IsFoundUnlawful limits script.now (ends S.left S.reads source.old source.new) }
    // so where they are known, it decides.
    ensures decides { (bytes : List ℕ) → S.left source.old ≡ Some bytes → (result ≡ Ok Verdict.Lawful → IsLawfulTranscript limits script.now bytes)
        × (result ≡ Ok Verdict.Unlawful → ¬ (IsLawfulTranscript limits script.now bytes)) }

    // A fault comes only where a read failed, and the limit only where it was passed.
    ensures fault { result ≡ Err CheckStop.Fault → Rose (S.faults source.old) (S.faults source.new) }
    ensures calm { result ≢ Err CheckStop.Fault → S.faults source.new ≡ S.faults source.old }
    ensures over { result ≡ Err CheckStop.Limit → IsOverLimit limits script.now (ends S.left S.reads source.old source.new) }

    // And where there is the cause, there is the answer.
    ensures fault_always { S.faults source.old < S.faults source.new → result ≡ Err CheckStop.Fault }
    ensures over_always { (bytes : List ℕ) → S.left source.old ≡ Some bytes → limits.bytes < length script.now + length bytes →
        ¬ (Rose (S.faults source.old) (S.faults source.new)) → result ≢ Err CheckStop.NoMemory → result ≡ Err CheckStop.Limit }
    ensures within_always { (bytes : List ℕ) → S.left source.old ≡ Some bytes → length script.now + length bytes ≤ limits.bytes →
        result ≢ Err CheckStop.Limit }

    // At most as many reads are answered as there may be bytes, and one more.
    ensures reads { (S.reads source.new).answered + length script.now ≤ (S.reads source.old).answered + limits.bytes + 1 }
    ensures end_unread { (result ≡ Err CheckStop.Fault) ⊎ (result ≡ Err CheckStop.Limit) → (S.reads source.new).ended ≡ (S.reads source.old).ended }
{
    let mut tried = try_all(alloc, limits, script, source)?;
    let taken = tried.1;
    Ok(tried.0.verdict(taken))
}

/// Where what the source gives, to its end, parts from every lawful transcript of the script, within the limits of the run that it is of.
///
/// With the lines up to the one that it names, counted from one, no lawful transcript begins. Where the script reads no weak register, it
/// is the first such line: the lines before it are those of a lawful transcript, and one that ends too early is so far lawful, to its
/// last line. Where it reads one, this is not promised: an object that was freed may be led to again by the native that the register
/// gives later, and whether a census then must list it, which none can, the lines so far do not tell. It is `Lawful` exactly where
/// `check` finds it lawful, and it stops for the causes of `check`.
pub fn find_parting<S: Source>(
    alloc: Global,
    limits: Limits,
    script: &[u8],
    source: &mut S,
) -> Result<Parting, CheckStop>
    requires within { length script.now ≤ limits.bytes }
    // No lawful transcript begins with the lines up to the one that is named, for the cause that is told, and one begins with the lines
    // before it, where the script reads no weak register,
    ensures line { (blame : TheBlame) → result ≡ Ok (Parting.Line blame) →
        IsFoundParted limits script.now (ends S.left S.reads source.old source.new) blame }
    // or one begins with all lines, where the script reads none, and these bytes are none,
    ensures end { result ≡ Ok Parting.End → IsFoundEarly limits script.now (ends S.left S.reads source.old source.new) }
    // or they are one.
    ensures lawful { result ≡ Ok Parting.Lawful → IsFoundLawful limits script.now (ends S.left S.reads source.old source.new) }

    // A fault comes only where a read failed, and the limit only where it was passed.
    ensures fault { result ≡ Err CheckStop.Fault → Rose (S.faults source.old) (S.faults source.new) }
    ensures calm { result ≢ Err CheckStop.Fault → S.faults source.new ≡ S.faults source.old }
    ensures over { result ≡ Err CheckStop.Limit → IsOverLimit limits script.now (ends S.left S.reads source.old source.new) }

    // And where there is the cause, there is the answer.
    ensures fault_always { S.faults source.old < S.faults source.new → result ≡ Err CheckStop.Fault }
    ensures over_always { (bytes : List ℕ) → S.left source.old ≡ Some bytes → limits.bytes < length script.now + length bytes →
        ¬ (Rose (S.faults source.old) (S.faults source.new)) → result ≢ Err CheckStop.NoMemory → result ≡ Err CheckStop.Limit }
    ensures within_always { (bytes : List ℕ) → S.left source.old ≡ Some bytes → length script.now + length bytes ≤ limits.bytes →
        result ≢ Err CheckStop.Limit }

    // At most as many reads are answered as there may be bytes, and one more.
    ensures reads { (S.reads source.new).answered + length script.now ≤ (S.reads source.old).answered + limits.bytes + 1 }
    ensures end_unread { (result ≡ Err CheckStop.Fault) ⊎ (result ≡ Err CheckStop.Limit) → (S.reads source.new).ended ≡ (S.reads source.old).ended }
{
    let mut tried = try_all(alloc, limits, script, source)?;
    let taken = tried.1;
    Ok(tried.0.parting(taken))
}
