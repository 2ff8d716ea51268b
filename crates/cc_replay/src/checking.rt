//! A check: a script is read, and the verdict on the transcript behind it is written.

ghost use Rattle.std.specs.Prelude.{◌≡◌, ◌≢◌, ◌+◌, ◌<◌, ◌≤◌, ◌⊎◌, ℕ, List, [], length, true, Some, Ok, Err, IfOk};
ghost use Rattle.cc_lists.specs.Faults.{raised, Rose};
ghost use Rattle.cc_replay.specs.Transcripts.{ends};
ghost use Rattle.cc_replay.specs.Verdicts.{line_of_verdict, IsJudged, IsLawfulInput, IsVerdict, PassesLimit, ReadsScript, WritesLawful, WritesUnlawful, WritesVerdictFront};

use crate::outlet::write_all;
use crate::status::Status;
use cc_check::{CheckStop, Verdict};
use cc_names::Limits;
use cc_outside::{Sink, Source, SureSource};
use std::alloc::Global;

/// Reads the first `most` bytes of the source, or all if there are fewer.
///
/// No byte behind them is taken. Of a script that is above the limit one byte more is taken than the limit allows, which
/// is `Limit`.
fn read_script<S: Source>(
    alloc: Global,
    most: u32,
    limit: u32,
    source: &mut S,
) -> Result<Vec<u8>, CheckStop>
    ensures script { IfOk result (λ script. ReadsScript most limit (S.left source.old) (S.left source.new) (S.reads source.old)
        (S.reads source.new) script.items) }
    ensures over { result ≡ Err CheckStop.Limit → PassesLimit limit (S.left source.old) (S.left source.new) (S.reads source.old) (S.reads source.new) }
    ensures reads { (S.reads source.new).answered ≤ (S.reads source.old).answered + limit + 1 }
    ensures end_unread { (result ≡ Err CheckStop.Fault) ⊎ (result ≡ Err CheckStop.Limit) → (S.reads source.new).ended ≡ (S.reads source.old).ended }
    ensures fault { result ≡ Err CheckStop.Fault → Rose (S.faults source.old) (S.faults source.new) }
    ensures calm { result ≢ Err CheckStop.Fault → S.faults source.new ≡ S.faults source.old }
{
    let wanted = (most as usize).min(limit as usize + 1);
    let mut script = Vec::new(alloc);
    let mut buffer = [0; 4096];
    'pieces: while script.len() < wanted {
        let room = buffer.len().min(wanted - script.len());
        let Ok(count) = source.read(&mut buffer[..room]) else {
            return Err(CheckStop::Fault);
        };
        if count == 0 {
            return Ok(script);
        }
        if script.extend_from_slice(&buffer[..count]).is_err() {
            return Err(CheckStop::NoMemory);
        }
    }
    if script.len() > limit as usize {
        return Err(CheckStop::Limit);
    }
    Ok(script)
}

/// The verdict on a transcript without a byte.
fn verdict_on_nothing(alloc: Global, limits: Limits, script: &[u8]) -> Result<Verdict, CheckStop>
    requires { length script.now ≤ limits.bytes }
    ensures verdict { IfOk result (λ verdict. IsVerdict verdict limits script.now []) }
    ensures others { (result ≢ Err CheckStop.Fault) × (result ≢ Err CheckStop.Limit) }
{
    let mut nothing = SureSource::new(Vec::new(alloc));
    cc_check::check(alloc, limits, script, &mut nothing)
}

/// The verdict on a source: its first `script` bytes, or all if there are fewer, are a script, and the rest is a
/// transcript of it. The source is read to its end, and not again after it.
fn verdict_on<S: Source>(
    alloc: Global,
    script: u32,
    limits: Limits,
    source: &mut S,
) -> Result<Verdict, CheckStop>
    ensures verdict { IfOk result (λ verdict. IsJudged limits script (S.left source.old) (S.left source.new) (S.reads source.old)
        (S.reads source.new) verdict) }
    ensures over { result ≡ Err CheckStop.Limit → PassesLimit limits.bytes (S.left source.old) (S.left source.new) (S.reads source.old) (S.reads source.new) }
    ensures reads { (S.reads source.new).answered ≤ (S.reads source.old).answered + limits.bytes + 1 }
    ensures end_unread { (result ≡ Err CheckStop.Fault) ⊎ (result ≡ Err CheckStop.Limit) → (S.reads source.new).ended ≡ (S.reads source.old).ended }
    ensures fault { result ≡ Err CheckStop.Fault → Rose (S.faults source.old) (S.faults source.new) }
    ensures calm { result ≢ Err CheckStop.Fault → S.faults source.new ≡ S.faults source.old }
{
    let bytes = read_script(alloc, script, limits.bytes(), source)?;
    if bytes.len() < script as usize {
        return verdict_on_nothing(alloc, limits, bytes.as_slice());
    }
    cc_check::check(alloc, limits, bytes.as_slice(), source)
}

/// How a run ends that comes to no verdict.
fn status_of(stop: CheckStop) -> Status
    ensures fault { stop ≡ CheckStop.Fault → result ≡ Status.ReadFault }
    ensures over { stop ≡ CheckStop.Limit → result ≡ Status.Limit }
    ensures no_memory { stop ≡ CheckStop.NoMemory → result ≡ Status.NoMemory }
{
    match stop {
        CheckStop::Fault => Status::ReadFault,
        CheckStop::Limit => Status::Limit,
        CheckStop::NoMemory => Status::NoMemory,
    }
}

/// How a run ends whose verdict is written.
fn status_with(verdict: Verdict) -> Status
    ensures lawful { verdict ≡ Verdict.Lawful → result ≡ Status.Done }
    ensures unlawful { verdict ≡ Verdict.Unlawful → result ≡ Status.Unlawful }
{
    match verdict {
        Verdict::Lawful => Status::Done,
        Verdict::Unlawful => Status::Unlawful,
    }
}

/// The line of a verdict.
fn line_of(verdict: Verdict) -> &'static [u8]
    ensures { result.now ≡ line_of_verdict verdict }
{
    match verdict {
        Verdict::Lawful => b"lawful\n",
        Verdict::Unlawful => b"unlawful\n",
    }
}

/// Reads a script and a transcript of it from the source, and writes whether the transcript is lawful to the sink.
///
/// The first `script` bytes of the source, or all if there are fewer, are the script, and the rest is the transcript.
/// `limits` are those of the run that the transcript is of; script and transcript together may have as many bytes as they
/// allow. `Done` where the transcript is lawful, and `lawful` and a line feed is written; `Unlawful` where it is not, and
/// `unlawful` and a line feed is written. The line is one piece, and goes on with the rest where the sink takes less.
///
/// Nothing is written before the source was read to its end, and nothing with `ReadFault`, `Limit` or `NoMemory`. Memory may
/// be wanted and not there at any time.
///
/// Each read that is answered takes a byte at least, but for one that says 0, which is the end. No read follows it.
pub fn check_input<S: Source, K: Sink>(
    alloc: Global,
    script: u32,
    limits: Limits,
    source: &mut S,
    sink: &mut K,
) -> Status
    // The verdict is exactly the definition's, on the bytes to the end of the source, and it is what is written,
    ensures lawful { result ≡ Status.Done → WritesLawful limits script (ends S.left S.reads K.written source.old source.new sink.old sink.new) }
    ensures unlawful { result ≡ Status.Unlawful → WritesUnlawful limits script (ends S.left S.reads K.written source.old source.new sink.old sink.new) }
    // or a front of it, where a write failed.
    ensures front { result ≡ Status.WriteFault → WritesVerdictFront limits script (ends S.left S.reads K.written source.old source.new sink.old sink.new) }
    // Where the bytes are known it decides.
    ensures decides { (bytes : List ℕ) → S.left source.old ≡ Some bytes → (result ≡ Status.Done → IsLawfulInput limits script bytes)
        × (result ≡ Status.Unlawful → ¬ (IsLawfulInput limits script bytes)) }
    // Nothing is written with another status.
    ensures over { result ≡ Status.Limit → PassesLimit limits.bytes (S.left source.old) (S.left source.new) (S.reads source.old) (S.reads source.new) }
    ensures unwritten { (result ≡ Status.ReadFault) ⊎ (result ≡ Status.Limit) ⊎ (result ≡ Status.NoMemory) → sink.new ≡ sink.old }
    ensures no_usage { result ≢ Status.Usage }

    // At most as many reads are answered as the limit on bytes, and one: for the byte above it, or for the end.
    ensures reads { (S.reads source.new).answered ≤ (S.reads source.old).answered + limits.bytes + 1 }
    ensures end_read { (result ≡ Status.Done) ⊎ (result ≡ Status.Unlawful) → (S.reads source.new).ended ≡ raised (S.reads source.old).ended 1 }
    ensures end_unread { (result ≡ Status.ReadFault) ⊎ (result ≡ Status.Limit) → (S.reads source.new).ended ≡ (S.reads source.old).ended }

    // Each fault has its cause.
    ensures read { result ≡ Status.ReadFault → Rose (S.faults source.old) (S.faults source.new) }
    ensures read_well { result ≢ Status.ReadFault → S.faults source.new ≡ S.faults source.old }
    ensures write { result ≡ Status.WriteFault → Rose (K.faults sink.old) (K.faults sink.new) }
    ensures written_well { result ≢ Status.WriteFault → K.faults sink.new ≡ K.faults sink.old }

    // Nothing is written after a write that failed: one at most fails, and it is the last.
    ensures write_once { result ≡ Status.WriteFault → K.faults sink.new ≡ raised (K.faults sink.old) 1 }
    ensures write_last { result ≡ Status.WriteFault → (K.writes sink.new).last_failed ≡ true }

    // And where there is the cause, there is the answer.
    ensures fault_always { S.faults source.old < S.faults source.new → result ≡ Status.ReadFault }
    ensures write_always { K.faults sink.old < K.faults sink.new → result ≡ Status.WriteFault }
    ensures over_always { (bytes : List ℕ) → S.left source.old ≡ Some bytes → limits.bytes < length bytes →
        ¬ (Rose (S.faults source.old) (S.faults source.new)) → ¬ (Rose (K.faults sink.old) (K.faults sink.new)) →
        result ≢ Status.NoMemory → result ≡ Status.Limit }
    ensures verdict_always { (bytes : List ℕ) → S.left source.old ≡ Some bytes → length bytes ≤ limits.bytes →
        ¬ (Rose (S.faults source.old) (S.faults source.new)) → ¬ (Rose (K.faults sink.old) (K.faults sink.new)) →
        result ≢ Status.NoMemory → (result ≡ Status.Done) ⊎ (result ≡ Status.Unlawful) }
{
    let verdict = match verdict_on(alloc, script, limits, source) {
        Ok(verdict) => verdict,
        Err(stop) => return status_of(stop),
    };
    if write_all(sink, line_of(verdict)).is_err() {
        return Status::WriteFault;
    }
    status_with(verdict)
}
