//! A whole run: by limits, and by the words of a command line.

ghost use Rattle.std.specs.Prelude.{◌≡◌, true, ◌≢◌, ◌<◌, ◌≤◌, ◌+◌, ◌⊎◌, ℕ, List, length, Some};
ghost use Rattle.cc_names.specs.Allowance.{Allowance};
ghost use Rattle.cc_lists.specs.Faults.{Rose};
ghost use Rattle.cc_outside.specs.Counted.{raised};
ghost use Rattle.cc_replay.specs.Transcripts.{ends, IsDone, StopsAtFault, StopsAtLimit, StopsAtWrite};
ghost use Rattle.cc_replay.specs.Words.{texts, AreForCheck, GivesCheck, GivesLimits, GivesMade, IsTaken};
ghost use Rattle.cc_replay.specs.Summaries.{WritesSummary, WritesSummaryFront};
ghost use Rattle.cc_replay.specs.Verdicts.{IsLawfulInput, PassesLimit, WritesLawful, WritesUnlawful, WritesVerdictFront};

use crate::answering::answer_input;
use crate::checking::check_input;
use crate::making::make;
use crate::outlet::Outlet;
use crate::status::Status;
use crate::words::{Request, WordsStop, request_of};
use cc_heaps::Heaps;
use cc_names::Limits;
use cc_outside::{Sink, Source};
use cc_reader::Lines;
use cc_weakrefs::WeakRegs;
use std::alloc::Global;

/// Answers each line of the source, within the limits, and writes the answers to the sink.
///
/// A line is answered whole before the next is read. Each line of the output is one piece, and goes on with the rest
/// where the sink takes less.
///
/// Each read that is answered takes a byte at least, but for one that says 0, which is the end. With `Done` one read said
/// so, and none failed. With a failed read, or the limit passed, none said so; with a failed write one did where the last
/// line, which was to be answered, lacks its line feed. So no read follows the end: one more could say it again, or fail,
/// and there would be no status for that.
pub fn replay<S: Source, K: Sink>(
    alloc: Global,
    limits: Limits,
    source: &mut S,
    sink: &mut K,
) -> Status
    // What is written with each status is the text of a transcript, whole or up to where a write failed.
    ensures done { result ≡ Status.Done → IsDone limits (ends S.left S.reads K.written source.old source.new sink.old sink.new) }
    ensures fault { result ≡ Status.ReadFault → StopsAtFault limits (ends S.left S.reads K.written source.old source.new sink.old sink.new) }
    ensures over { result ≡ Status.Limit → StopsAtLimit limits (ends S.left S.reads K.written source.old source.new sink.old sink.new) }
    ensures front { result ≡ Status.WriteFault → StopsAtWrite limits (ends S.left S.reads K.written source.old source.new sink.old sink.new) }
    ensures set_up { result ≡ Status.NoMemory → (source.new ≡ source.old) × (sink.new ≡ sink.old) }

    // At most as many reads are answered as the limit on bytes, and one: for the byte above it, or for the end.
    ensures reads { (S.reads source.new).answered ≤ (S.reads source.old).answered + limits.bytes + 1 }
    ensures end_read { result ≡ Status.Done → (S.reads source.new).ended ≡ raised (S.reads source.old).ended 1 }
    ensures end_unread { result ≢ Status.Done → result ≢ Status.WriteFault → (S.reads source.new).ended ≡ (S.reads source.old).ended }

    // Each fault has its cause.
    ensures read { result ≡ Status.ReadFault → Rose (S.faults source.old) (S.faults source.new) }
    ensures read_well { result ≢ Status.ReadFault → S.faults source.new ≡ S.faults source.old }
    ensures write { result ≡ Status.WriteFault → Rose (K.faults sink.old) (K.faults sink.new) }
    ensures written_well { result ≢ Status.WriteFault → K.faults sink.new ≡ K.faults sink.old }
    ensures no_usage { result ≢ Status.Usage }
    ensures no_verdict { result ≢ Status.Unlawful }

    // Nothing is written after a write that failed: one at most fails, and it is the last.
    ensures write_once { result ≡ Status.WriteFault → K.faults sink.new ≡ raised (K.faults sink.old) 1 }
    ensures write_last { result ≡ Status.WriteFault → (K.writes sink.new).last_failed ≡ true }

    // And where there is the cause, there is the answer.
    ensures fault_always { S.faults source.old < S.faults source.new → result ≡ Status.ReadFault }
    ensures write_always { K.faults sink.old < K.faults sink.new → result ≡ Status.WriteFault }
    ensures over_always { (bytes : List ℕ) → S.left source.old ≡ Some bytes → limits.bytes < length bytes →
        ¬ (Rose (S.faults source.old) (S.faults source.new)) → ¬ (Rose (K.faults sink.old) (K.faults sink.new)) →
        result ≢ Status.NoMemory → result ≡ Status.Limit }
    ensures done_always { (bytes : List ℕ) → S.left source.old ≡ Some bytes → length bytes ≤ limits.bytes →
        ¬ (Rose (S.faults source.old) (S.faults source.new)) → ¬ (Rose (K.faults sink.old) (K.faults sink.new)) →
        result ≢ Status.NoMemory → result ≡ Status.Done }
{
    let Ok(mut heaps) = Heaps::new(alloc, limits) else {
        return Status::NoMemory;
    };
    let Ok(mut weak) = WeakRegs::new(alloc) else {
        return Status::NoMemory;
    };
    let mut lines = Lines::new(source, limits.bytes());
    let mut out = Outlet {
        sink,
        broken: false,
    };
    answer_input(alloc, &mut lines, &mut heaps, &mut weak, &mut out)
}

/// How a run ends whose words ask for nothing.
fn status_of(stop: WordsStop) -> Status
    ensures either { (result ≡ Status.Usage) ⊎ (result ≡ Status.NoMemory) }
    ensures usage { result ≡ Status.Usage → stop ≡ WordsStop.Usage }
{
    match stop {
        WordsStop::Usage => Status::Usage,
        WordsStop::NoMemory => Status::NoMemory,
    }
}

/// Reads the words of a command line, the program's name first, and answers the source's lines, or a made script, or says
/// whether a transcript is lawful, as they say: for the words of `replay` as `replay` does, for those of `make` as `make`
/// does, for those of `check` as `check_input` does.
///
/// Want of memory is answered for the words, for setting up, and in a check. A command that wants memory is refused by its
/// answer.
///
/// For the words of `replay` the source is read as `replay` reads it, for those of `check` as `check_input` reads it, for those
/// of `make` not at all.
pub fn run<'a, S: Source, K: Sink>(
    alloc: Global,
    words: &'a [&'a str],
    source: &mut S,
    sink: &mut K,
) -> Status
    // For every input, what is written is the transcript of an object graph from which nothing is freed; each further part of
    // the sentence is a field of `TellsOfAGraph`, of the same answers: of the whole input with `Done`; or, for the words of
    // `make`, it is the summary of one; or, for the words of `check`, it says that the transcript in the input is lawful,
    ensures done { result ≡ Status.Done →
        ((limits : Allowance) × GivesLimits (texts words.entry.now) limits
        × IsDone limits (ends S.left S.reads K.written source.old source.new sink.old sink.new))
        ⊎ (((seed count : ℕ) × GivesMade (texts words.entry.now) seed count
        × WritesSummary seed count (K.written sink.old) (K.written sink.new))
        ⊎ ((script : ℕ) × (limits : Allowance) × GivesCheck (texts words.entry.now) script limits
        × WritesLawful limits script (ends S.left S.reads K.written source.old source.new sink.old sink.new))) }
    // or that it is not;
    ensures unlawful { result ≡ Status.Unlawful → (script : ℕ) × (limits : Allowance) × GivesCheck (texts words.entry.now) script limits
        × WritesUnlawful limits script (ends S.left S.reads K.written source.old source.new sink.old sink.new) }
    // where a read failed, of the lines that ended, or nothing is written in a check,
    ensures fault { result ≡ Status.ReadFault →
        ((limits : Allowance) × GivesLimits (texts words.entry.now) limits
        × StopsAtFault limits (ends S.left S.reads K.written source.old source.new sink.old sink.new))
        ⊎ ((script : ℕ) × (limits : Allowance) × GivesCheck (texts words.entry.now) script limits × (sink.new ≡ sink.old)) }
    // where there are more bytes than the limit, of the lines that ended within it, or nothing in a check,
    ensures over { result ≡ Status.Limit →
        ((limits : Allowance) × GivesLimits (texts words.entry.now) limits
        × StopsAtLimit limits (ends S.left S.reads K.written source.old source.new sink.old sink.new))
        ⊎ ((script : ℕ) × (limits : Allowance) × GivesCheck (texts words.entry.now) script limits × (sink.new ≡ sink.old)
        × PassesLimit limits.bytes (S.left source.old) (S.left source.new) (S.reads source.old) (S.reads source.new)) }
    // and where a write failed, a front of one.
    ensures front { result ≡ Status.WriteFault →
        ((limits : Allowance) × GivesLimits (texts words.entry.now) limits
        × StopsAtWrite limits (ends S.left S.reads K.written source.old source.new sink.old sink.new))
        ⊎ (((seed count : ℕ) × GivesMade (texts words.entry.now) seed count
        × WritesSummaryFront seed count (K.written sink.old) (K.written sink.new))
        ⊎ ((script : ℕ) × (limits : Allowance) × GivesCheck (texts words.entry.now) script limits
        × WritesVerdictFront limits script (ends S.left S.reads K.written source.old source.new sink.old sink.new))) }
    // Want of memory: nothing was written, and nothing was read but in a check.
    ensures set_up { result ≡ Status.NoMemory → (¬ (AreForCheck (texts words.entry.now)) → source.new ≡ source.old) × (sink.new ≡ sink.old) }

    // Usage comes only for words that are not taken,
    ensures usage { result ≡ Status.Usage → ¬ (IsTaken (texts words.entry.now)) }
    // every other status but want of memory only for words that are,
    ensures taken { result ≢ Status.Usage → result ≢ Status.NoMemory → IsTaken (texts words.entry.now) }
    // and with it nothing is read or written.
    ensures unread { result ≡ Status.Usage → (source.new ≡ source.old) × (sink.new ≡ sink.old) }
    // Where the bytes are known, a check decides whether they are a script with a lawful transcript.
    ensures decides { (bytes : List ℕ) (script : ℕ) (limits : Allowance) → S.left source.old ≡ Some bytes →
        GivesCheck (texts words.entry.now) script limits →
        (result ≡ Status.Done → IsLawfulInput limits script bytes) × (result ≡ Status.Unlawful → ¬ (IsLawfulInput limits script bytes)) }

    // At most as many reads are answered as the limit on bytes, and one: for the byte above it, or for the end.
    ensures reads { (limits : Allowance) → GivesLimits (texts words.entry.now) limits →
        (S.reads source.new).answered ≤ (S.reads source.old).answered + limits.bytes + 1 }
    ensures check_reads { (script : ℕ) (limits : Allowance) → GivesCheck (texts words.entry.now) script limits →
        (S.reads source.new).answered ≤ (S.reads source.old).answered + limits.bytes + 1 }
    // The end is read once where all was read,
    ensures end_read { (limits : Allowance) → GivesLimits (texts words.entry.now) limits →
        result ≡ Status.Done → (S.reads source.new).ended ≡ raised (S.reads source.old).ended 1 }
    ensures check_end_read { (script : ℕ) (limits : Allowance) → GivesCheck (texts words.entry.now) script limits →
        (result ≡ Status.Done) ⊎ (result ≡ Status.Unlawful) → (S.reads source.new).ended ≡ raised (S.reads source.old).ended 1 }
    // and not at all where a read failed or the limit was passed.
    ensures end_unread { ¬ (AreForCheck (texts words.entry.now)) → result ≢ Status.Done → result ≢ Status.WriteFault →
        (S.reads source.new).ended ≡ (S.reads source.old).ended }
    ensures check_end_unread { (result ≡ Status.ReadFault) ⊎ (result ≡ Status.Limit) → (S.reads source.new).ended ≡ (S.reads source.old).ended }
    // For the words of `make` nothing is read.
    ensures no_source { (seed count : ℕ) → GivesMade (texts words.entry.now) seed count → source.new ≡ source.old }

    // A fault of reading comes only where the source's count of faults rose,
    ensures read { result ≡ Status.ReadFault → Rose (S.faults source.old) (S.faults source.new) }
    // which otherwise stays;
    ensures read_well { result ≢ Status.ReadFault → S.faults source.new ≡ S.faults source.old }
    // a fault of writing only where the sink's rose,
    ensures write { result ≡ Status.WriteFault → Rose (K.faults sink.old) (K.faults sink.new) }
    // which otherwise stays.
    ensures written_well { result ≢ Status.WriteFault → K.faults sink.new ≡ K.faults sink.old }

    // Nothing is written after a write that failed: one at most fails,
    ensures write_once { result ≡ Status.WriteFault → K.faults sink.new ≡ raised (K.faults sink.old) 1 }
    // and it is the last.
    ensures write_last { result ≡ Status.WriteFault → (K.writes sink.new).last_failed ≡ true }

    // And where there is the cause, there is the status: a count of the source that rose,
    ensures fault_always { S.faults source.old < S.faults source.new → result ≡ Status.ReadFault }
    // a count of the sink that rose,
    ensures write_always { K.faults sink.old < K.faults sink.new → result ≡ Status.WriteFault }
    // and where none rose, more bytes than the limit,
    ensures over_always { (bytes : List ℕ) (limits : Allowance) → S.left source.old ≡ Some bytes →
        IsTaken (texts words.entry.now) → GivesLimits (texts words.entry.now) limits → limits.bytes < length bytes →
        ¬ (Rose (S.faults source.old) (S.faults source.new)) → ¬ (Rose (K.faults sink.old) (K.faults sink.new)) →
        result ≢ Status.NoMemory → result ≡ Status.Limit }
    ensures check_over_always { (bytes : List ℕ) (script : ℕ) (limits : Allowance) → S.left source.old ≡ Some bytes →
        IsTaken (texts words.entry.now) → GivesCheck (texts words.entry.now) script limits → limits.bytes < length bytes →
        ¬ (Rose (S.faults source.old) (S.faults source.new)) → ¬ (Rose (K.faults sink.old) (K.faults sink.new)) →
        result ≢ Status.NoMemory → result ≡ Status.Limit }
    // or at most as many: then all is answered,
    ensures done_always { (bytes : List ℕ) (limits : Allowance) → S.left source.old ≡ Some bytes →
        IsTaken (texts words.entry.now) → GivesLimits (texts words.entry.now) limits → length bytes ≤ limits.bytes →
        ¬ (Rose (S.faults source.old) (S.faults source.new)) → ¬ (Rose (K.faults sink.old) (K.faults sink.new)) →
        result ≢ Status.NoMemory → result ≡ Status.Done }
    // or there is a verdict.
    ensures verdict_always { (bytes : List ℕ) (script : ℕ) (limits : Allowance) → S.left source.old ≡ Some bytes →
        IsTaken (texts words.entry.now) → GivesCheck (texts words.entry.now) script limits → length bytes ≤ limits.bytes →
        ¬ (Rose (S.faults source.old) (S.faults source.new)) → ¬ (Rose (K.faults sink.old) (K.faults sink.new)) →
        result ≢ Status.NoMemory → (result ≡ Status.Done) ⊎ (result ≡ Status.Unlawful) }
    // A made script is always answered whole.
    ensures made_always { (seed count : ℕ) → IsTaken (texts words.entry.now) → GivesMade (texts words.entry.now) seed count →
        ¬ (Rose (K.faults sink.old) (K.faults sink.new)) → result ≢ Status.NoMemory → result ≡ Status.Done }
{
    let request = match request_of(alloc, words) {
        Ok(request) => request,
        Err(stop) => return status_of(stop),
    };
    match request {
        Request::Replay(limits) => replay(alloc, limits, source, sink),
        Request::Make { seed, count } => make(alloc, seed, count, sink),
        Request::Check { script, limits } => check_input(alloc, script, limits, source, sink),
    }
}
