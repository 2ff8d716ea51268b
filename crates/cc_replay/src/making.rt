//! A made run: a script is made, its answers are counted, and a summary of them is written.

ghost use Rattle.std.specs.Prelude.{◌≡◌, true, ◌≢◌, ◌<◌, ◌≤◌, IfOk};
ghost use Rattle.cc_lists.specs.Faults.{raised, Rose};
ghost use Rattle.cc_replay.specs.Summaries.{IsMadeRun, WritesSummary, WritesSummaryFront};

use crate::answering::answer_input;
use crate::status::Status;
use crate::summary::write_summary;
use cc_heaps::Heaps;
use cc_made::MadeSource;
use cc_model::{Counter, Sums};
use cc_names::{Limits, NoMemory};
use cc_outside::Sink;
use cc_reader::Lines;
use cc_weakrefs::WeakRegs;
use std::alloc::Global;

/// The sums over the answers to a made script, within the widest limits.
///
/// `NoMemory` only in setting up. A command that wants memory later is refused by its answer.
fn made_sums(alloc: Global, seed: u64, count: u32) -> Result<Sums, NoMemory>
    requires { count ≤ 1000000 }
    ensures { IfOk result (λ sums. IsMadeRun seed count sums) }
{
    let limits = Limits::widest();
    let mut heaps = Heaps::new(alloc, limits)?;
    let mut weak = WeakRegs::new(alloc)?;
    let mut source = MadeSource::new(seed, count);
    let mut lines = Lines::new(&mut source, limits.bytes());
    let mut counter = Counter::new();
    let status = answer_input(alloc, &mut lines, &mut heaps, &mut weak, &mut counter);
    // The source never fails, and has fewer bytes than the limit.
    prove!(status == Status::Done);
    Ok(counter.sums())
}

/// Answers a made script, and writes the summary of the answers to the sink.
///
/// The script has `count` lines, 0 to 1000000, drawn from `seed`, and twenty more, which empty the registers, collect and
/// take a census. The limits are the widest. The lines are answered as `replay` answers them, but each answer is counted
/// and none is written; nothing is read.
///
/// `NoMemory` only in setting up. A command that wants memory later is refused, which the summary counts.
pub fn make<K: Sink>(alloc: Global, seed: u64, count: u32, sink: &mut K) -> Status
    requires { count ≤ 1000000 }
    // What is written is the summary of a run of what the script asks, whole or up to where a write failed.
    ensures done { result ≡ Status.Done → WritesSummary seed count (K.written sink.old) (K.written sink.new) }
    ensures front { result ≡ Status.WriteFault → WritesSummaryFront seed count (K.written sink.old) (K.written sink.new) }
    ensures set_up { result ≡ Status.NoMemory → sink.new ≡ sink.old }
    ensures others { (result ≢ Status.Usage) × (result ≢ Status.ReadFault) × (result ≢ Status.Limit) × (result ≢ Status.Unlawful) }

    // A fault has its cause,
    ensures write { result ≡ Status.WriteFault → Rose (K.faults sink.old) (K.faults sink.new) }
    ensures written_well { result ≢ Status.WriteFault → K.faults sink.new ≡ K.faults sink.old }
    // after one write that failed there is no other,
    ensures write_once { result ≡ Status.WriteFault → K.faults sink.new ≡ raised (K.faults sink.old) 1 }
    ensures write_last { result ≡ Status.WriteFault → (K.writes sink.new).last_failed ≡ true }
    // and where there is the cause, there is the answer.
    ensures write_always { K.faults sink.old < K.faults sink.new → result ≡ Status.WriteFault }
    ensures done_always { ¬ (Rose (K.faults sink.old) (K.faults sink.new)) → result ≢ Status.NoMemory → result ≡ Status.Done }
{
    let Ok(sums) = made_sums(alloc, seed, count) else {
        return Status::NoMemory;
    };
    if write_summary(&sums, sink).is_err() {
        return Status::WriteFault;
    }
    Status::Done
}
