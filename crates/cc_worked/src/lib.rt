//! Worked examples as theorems, and transcripts right and wrong that pin what lawful and quiet mean.
//!
//! An example is a script with its limits, its wishes for memory that are refused, and what it makes the program write.
//! The examples stand in a table, `examples/worked.txt`, which says what each one shows; of it the tool
//! `tools/worked_examples.py` makes `specs/Inputs.antt`, and `proofs/Examples1.antt` and the files after that. There
//! each example is proved by computation (`Works`): the plain run of its input writes its output, is lawful and quiet, and
//! passes the audit. The audit tests at the beginning and after each ask that the running collection's snapshot is fresh
//! and that no unreached native is forgotten. Both tests say yes only where the relation holds (`audit_is_sound`).
//!
//! Whether a transcript is lawful, and whether it is quiet, is decided by tests that compute (`verdict_decides`). So a
//! transcript that is written by hand has a theorem: that it is right, or that its last answer is not, while all else in
//! it is. The wrong ones have one fault each, and there is one for each clause of both definitions; the right ones stand
//! at the limits of what the clauses allow. `specs/Transcripts.antt` has the words for them; `WrongReplies`,
//! `WrongPaths`, `WrongEvents`, `Garbage` and `Right` beside it have the transcripts, each under a name that says its fault.
//!
//! Each function has an empty body, and is a law that its clauses state.
#![tactic(auto)]

mod audit;
mod garbage;
mod right;
mod verdict;
mod worked;
mod wrong;

pub use audit::audit_is_sound;
pub use garbage::{garbage_may_stay, unquiet_censuses_are_refused};
pub use right::right_transcripts_pass;
pub use verdict::verdict_decides;
pub use worked::{examples_are_lawful, examples_are_quiet, examples_write_their_lines};
pub use wrong::{
    false_wants_of_memory_are_refused, misplaced_answers_are_refused,
    wrong_abandonments_are_refused, wrong_censuses_are_refused, wrong_events_are_refused,
    wrong_paths_are_refused, wrong_replies_are_refused,
};
