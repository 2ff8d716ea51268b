//! A checker of transcripts: whether a collector's answers to a script are those of an object graph from which nothing is freed.
//!
//! It reads the transcript line by line, and keeps the object graph that the script made so far, the names that a census would
//! list, and the answer that it is in, and the
//! names that have ended, which decide what a weak register gives. Each line is compared with what may come there: a reply with the graph's, a census with
//! the listed names, an event with what no register reaches. What the registers reach is found once for a command that frees or
//! unlinks something, in time that goes with what is reached.
//!
//! Where a line may not come, the judge stands in the answer that the line is none of, and is asked once why. So a cause costs nothing
//! before the line that has one. `specs/Causes.antt` says of each cause what is the case.
//!
//! No heap, no colour, no count and no collection stands behind it: a transcript of any collector may be checked.
#![tactic(auto)]

mod answer;
mod asked;
mod asking;
mod beginning;
mod cause;
mod causes;
mod checking;
mod commands;
mod ended;
mod heard;
mod judge;
mod known;
mod lengths;
mod numbers;
mod parting;
mod reading;
mod reciting;
mod row;
mod script;
mod stepping;
mod telling;
mod trial;
mod verdict;
mod within;

pub use cause::Cause;
pub use checking::{check, find_parting};
pub use parting::{Blame, Parting};
pub use telling::describe;
pub use verdict::{CheckStop, Verdict};
