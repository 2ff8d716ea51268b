//! The replay of a command script: its lines are read, answered and written. And the check of a transcript: it is read behind
//! its script, and the verdict on it is written.
#![tactic(auto)]

mod answering;
mod checking;
mod making;
mod outlet;
mod program;
mod status;
mod summary;
mod words;

pub use checking::check_input;
pub use making::make;
pub use program::{replay, run};
pub use status::Status;
