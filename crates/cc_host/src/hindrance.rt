//! Why a collection did not come about.

use thiserror::Error;

/// Why a collection did not come to its end.
#[derive(Clone, Copy, Debug, PartialEq, Eq, Drop, Error)]
pub enum Hindrance {
    /// Memory was wanted and not there: the collection was given up, which is told. Nothing is lost or forgotten.
    #[error("out of memory: the collection was given up")]
    NoMemory,
    /// What was told waits to be fetched, and there is no room for more. Nothing was done: fetch it, and call again.
    #[error("what was told waits to be fetched")]
    Unfetched,
}
