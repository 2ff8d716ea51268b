//! The error of those that want memory.

use std::alloc::AllocError;
use thiserror::Error;

/// Memory was wanted and not there.
#[derive(Clone, Copy, Debug, PartialEq, Eq, Drop, Error)]
#[error("out of memory")]
pub struct NoMemory;

impl From<AllocError> for NoMemory {
    fn from(_error: AllocError) -> NoMemory {
        NoMemory
    }
}
