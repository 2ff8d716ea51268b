//! Why reading stops before the end.

/// Why reading stopped before the end.
#[derive(Clone, Copy, Debug, PartialEq, Eq, Drop)]
pub enum ReadStop {
    /// A read failed.
    Fault,
    /// The source has more bytes than may be read.
    Limit,
}
