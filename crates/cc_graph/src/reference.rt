//! A noted reference.

/// A noted reference.
#[derive(Clone, Copy, Drop)]
pub(crate) struct Reference {
    /// the number of the node that has it
    pub(crate) source: u32,
    /// the number of the one that it leads to
    pub(crate) target: u32,
    /// the place of the next one of the same source; none where it is the last
    pub(crate) next: Option<u32>,
}
