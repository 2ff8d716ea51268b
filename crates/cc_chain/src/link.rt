//! The link of a key.

/// The neighbours of a key in a list: none at an end.
#[derive(Clone, Copy, Debug, PartialEq, Eq, Drop)]
pub struct Link {
    pub before: Option<u32>,
    pub after: Option<u32>,
}
