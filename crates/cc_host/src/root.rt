//! What a program keeps of a root.

/// A root that holds an object until it is released. It is of one host, and is never used twice.
///
/// `index` is its place among the roots, which another root may have once this one is released; `serial` is its own alone.
#[derive(Clone, Copy, Debug, PartialEq, Eq, Drop)]
pub struct Root {
    pub index: u32,
    pub serial: u64,
    pub mark: u64,
}
