//! Why no object was made.
/// Why no object was made.
#[derive(Clone, Copy, Debug, PartialEq, Eq, Drop)]
pub enum MakeStop {
    /// As many objects of the kind as the limit were ever made.
    Full,
    /// Want of memory.
    NoMemory,
}
