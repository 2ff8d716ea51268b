//! What a program keeps of a native that it does not keep alive.

use cc_names::{NKey, NativeNo};

/// A weak reference: a native by its number, the key at which it stood, and the mark of its host. To keep one keeps nothing
/// alive, and costs the host nothing. It may be kept for ever.
///
/// The key finds the native, and the number tells whether it is still that one: no number is used twice.
#[derive(Clone, Copy, Debug, PartialEq, Eq, Drop)]
pub struct Weak {
    pub number: NativeNo,
    pub key: NKey,
    pub mark: u64,
}
