//! What a weak register notes.

use cc_names::{NKey, NativeNo};
use std::mem::size_of;

/// What a weak register notes: a native, by its key and by its number. The native may be no more, and its key may have been
/// given out again; its number is not.
#[derive(Clone, Copy, Debug, PartialEq, Eq, Drop)]
pub struct Noted {
    /// Where the native stood in its heap.
    pub key: NKey,
    /// Its number, by which it is known for good.
    pub number: NativeNo,
}

// which is all that a weak reference costs
const _: () = prove!(size_of::<Option<Noted>>() == 12);
