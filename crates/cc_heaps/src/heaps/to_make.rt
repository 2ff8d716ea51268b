//! What is made.

use cc_names::{SKey, SlotNo};

/// What is made: a plain object with so many empty slots, a weak map, or a proxy of its delegate.
#[derive(Clone, Copy, Drop)]
pub(crate) enum ToMake {
    Plain(SlotNo),
    Map,
    Proxy(SKey),
}
