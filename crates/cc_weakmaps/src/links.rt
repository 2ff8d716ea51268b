//! Where the entries before one stand that share its map, its key or its delegate.

/// Of an entry, the last places before it of its map, of its key and of its delegate: of entries that have it for their map,
/// their key or their delegate.
#[derive(Clone, Copy, Drop)]
pub(crate) struct Links {
    pub(crate) by_map: Option<u32>,
    pub(crate) by_key: Option<u32>,
    pub(crate) by_delegate: Option<u32>,
}
