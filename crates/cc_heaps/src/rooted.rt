//! What a place of a bank of registers is to hold.
use cc_names::{NKey, SKey};

/// What a place of a bank of registers is to hold: of the bank of natives a native, of the bank of script objects a script
/// object, or nothing.
#[derive(Clone, Copy, Debug, PartialEq, Eq, Drop)]
pub enum Rooted {
    /// In the bank of natives.
    Native(Option<NKey>),
    /// In the bank of script objects.
    Script(Option<SKey>),
}
