//! What stands in a made line behind its word.

/// What stands behind the word of a form.
#[derive(Clone, Copy, Debug, PartialEq, Eq, Drop)]
pub(crate) enum Operand {
    /// A native register, `n0` to `n7`, which a word that is drawn picks.
    Native,
    /// A script register, `s0` to `s7`, which a word that is drawn picks.
    Script,
    /// The index of a slot, 0 to 3, which a word that is drawn picks.
    Index,
    /// How many units are to be done, 1 to 8, which a word that is drawn picks.
    Units,
    /// How many slots an object is to have, always 4: nothing is drawn.
    Slots,
}
