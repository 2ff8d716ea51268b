//! What a line of a script asks.

use cc_model::Command;

/// What a line of a script asks.
#[derive(Clone, Copy, Debug, PartialEq, Eq, Drop)]
pub(crate) enum Asked {
    /// It has more than 120 bytes.
    Long,
    /// It is not in the grammar.
    Bad,
    /// This command.
    Taken(Command),
}
