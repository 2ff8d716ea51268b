//! The versions of the language.

ghost use Rattle.std.specs.Prelude.{◌≡◌};
ghost use Rattle.cc_model.specs.Dialects.{registers_of, slots_of};
ghost use Rattle.cc_model.specs.Asks.{dialect_after, taken_or_bad};

use crate::command::Command;
use cc_names::{BANK_LENGTH, FIRST_BANK_LENGTH, FIRST_MOST_SLOTS, MOST_SLOTS, SlotNo};

/// How the next line of a script is read, by the lines before it.
///
/// A script is of version 1, unless its first line that is no blank line and no comment is `version 2`. Version 2 has more
/// registers and slots, and words of its own. The words of version 1 mean the same in both.
#[derive(Clone, Copy, Debug, PartialEq, Eq, Drop)]
pub enum Dialect {
    /// Only blank lines and comments came: `version 2` may come, and all else is of version 1.
    Start,
    /// Version 1.
    One,
    /// Version 2.
    Two,
}

impl Dialect {
    /// How the line behind one is read that asks this command, or is too long or not in the grammar where there is none.
    pub fn after(self, asked: Option<Command>) -> Dialect
        ensures { result ≡ dialect_after self (taken_or_bad asked) }
    {
        match self {
            Dialect::Start => match asked {
                Some(Command::Nothing) => Dialect::Start,
                Some(Command::Version2) => Dialect::Two,
                _ => Dialect::One,
            },
            Dialect::One => Dialect::One,
            Dialect::Two => Dialect::Two,
        }
    }

    /// How many registers of each kind a line can name: 256 in version 1, 1024 in version 2.
    pub fn registers(self) -> usize
        ensures { result ≡ registers_of self }
    {
        match self {
            Dialect::Start | Dialect::One => FIRST_BANK_LENGTH,
            Dialect::Two => BANK_LENGTH,
        }
    }

    /// The most slots that a line gives an object: 64 in version 1, 256 in version 2.
    pub fn most_slots(self) -> SlotNo
        ensures { result ≡ slots_of self }
    {
        match self {
            Dialect::Start | Dialect::One => FIRST_MOST_SLOTS,
            Dialect::Two => MOST_SLOTS,
        }
    }
}
