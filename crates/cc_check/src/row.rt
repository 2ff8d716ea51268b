//! How much of `gc`, `collect`, `gc` was asked last.

ghost use Rattle.std.specs.Prelude.{◌≡◌, [], Some};
ghost use Rattle.cc_model.specs.Answers.{replying};
ghost use Rattle.cc_model.specs.Quiet.{row_after};
ghost use Rattle.cc_check.specs.Standing.{ask_meant, row_meant};

use crate::asked::Asked;
use cc_model::{Command, Reply};

/// How much of the row `gc`, `collect`, `gc` was asked last. A census behind all of it must list exactly what is reached.
#[derive(Clone, Copy, Debug, PartialEq, Eq, Drop)]
pub(crate) enum Row {
    /// None of it.
    NothingYet,
    /// The first `gc`.
    AfterGc,
    /// `gc`, and a `collect` that was done.
    AfterCollect,
    /// All of it.
    AfterAll,
}

impl Row {
    /// How much of it was asked after one more ask with its reply.
    pub(crate) fn after(self, asked: Asked, reply: Reply) -> Row
        ensures { row_meant result ≡ row_after (row_meant self) (ask_meant asked) (replying [] reply) }
    {
        match asked {
            Asked::Taken(Command::Nothing) => self,
            Asked::Taken(Command::Gc) => match self {
                Row::AfterCollect => Row::AfterAll,
                _ => Row::AfterGc,
            },
            Asked::Taken(Command::Collect) => match (self, reply) {
                (Row::AfterGc | Row::AfterAll, Reply::Done) => Row::AfterCollect,
                _ => Row::NothingYet,
            },
            _ => Row::NothingYet,
        }
    }
}
