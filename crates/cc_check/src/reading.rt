//! The asks of a script, one after the other.

ghost use Rattle.std.specs.Prelude.{◌≡◌, ◌∷◌, ◌<◌, ◌+◌, [], length, IfNone, IfSome, IsTrue};
ghost use Rattle.cc_model.specs.declared.dialect.Dialect.{Dialect as TheDialect};
ghost use Rattle.cc_model.specs.Asks.{ask_of, asks_of, dialect_after, taken_or_bad};
ghost use Rattle.cc_model.specs.Lines.{lines_of};
ghost use Rattle.cc_laws_run.specs.Running.{ask_in_range};
ghost use Rattle.cc_check.specs.Standing.{ask_meant, asks_left};

use crate::asked::Asked;
use crate::script::Script;
use cc_model::{Command, Dialect};
use cc_reader::parse;

impl<'a> Script<'a> {
    /// All lines of a script.
    pub(crate) fn new(script: &'a [u8]) -> Script<'a>
        ensures asks { asks_left result ≡ asks_of script.now }
        ensures asked { result.asked ≡ 0 }
    {
        Script {
            left: script,
            dialect: Dialect::Start,
            asked: 0,
        }
    }

    /// How many lines were asked: the number of the last of them, counted from one.
    pub(crate) fn asked(&self) -> u64
        ensures { result ≡ self.now.asked }
    {
        self.asked
    }

    /// What the next line asks; none where there is no further line.
    pub(crate) fn next(&mut self) -> Option<Asked>
        ensures some { IfSome result (λ asked. asks_left self.old ≡ ask_meant asked ∷ asks_left self.new) }
        ensures in_range { IfSome result (λ asked. IsTrue (ask_in_range (ask_meant asked))) }
        ensures none { IfNone result (asks_left self.old ≡ []) }
        ensures asked { IfSome result (λ _. self.new.asked ≡ self.old.asked + 1) }
        ensures stays { IfNone result (self.new ≡ self.old) }
        ensures falls { IfSome result (λ _. length self.new.left.now < length self.old.left.now) }
    {
        if self.left.is_empty() {
            return None;
        }
        let (line, left) = first_line(self.left);
        self.left = left;
        self.asked += 1;
        let asked = asked_by(line, self.dialect);
        self.dialect = self.dialect.after(command_of(asked));
        Some(asked)
    }
}

/// The command that was asked, if it was one.
fn command_of(asked: Asked) -> Option<Command>
    ensures { (dialect : TheDialect) → dialect_after dialect (taken_or_bad result) ≡ dialect_after dialect (ask_meant asked) }
{
    match asked {
        Asked::Taken(command) => Some(command),
        Asked::Long | Asked::Bad => None,
    }
}

/// What a line asks, given without its line feed.
fn asked_by(line: &[u8], dialect: Dialect) -> Asked
    ensures ask { ask_meant result ≡ ask_of dialect line.now }
    ensures in_range { IsTrue (ask_in_range (ask_meant result)) }
{
    if line.len() > 120 {
        return Asked::Long;
    }
    match parse(line, dialect) {
        Some(command) => Asked::Taken(command),
        None => Asked::Bad,
    }
}

/// The first line of a script that is not empty, without its line feed, and what stands behind it.
pub(crate) fn first_line(script: &[u8]) -> (&[u8], &[u8])
    requires { 0 < length script.now }
    ensures cut { lines_of script.now ≡ result.0.now ∷ lines_of result.1.now }
    ensures falls { length result.1.now < length script.now }
{
    'bytes: for (place, byte) in script.iter().enumerate() {
        if *byte == b'\n' {
            return (&script[..place], &script[place + 1..]);
        }
    }
    (script, &[])
}
