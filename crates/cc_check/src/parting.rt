//! Where a transcript parts from every lawful one, and why.

use crate::cause::Cause;

/// The line at which a transcript parts, and why. Lines are counted from one, blank ones and comments too.
#[derive(Drop)]
pub struct Blame {
    /// The number of the transcript's line.
    pub line: u64,
    /// The number of the script's line that it answers; where nothing is asked any more, that of the last line that has an answer, or 0.
    pub asked: u64,
    /// Why no lawful transcript goes on with the line.
    pub cause: Cause,
}

/// Where a transcript parts from every lawful transcript of the script.
#[derive(Drop)]
pub enum Parting {
    /// Nowhere: it is lawful.
    Lawful,
    /// At this line: no lawful transcript begins with the lines up to this one, and one with those before it, where the script reads no
    /// weak register.
    Line(Blame),
    /// At its end: more comes there in a lawful transcript, or the line feed of the last line is missing. One begins with its lines, where
    /// the script reads no weak register.
    End,
}
