//! The made script, piece by piece.

ghost use Rattle.std.specs.Prelude.{◌≡◌, ◌≤◌, ◌<◌, [], ◌++◌, length, min, take, drop};
ghost use Rattle.cc_made.specs.Made.{lines_from, made_script, script_of};
ghost use Rattle.cc_made.specs.Pieces.{after, text_of};

use crate::line::{made_line, seeded};
use cc_names::LineBuf;
use rand_pcg::Pcg32;
use std::marker::Model;

/// The last lines of each made script.
const TAIL: &[u8] = b"drop n0\ndrop n1\ndrop n2\ndrop n3\ndrop n4\ndrop n5\ndrop n6\ndrop n7\n\
    drop s0\ndrop s1\ndrop s2\ndrop s3\ndrop s4\ndrop s5\ndrop s6\ndrop s7\n\
    gc\ncollect\ngc\ncensus\n";

/// Some bytes of the script.
#[derive(Drop)]
pub(crate) enum Piece {
    /// A line, with its line feed. Others come after it, and then the tail.
    Line(LineBuf),
    /// The tail, which is the end.
    Tail,
}

impl Piece {
    /// All bytes of the piece.
    fn bytes(&self) -> &[u8]
        ensures { result.now ≡ text_of self.now }
    {
        match self {
            Piece::Line(line) => line.bytes(),
            Piece::Tail => TAIL,
        }
    }

    /// The next piece, where `count` lines are still to be made: one of these, or the tail.
    fn next(words: &mut Pcg32, count: &mut u32) -> Piece
        ensures next { text_of result ++ after result count.new words.new ≡ script_of (lines_from count.old words.old) }
        ensures some { 0 < length (text_of result) }
    {
        if *count == 0 {
            return Piece::Tail;
        }
        *count -= 1;
        Piece::Line(made_line(words))
    }
}

/// The made script while its bytes are given out. It is seen as the bytes that are left.
///
/// One line is held at a time, so the script takes no memory.
#[derive(Drop)]
pub(crate) struct Script {
    piece: Piece,
    place: usize,
    count: u32,
    words: Pcg32,
}

impl Model for Script {
    ghost use Rattle.std.specs.Prelude.{◌≤◌, List, ℕ, length};
    ghost use Rattle.cc_made.specs.Pieces.{left_of, text_of};

    ghost Value = { List ℕ };

    ghost view = { λ s. left_of s.piece s.place s.count s.words };

    ghost invariant = { λ s. s.place ≤ length (text_of s.piece) };
}

impl Script {
    /// The whole script of `count` lines and the tail, by the words of a generator that is seeded with `seed`.
    pub(crate) fn new(seed: u64, mut count: u32) -> Script
        ensures { result ≡ made_script seed count }
    {
        let mut words = seeded(seed);
        let piece = Piece::next(&mut words, &mut count);
        Script {
            piece,
            place: 0,
            count,
            words,
        }
    }

    /// Moves bytes of one piece into the front of `buf`, and says how many. None are moved only at the end, or where
    /// there is no room.
    fn give_piece(&mut self, buf: &mut [u8]) -> usize
        ensures bound { result ≤ length buf.old }
        ensures within { result ≤ length self.old }
        ensures filled { buf.new ≡ take result self.old ++ drop result buf.old }
        ensures rest { self.new ≡ drop result self.old }
        ensures end { result ≡ 0 → 0 < length buf.old → self.new ≡ [] }
    {
        if matches!(self.piece, Piece::Line(_)) && self.place == self.piece.bytes().len() {
            self.piece = Piece::next(&mut self.words, &mut self.count);
            self.place = 0;
        }
        let rest = &self.piece.bytes()[self.place..];
        let count = buf.len().min(rest.len());
        buf[..count].copy_from_slice(&rest[..count]);
        self.place += count;
        count
    }

    /// Moves bytes into the front of `buf`, and says how many: as many as there are and fit.
    pub(crate) fn give(&mut self, buf: &mut [u8]) -> usize
        ensures count { result ≡ min (length buf.old) (length self.old) }
        ensures filled { buf.new ≡ take result self.old ++ drop result buf.old }
        ensures rest { self.new ≡ drop result self.old }
    {
        let mut given = 0;
        'pieces: while given < buf.len() {
            let count = self.give_piece(&mut buf[given..]);
            if count == 0 {
                break;
            }
            given += count;
        }
        given
    }
}
