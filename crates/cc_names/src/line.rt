//! A line of output while it is built.

ghost use Rattle.std.specs.Prelude.{◌≡◌, ◌+◌, ◌≤◌, [], ◌++◌, length};

use std::marker::Model;

/// One line of output, built piece by piece. It has room for 128 bytes, more than the longest line has.
#[derive(Drop)]
pub struct LineBuf {
    room: [u8; 128],
    used: usize,
}

impl Model for LineBuf {
    ghost use Rattle.std.specs.Prelude.{List, ℕ, ◌≤◌, take};

    ghost Value = { List ℕ };

    ghost view = { λ b. take b.used b.room };

    ghost invariant = { λ b. b.used ≤ 128 };
}

impl LineBuf {
    /// An empty line.
    pub fn new() -> LineBuf
        ensures { result ≡ [] }
    {
        LineBuf {
            room: [0; 128],
            used: 0,
        }
    }

    /// Appends the text, which must fit.
    pub fn push(&mut self, text: &[u8])
        requires { length self.old + length text.now ≤ 128 }
        ensures { self.new ≡ self.old ++ text.now }
    {
        let end = self.used + text.len();
        self.room[self.used..end].copy_from_slice(text);
        self.used = end;
    }

    /// The bytes so far, in the order in which they were pushed.
    pub fn bytes(&self) -> &[u8]
        ensures { result.now ≡ self.now }
    {
        &self.room[..self.used]
    }
}
