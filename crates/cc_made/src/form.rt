//! The forms of made lines.

ghost use Rattle.std.specs.Prelude.{◌≡◌, ◌%◌};
ghost use Rattle.cc_made.specs.Forms.{form_at};

use crate::operand::Operand;
use crate::operand::Operand::{Index, Native, Script, Slots, Units};

/// A word, and what stands behind it, from left to right.
#[derive(Clone, Copy, Drop)]
pub(crate) struct Form(pub(crate) &'static [u8], pub(crate) &'static [Operand]);

/// The forms of made lines. A word that is drawn picks one of them, by its remainder.
const FORMS: [Form; 20] = [
    Form(b"native", &[Native, Slots]),
    Form(b"native", &[Native, Slots]),
    Form(b"script", &[Script, Slots]),
    Form(b"weakmap", &[Script]),
    Form(b"copy", &[Native, Native]),
    Form(b"drop", &[Native]),
    Form(b"drop", &[Script]),
    Form(b"set", &[Native, Index, Native]),
    Form(b"set", &[Native, Index, Script]),
    Form(b"get", &[Native, Native, Index]),
    Form(b"get", &[Script, Native, Index]),
    Form(b"put", &[Script, Index, Script]),
    Form(b"wrap", &[Script, Native]),
    Form(b"wset", &[Script, Script, Script]),
    Form(b"wget", &[Script, Script, Script]),
    Form(b"slice", &[Units]),
    Form(b"take", &[Script, Script, Index]),
    Form(b"unwrap", &[Native, Script]),
    Form(b"preserve", &[Script]),
    Form(b"gc", &[]),
];

impl Form {
    /// The form of a word that is drawn.
    pub(crate) fn of(word: u32) -> Form
        ensures word { result.0.now ≡ (form_at (word % 20)).word }
        ensures operands { result.1.now ≡ (form_at (word % 20)).operands }
    {
        FORMS[(word % 20) as usize]
    }
}
