//! One made line.

ghost use Rattle.std.specs.Prelude.{◌≡◌, ◌+◌, ◌≤◌, [], ◌∷◌, ◌++◌, length};
ghost use Rattle.cc_made.specs.Made.{ended, made_line, next_word, rest, seeded, with_operand};

use crate::form::Form;
use crate::operand::Operand;
use cc_names::LineBuf;
use rand_core::utils::NextWord;
use rand_pcg::Pcg32;

/// The generator of the words of a script.
#[tactic(auto, unfolding(crate::specs::Made::seeded))]
pub(crate) fn seeded(seed: u64) -> Pcg32
    ensures { result ≡ seeded seed }
{
    Pcg32::new(seed, 1)
}

/// Draws a word.
#[tactic(auto, unfolding(crate::specs::Made::next_word, crate::specs::Made::rest))]
fn draw(words: &mut Pcg32) -> u32
    ensures word { result ≡ next_word words.old }
    ensures rest { words.new ≡ rest words.old }
{
    words.next_word()
}

/// Appends a number below ten behind some text.
fn push_digit(text: &[u8], number: u32, line: &mut LineBuf)
    requires digit { number ≤ 9 }
    requires room { length line.old + length text.now + 1 ≤ 128 }
    ensures { line.new ≡ line.old ++ text.now ++ (48 + number) ∷ [] }
{
    line.push(text);
    line.push(&[b'0' + number as u8]);
}

/// Appends an operand, of at most three bytes, which must be free.
fn push_operand(operand: Operand, words: &mut Pcg32, line: &mut LineBuf)
    requires { length line.old + 3 ≤ 128 }
    ensures made { record { text = line.new; words = words.new } ≡ with_operand operand (record { text = line.old; words = words.old }) }
    ensures short { length line.new ≤ length line.old + 3 }
{
    match operand {
        Operand::Native => push_digit(b" n", draw(words) % 8, line),
        Operand::Script => push_digit(b" s", draw(words) % 8, line),
        Operand::Index => push_digit(b" ", draw(words) % 4, line),
        Operand::Units => push_digit(b" ", 1 + draw(words) % 8, line),
        Operand::Slots => line.push(b" 4"),
    }
}

/// Makes the next line, with its line feed.
pub(crate) fn made_line(words: &mut Pcg32) -> LineBuf
    ensures line { result ≡ ended (made_line words.old).text }
    ensures rest { words.new ≡ (made_line words.old).words }
{
    let Form(word, operands) = Form::of(draw(words));
    let mut line = LineBuf::new();
    line.push(word);
    'operands: for operand in operands {
        push_operand(*operand, words, &mut line);
    }
    line.push(b"\n");
    line
}
