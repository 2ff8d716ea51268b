//! The tokens of a line, and the numbers and registers that they name.

ghost use Rattle.std.specs.Prelude.{◌≡◌, ◌≢◌, ◌<◌, ◌≤◌, [], ◌∷◌, length, slice_index, false, IsTrue, IfNone, IfSome};
ghost use Rattle.cc_names.specs.Sizes.{bank_length, most_slots, weak_length};
ghost use Rattle.cc_model.specs.Tokens.{digits_from, made_number, native_register, number_within, object_name, register_with, script_register, slots_number, tokens_of, units_number, weak_register};
ghost use Rattle.cc_model.specs.Ranges.{is_reg};
ghost use Rattle.cc_reader.specs.Words.{register_of};

use cc_model::Dialect;
use cc_names::{Name, NativeNo, Reg, RegNo, ScriptNo, SlotNo, WEAK_LENGTH, WeakNo};

/// A line from its first byte on that is no space.
fn without_spaces(line: &[u8]) -> &[u8]
    ensures same { tokens_of line.now ≡ tokens_of result.now }
    ensures front { 0 < length result.now → slice_index result.now 0 ≢ 32 }
{
    'bytes: for (place, byte) in line.iter().enumerate() {
        if *byte != b' ' {
            return &line[place..];
        }
    }
    &[]
}

/// The first token of a line that begins with one, and the line behind the space after it.
fn cut_token(line: &[u8]) -> (&[u8], &[u8])
    requires some { 0 < length line.now }
    requires front { slice_index line.now 0 ≢ 32 }
    ensures cut { tokens_of line.now ≡ result.0.now ∷ tokens_of result.1.now }
    ensures some { 0 < length result.0.now }
{
    'bytes: for (place, byte) in line.iter().enumerate() {
        if *byte == b' ' {
            return (&line[..place], &line[place + 1..]);
        }
    }
    (line, &[])
}

/// The first token of a line, and the line behind it. None where the line has no token.
pub(crate) fn next_token(line: &[u8]) -> Option<(&[u8], &[u8])>
    ensures cut { IfSome result (λ t. tokens_of line.now ≡ t.0.now ∷ tokens_of t.1.now) }
    ensures some { IfSome result (λ t. 0 < length t.0.now) }
    ensures none { IfNone result (tokens_of line.now ≡ []) }
{
    let line = without_spaces(line);
    if line.is_empty() {
        return None;
    }
    Some(cut_token(line))
}

/// The number that decimal digits spell. None where it is above `most`, or a byte is no digit.
fn digits(token: &[u8], most: u32) -> Option<u32>
    ensures value { result ≡ digits_from most 0 token.now }
    ensures within { IfSome result (λ n. n ≤ most) }
{
    let mut value: u32 = 0;
    'digits: for byte in token {
        if *byte < b'0' || b'9' < *byte {
            return None;
        }
        let wider = u64::from(value) * 10 + u64::from(*byte - b'0');
        if wider > u64::from(most) {
            return None;
        }
        value = wider as u32;
    }
    Some(value)
}

/// The number that a token spells, at most `most`, with no sign and no leading zero.
pub(crate) fn number(token: &[u8], most: u32) -> Option<u32>
    ensures value { result ≡ number_within most token.now }
    ensures within { IfSome result (λ n. n ≤ most) }
{
    if token.is_empty() || (token.len() > 1 && token[0] == b'0') {
        return None;
    }
    digits(token, most)
}

/// The number of slots that a token spells, where a line gives so many at most.
pub(crate) fn slots_number(token: &[u8], dialect: Dialect) -> Option<SlotNo>
    ensures value { result ≡ slots_number dialect token.now }
    ensures within { IfSome result (λ n. n ≤ most_slots) }
{
    let slots = number(token, u32::from(dialect.most_slots()))?;
    Some(slots as SlotNo)
}

/// The number of an object that a token spells, from 1 on.
fn made_number(token: &[u8]) -> Option<u32>
    ensures { result ≡ made_number token.now }
{
    match number(token, u32::MAX)? {
        0 => None,
        made => Some(made),
    }
}

/// The name of the object that a token names: `#`, `@` or `~`, and directly behind it a number from 1 on.
pub(crate) fn object_name(token: &[u8]) -> Option<Name>
    ensures { result ≡ object_name token.now }
{
    match token {
        [mark, digits @ ..] => {
            if *mark == b'#' {
                Some(Name::Native(NativeNo(made_number(digits)?)))
            } else if *mark == b'@' {
                Some(Name::Script(ScriptNo(made_number(digits)?)))
            } else if *mark == b'~' {
                Some(Name::Reflector(NativeNo(made_number(digits)?)))
            } else {
                None
            }
        }
        [] => None,
    }
}

/// The number of units that a token spells, 1 to 1000000.
pub(crate) fn units_number(token: &[u8]) -> Option<u32>
    ensures { result ≡ units_number token.now }
{
    match number(token, 1_000_000)? {
        0 => None,
        units => Some(units),
    }
}

/// The number of the register that a token names, where registers of its kind begin with this letter.
fn register_with(letter: u8, token: &[u8], dialect: Dialect) -> Option<RegNo>
    ensures register { result ≡ register_with dialect letter token.now }
    ensures in_range { IfSome result (λ r. r < bank_length) }
{
    match token {
        [first, digits @ ..] => {
            if *first != letter {
                return None;
            }
            let register = number(digits, dialect.registers() as u32 - 1)?;
            Some(register)
        }
        [] => None,
    }
}

/// The number of the native register that a token names.
pub(crate) fn native(token: &[u8], dialect: Dialect) -> Option<RegNo>
    ensures register { result ≡ native_register dialect token.now }
    ensures in_range { IfSome result (λ r. r < bank_length) }
{
    register_with(b'n', token, dialect)
}

/// The number of the script register that a token names.
pub(crate) fn script(token: &[u8], dialect: Dialect) -> Option<RegNo>
    ensures register { result ≡ script_register dialect token.now }
    ensures in_range { IfSome result (λ r. r < bank_length) }
{
    register_with(b's', token, dialect)
}

/// The number of the weak register that a token names: `w`, and directly behind it a number of at most 255.
pub(crate) fn weak(token: &[u8]) -> Option<WeakNo>
    ensures register { result ≡ weak_register token.now }
    ensures in_range { IfSome result (λ w. w < weak_length) }
{
    match token {
        [first, digits @ ..] => {
            if *first != b'w' {
                return None;
            }
            let register = number(digits, WEAK_LENGTH as u32 - 1)?;
            Some(register as WeakNo)
        }
        [] => None,
    }
}

/// The register of either kind that a token names.
pub(crate) fn register_of(token: &[u8], dialect: Dialect) -> Option<Reg>
    ensures register { result ≡ register_of dialect token.now }
    ensures in_range { IfSome result (λ r. IsTrue (is_reg r)) }
{
    match native(token, dialect) {
        Some(register) => Some(Reg::N(register)),
        None => Some(Reg::S(script(token, dialect)?)),
    }
}

/// Whether a line has no token.
pub(crate) fn is_blank(line: &[u8]) -> bool
    ensures blank { IsTrue result → tokens_of line.now ≡ [] }
    ensures other { result ≡ false → 0 < length (tokens_of line.now) }
{
    match next_token(line) {
        None => true,
        Some(_) => false,
    }
}

/// The token of a line that has just one.
pub(crate) fn one_token(line: &[u8]) -> Option<&[u8]>
    ensures some { IfSome result (λ a. tokens_of line.now ≡ a.now ∷ []) }
    ensures none { IfNone result (length (tokens_of line.now) ≢ 1) }
{
    let (a, after) = next_token(line)?;
    if is_blank(after) { Some(a) } else { None }
}

/// The tokens of a line that has just two.
pub(crate) fn two_tokens(line: &[u8]) -> Option<(&[u8], &[u8])>
    ensures some { IfSome result (λ t. tokens_of line.now ≡ t.0.now ∷ t.1.now ∷ []) }
    ensures none { IfNone result (length (tokens_of line.now) ≢ 2) }
{
    let (a, after) = next_token(line)?;
    let b = one_token(after)?;
    Some((a, b))
}

/// The tokens of a line that has just three.
pub(crate) fn three_tokens(line: &[u8]) -> Option<(&[u8], &[u8], &[u8])>
    ensures some { IfSome result (λ t. tokens_of line.now ≡ t.0.now ∷ t.1.now ∷ t.2.now ∷ []) }
    ensures none { IfNone result (length (tokens_of line.now) ≢ 3) }
{
    let (a, after) = next_token(line)?;
    let (b, c) = two_tokens(after)?;
    Some((a, b, c))
}

/// The tokens of a line that has just four.
pub(crate) fn four_tokens(line: &[u8]) -> Option<(&[u8], &[u8], &[u8], &[u8])>
    ensures some { IfSome result (λ t. tokens_of line.now ≡ t.0.now ∷ t.1.now ∷ t.2.now ∷ t.3.now ∷ []) }
    ensures none { IfNone result (length (tokens_of line.now) ≢ 4) }
{
    let (a, after) = next_token(line)?;
    let (b, c, d) = three_tokens(after)?;
    Some((a, b, c, d))
}
