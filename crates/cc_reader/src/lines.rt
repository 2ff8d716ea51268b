//! The lines of a source, one after the other.

ghost use Rattle.std.specs.Prelude.{◌≡◌, ◌≢◌, ℕ, ◌<◌, ◌≤◌, List, [], ◌∷◌, ◌++◌, length, Option, Ok, Err, OnOk, IfOk, false, true, OnErr};
ghost use Rattle.cc_lists.specs.Faults.{Rose};
ghost use Rattle.cc_reader.specs.HasRead.{HasRead, ReadsOn};
ghost use Rattle.cc_reader.specs.Pending.{nothing_read, weight};
ghost use Rattle.cc_reader.specs.Given.{HasGiven, IsBroken, IsOver, AreAllGiven};
ghost use Rattle.cc_reader.specs.Used.{IsKept, IsUsedUp};

use crate::read_stop::ReadStop;
use crate::window::Window;
use cc_names::LineBuf;
use cc_outside::Source;

/// What the next line is.
#[derive(Clone, Copy, Debug, PartialEq, Eq, Drop)]
pub enum Line {
    /// A line of at most 120 bytes.
    Text,
    /// A line of more than 120 bytes, which is not kept.
    TooLong,
    /// There is no further line: the source is at its end.
    End,
}

/// Keeps one byte more of a line, as long as it is short. Answers whether it is too long.
fn keep(text: &mut LineBuf, is_long: bool, byte: u8) -> bool
    requires { length text.old ≤ 120 }
    ensures { (line : List ℕ) → IsKept is_long text.old line → IsKept result text.new (line ++ byte ∷ []) }
{
    if is_long || text.bytes().len() == 120 {
        return true;
    }
    text.push(&[byte]);
    false
}

/// What a line is that a line feed ended.
fn ended(is_long: bool) -> Line
    ensures text { result ≡ Line.Text → is_long ≡ false }
    ensures long { result ≡ Line.TooLong → is_long ≡ true }
    ensures some { result ≢ Line.End }
{
    if is_long { Line::TooLong } else { Line::Text }
}

/// What a line is that the end of the source ended: there is none where it has no byte.
fn last(is_long: bool, text: &LineBuf) -> Line
    ensures text { result ≡ Line.Text → (is_long ≡ false) × (text.now ≢ []) }
    ensures long { result ≡ Line.TooLong → is_long ≡ true }
    ensures end { result ≡ Line.End → (is_long ≡ false) × (text.now ≡ []) }
{
    if is_long {
        return Line::TooLong;
    }
    if text.bytes().is_empty() {
        Line::End
    } else {
        Line::Text
    }
}

/// Reads one line into `text`, which is empty. Of a line that is too long the front is kept there.
fn next_line<S: Source>(
    window: &mut Window,
    source: &mut S,
    text: &mut LineBuf,
) -> Result<Line, ReadStop>
    requires { text.old ≡ [] }
    ensures text { result ≡ Ok Line.Text → length text.new ≤ 120 }
    ensures kept { result ≡ Ok Line.Text → (start : Option (List ℕ)) (lines : List (List ℕ)) →
        HasGiven start (S.left source.old) window.old lines → HasGiven start (S.left source.new) window.new (lines ++ text.new ∷ []) }
    ensures long { result ≡ Ok Line.TooLong → (line : List ℕ) × (120 < length line) × ((start : Option (List ℕ)) (lines : List (List ℕ)) →
        HasGiven start (S.left source.old) window.old lines → HasGiven start (S.left source.new) window.new (lines ++ line ∷ [])) }
    ensures whole { result ≡ Ok Line.End → (start : Option (List ℕ)) (lines : List (List ℕ)) →
        HasGiven start (S.left source.old) window.old lines → AreAllGiven start (S.left source.new) window.new lines }
    ensures broken { result ≡ Err ReadStop.Fault → (start : Option (List ℕ)) (lines : List (List ℕ)) →
        HasGiven start (S.left source.old) window.old lines → IsBroken start (S.left source.new) window.new lines }
    ensures over { result ≡ Err ReadStop.Limit → (start : Option (List ℕ)) (lines : List (List ℕ)) →
        HasGiven start (S.left source.old) window.old lines → IsOver start (S.left source.new) window.new lines }
    ensures counted { result ≡ Err ReadStop.Limit → window.new.limit < window.new.taken }
    ensures spent { IsUsedUp window.old → result ≡ Ok Line.End }
    ensures unread { IsUsedUp window.old → source.new ≡ source.old }
    ensures limit { window.new.limit ≡ window.old.limit }
    ensures reads { ReadsOn (S.reads source.old) (S.reads source.new) window.old window.new }
    ensures falls { IfOk result (λ line. line ≢ Line.End → weight window.new < weight window.old) }
    ensures calm { OnOk result (S.faults source.new ≡ S.faults source.old) }
    ensures fault { result ≡ Err ReadStop.Fault → Rose (S.faults source.old) (S.faults source.new) }
    ensures unfaulted { result ≡ Err ReadStop.Limit → S.faults source.new ≡ S.faults source.old }
{
    if window.is_spent() {
        return Ok(Line::End);
    }
    let mut is_long = false;
    'bytes: while let Some(byte) = window.next_byte(source)? {
        if byte == b'\n' {
            return Ok(ended(is_long));
        }
        is_long = keep(text, is_long, byte);
    }
    Ok(last(is_long, text))
}

/// The lines of a source, one after the other, each without its line feed.
///
/// Of the source at most `bytes` bytes are used, and one more is taken where it has more.
#[derive(Drop)]
pub struct Lines<'a, S> {
    source: &'a mut S,
    window: Window,
    text: LineBuf,
    stopped: bool,
}

impl<'a, S: Source> Lines<'a, S> {
    /// The lines of the first `bytes` bytes of `source`, which must have no more. Nothing is read yet.
    pub fn new(source: &'a mut S, bytes: u32) -> Lines<'a, S>
        ensures same { result.source.ghost_name ≡ source.entry.ghost_name }
        ensures now { result.source.now ≡ source.old }
        ensures going { result.stopped ≡ false }
        ensures window { result.window ≡ nothing_read bytes }
        ensures given { HasGiven (S.left source.old) (S.left result.source.now) result.window [] }
        ensures read { HasRead (S.reads source.old) (S.reads result.source.now) result.window }
    {
        Lines {
            source,
            window: Window::new(bytes),
            text: LineBuf::new(),
            stopped: false,
        }
    }

    /// Reads the next line. `Text` leaves it in `text`; a line of more than 120 bytes is read to its line feed and is
    /// `TooLong`. The last line may lack its line feed; `End` then follows without a further read. After `End` and
    /// after an error no more may be read. Each read that is answered takes a byte, but for the last one, which says that
    /// the source is at its end.
    ///
    /// `Fault` where a read failed, `Limit` where the source has more bytes than may be used; the line that was begun
    /// is then lost.
    pub fn next(&mut self) -> Result<Line, ReadStop>
        requires going { self.old.stopped ≡ false }
        ensures same { self.new.source.ghost_name ≡ self.old.source.ghost_name }
        ensures limit { self.new.window.limit ≡ self.old.window.limit }
        ensures going_on { IfOk result (λ line. line ≢ Line.End → self.new.stopped ≡ false) }
        ensures ends { result ≡ Ok Line.End → self.new.stopped ≡ true }
        ensures stops { OnErr result (self.new.stopped ≡ true) }
        ensures text { result ≡ Ok Line.Text → length self.new.text ≤ 120 }
        ensures kept { result ≡ Ok Line.Text → (start : Option (List ℕ)) (lines : List (List ℕ)) →
            HasGiven start (S.left self.old.source.now) self.old.window lines →
            HasGiven start (S.left self.new.source.now) self.new.window (lines ++ self.new.text ∷ []) }
        ensures long { result ≡ Ok Line.TooLong → (line : List ℕ) × (120 < length line) × ((start : Option (List ℕ)) (lines : List (List ℕ)) →
            HasGiven start (S.left self.old.source.now) self.old.window lines →
            HasGiven start (S.left self.new.source.now) self.new.window (lines ++ line ∷ [])) }
        ensures whole { result ≡ Ok Line.End → (start : Option (List ℕ)) (lines : List (List ℕ)) →
            HasGiven start (S.left self.old.source.now) self.old.window lines →
            AreAllGiven start (S.left self.new.source.now) self.new.window lines }
        ensures broken { result ≡ Err ReadStop.Fault → (start : Option (List ℕ)) (lines : List (List ℕ)) →
            HasGiven start (S.left self.old.source.now) self.old.window lines →
            IsBroken start (S.left self.new.source.now) self.new.window lines }
        ensures over { result ≡ Err ReadStop.Limit → (start : Option (List ℕ)) (lines : List (List ℕ)) →
            HasGiven start (S.left self.old.source.now) self.old.window lines →
            IsOver start (S.left self.new.source.now) self.new.window lines }
        ensures counted { result ≡ Err ReadStop.Limit → self.new.window.limit < self.new.window.taken }
        ensures spent { IsUsedUp self.old.window → result ≡ Ok Line.End }
        ensures unread { IsUsedUp self.old.window → self.new.source.now ≡ self.old.source.now }
        ensures reads { ReadsOn (S.reads self.old.source.now) (S.reads self.new.source.now) self.old.window self.new.window }
        ensures falls { IfOk result (λ line. line ≢ Line.End → weight self.new.window < weight self.old.window) }
        ensures calm { OnOk result (S.faults self.new.source.now ≡ S.faults self.old.source.now) }
        ensures fault { result ≡ Err ReadStop.Fault → Rose (S.faults self.old.source.now) (S.faults self.new.source.now) }
        ensures unfaulted { result ≡ Err ReadStop.Limit → S.faults self.new.source.now ≡ S.faults self.old.source.now }
    {
        self.text = LineBuf::new();
        let line = next_line(&mut self.window, self.source, &mut self.text);
        self.stopped = !matches!(line, Ok(Line::Text | Line::TooLong));
        line
    }

    /// The bytes of the line that was read last, where it was `Text`. A carriage return at its end is kept.
    pub fn text(&self) -> &[u8]
        ensures { result.now ≡ self.now.text }
    {
        self.text.bytes()
    }

    /// How many bytes were taken from the source, the one above the limit counted.
    pub fn taken(&self) -> u64
        ensures { result ≡ self.now.window.taken }
    {
        self.window.taken()
    }
}
