//! A line of a transcript, and what it says.

ghost use Rattle.std.specs.Prelude.{◌≡◌, ◌↔◌, ◌≤◌, ℕ, List, false, Some, IfSome, IsTrue, decimal};
ghost use Rattle.cc_names.specs.declared.name.Name.{Name as TheName};
ghost use Rattle.cc_names.specs.Names.{number_of, text_of_name};
ghost use Rattle.cc_model.specs.declared.item.Event.{Event as TheEvent};
ghost use Rattle.cc_model.specs.Texts.{text_of_event, words_of};
ghost use Rattle.cc_check.specs.Items.{IsNoItem};
ghost use Rattle.cc_check.specs.Standing.{IsHeard, IsNumberedIn};
ghost use Rattle.cc_check.specs.Tried.{bytes_of};

use crate::lengths::items_are_short;
use cc_model::{Event, Item, write_item};
use cc_names::{LineBuf, Name, NativeNo, ScriptNo};
use std::str;

/// A line of a transcript, without its line feed.
#[derive(Clone, Copy)]
pub(crate) enum Heard<'a> {
    /// A line of at most 120 bytes.
    Text(&'a [u8]),
    /// One of more. No item has so many.
    Long,
}

impl<'a> Heard<'a> {
    /// Whether the line is that of an item.
    pub(crate) fn is(self, item: &Item) -> bool
        ensures { (line : List ℕ) → IsHeard self.entry line → IsTrue result ↔ (line ≡ words_of item.now) }
    {
        match self {
            Heard::Text(text) => is_text_of(text, item),
            Heard::Long => {
                items_are_short(item);
                false
            }
        }
    }

    /// How many bytes the line has with its line feed, where it is not long.
    pub(crate) fn bytes(self) -> u64
        ensures { result ≡ bytes_of self.entry }
    {
        match self {
            Heard::Text(text) => text.len() as u64 + 1,
            Heard::Long => 0,
        }
    }

    /// Whether the line may be that of an item. Of an item that is no event it is asked only how its line begins.
    pub(crate) fn may_be_item(self) -> bool
        ensures { result ≡ false → (line : List ℕ) → IsHeard self.entry line → IsNoItem line }
    {
        let Heard::Text(text) = self else {
            return false;
        };
        if text.is_empty() {
            return false;
        }
        let mark = text[0];
        if mark == b'-' {
            return self.event().is_some();
        }
        mark == b'=' || mark == b'!' || mark == b'+' || mark == b':'
    }

    /// The event that the line tells; none where it tells none.
    ///
    /// The numbers of natives and script objects have 32 bits. A number in another form than that of a name's text is none.
    pub(crate) fn event(self) -> Option<Event>
        ensures sound { (line : List ℕ) → IsHeard self.entry line → IfSome result (λ e. line ≡ text_of_event e) }
        ensures complete { (line : List ℕ) (e : TheEvent) → IsHeard self.entry line → line ≡ text_of_event e → IsNumberedIn e → result ≡ Some e }
    {
        let Heard::Text(text) = self else {
            return None;
        };
        let event = event_in(text)?;
        if is_text_of(text, &Item::Event(event)) {
            Some(event)
        } else {
            None
        }
    }
}

/// Whether a line of at most 120 bytes is that of an item.
fn is_text_of(text: &[u8], item: &Item) -> bool
    ensures { IsTrue result ↔ (text.now ≡ words_of item.now) }
{
    let mut line = LineBuf::new();
    write_item(item, &mut line);
    let words = line.bytes().len() - 1;
    text == &line.bytes()[..words]
}

/// The event that a line tells, if it tells one: no other can have this text.
fn event_in(text: &[u8]) -> Option<Event>
    ensures { (e : TheEvent) → text.now ≡ text_of_event e → IsNumberedIn e → result ≡ Some e }
{
    if let Some(name) = text.strip_prefix(b"- free ") {
        return Some(Event::Freed(name_in(name)?));
    }
    if let Some(name) = text.strip_prefix(b"- unlink ") {
        return Some(Event::Unlinked(name_in(name)?));
    }
    Some(Event::Abandoned)
}

/// The name that a text spells, if it spells one: no other can have this text.
fn name_in(text: &[u8]) -> Option<Name>
    ensures { (x : TheName) → text.now ≡ text_of_name x → number_of x ≤ 4294967295 → result ≡ Some x }
{
    let (mark, digits) = text.split_first()?;
    let number = number_in(digits)?;
    match *mark {
        b'#' => Some(Name::Native(NativeNo(number))),
        b'@' => Some(Name::Script(ScriptNo(number))),
        b'~' => Some(Name::Reflector(NativeNo(number))),
        _ => None,
    }
}

/// The number that a text spells in decimal, if it spells one of 32 bits.
fn number_in(text: &[u8]) -> Option<u32>
    ensures { (n : ℕ) → text.now ≡ decimal n → n ≤ 4294967295 → result ≡ Some n }
{
    str::from_utf8(text).ok()?.parse().ok()
}
