//! Laws of lengths: since numbers have 32 bits, the line of an item is short.

ghost use Rattle.std.specs.Prelude.{◌≤◌, decimal, length};
ghost use Rattle.cc_names.specs.Names.{text_of_name};
ghost use Rattle.cc_model.specs.Texts.{text_of_reason, words_of};

use cc_model::{Event, Item, Reason, Reply};
use cc_names::{Name, Reg};

/// A number has at most 10 digits.
fn numbers_are_short(number: u32)
    ensures { length (decimal number) ≤ 10 }
{}

/// A name has at most 11 bytes.
fn names_are_short(name: Name)
    ensures { length (text_of_name name) ≤ 11 }
{
    match name {
        Name::Native(number) | Name::Reflector(number) => numbers_are_short(number.0),
        Name::Script(number) => numbers_are_short(number.0),
    }
}

/// A reason has at most 23 bytes.
fn reasons_are_short(reason: Reason)
    ensures { length (text_of_reason reason) ≤ 23 }
{
    match reason {
        Reason::Root(Reg::N(register) | Reg::S(register)) => {
            numbers_are_short(u32::from(register));
        }
        Reason::Root(Reg::W(register)) => numbers_are_short(u32::from(register)),
        Reason::Edge(from) => names_are_short(from),
        Reason::Pair(the_map, with) => {
            names_are_short(the_map);
            names_are_short(with);
        }
    }
}

/// The line of an item has at most 37 bytes and a line feed.
pub(crate) fn items_are_short(item: &Item)
    ensures { length (words_of item.now) ≤ 37 }
{
    match *item {
        Item::Event(Event::Unlinked(name) | Event::Freed(name))
        | Item::Listed(name)
        | Item::Reply(Reply::Named(name)) => names_are_short(name),
        Item::Step(name, reason) => {
            names_are_short(name);
            reasons_are_short(reason);
        }
        Item::Reply(Reply::Census(count)) => numbers_are_short(count),
        Item::Event(Event::Abandoned)
        | Item::Reply(Reply::Nothing | Reply::Done | Reply::Refused(_)) => {}
    }
}
