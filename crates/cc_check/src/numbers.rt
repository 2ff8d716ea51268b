//! Laws of numbers: those in events and in replies have 32 bits.

ghost use Rattle.std.specs.Prelude.{◌<◌, ◌^◌};
ghost use Rattle.cc_names.specs.Names.{number_of};
ghost use Rattle.cc_verdict.specs.Numbers.{number_in_event, number_in_reply};

use cc_model::{Event, Reply};
use cc_names::Name;

/// A number of 32 bits is small.
fn numbers_are_small(number: u32)
    ensures { number < 2 ^ 32 }
{}

/// The number in a name is small.
fn names_have_small_numbers(name: Name)
    ensures { number_of name < 2 ^ 32 }
{
    match name {
        Name::Native(number) | Name::Reflector(number) => numbers_are_small(number.0),
        Name::Script(number) => numbers_are_small(number.0),
    }
}

/// The number in an event is small.
pub(crate) fn events_have_small_numbers(event: Event)
    ensures { number_in_event event < 2 ^ 32 }
{
    match event {
        Event::Freed(name) | Event::Unlinked(name) => names_have_small_numbers(name),
        Event::Abandoned => {}
    }
}

/// The number in a reply is small.
pub(crate) fn replies_have_small_numbers(reply: Reply)
    ensures { number_in_reply reply < 2 ^ 32 }
{
    match reply {
        Reply::Named(name) => names_have_small_numbers(name),
        Reply::Census(number) => numbers_are_small(number),
        Reply::Nothing | Reply::Done | Reply::Refused(_) => {}
    }
}
