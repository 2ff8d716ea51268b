//! Items, which are the lines of the output, and their texts.

ghost use Rattle.std.specs.Prelude.{◌≡◌, ◌+◌, ◌≤◌, ◌++◌, length};
ghost use Rattle.cc_model.specs.Texts.{text_of, text_of_event, text_of_reason, text_of_refusal, text_of_reply, text_of_step};

use cc_names::{LineBuf, Name, Reg, write_name, write_register};
use itoa::Buffer;

/// Why a command is refused, in the order in which the causes are tried.
#[derive(Clone, Copy, Debug, PartialEq, Eq, Drop)]
pub enum Refusal {
    /// The line has more than 120 bytes.
    Long,
    /// The line is not in the grammar.
    Line,
    /// A register that must hold an object is empty.
    Empty,
    /// An object is of the wrong kind.
    Kind,
    /// An index is not below the object's number of slots.
    Slot,
    /// As many objects of the kind as the limit were ever made.
    Full,
    /// Memory was wanted and not there.
    NoMemory,
}

/// The last line that answers a command.
#[derive(Clone, Copy, Debug, PartialEq, Eq, Drop)]
pub enum Reply {
    /// The name of what was made, copied or read.
    Named(Name),
    /// What was read was empty.
    Nothing,
    /// The command is done, and has nothing to name.
    Done,
    /// So many objects are there.
    Census(u32),
    /// Nothing was done.
    Refused(Refusal),
}

/// What happened before the reply.
#[derive(Clone, Copy, Debug, PartialEq, Eq, Drop)]
pub enum Event {
    /// A collection took this native's references away.
    Unlinked(Name),
    /// This object is no more.
    Freed(Name),
    /// A collection was refused memory and given up.
    Abandoned,
}

/// Why an object is reached.
#[derive(Clone, Copy, Debug, PartialEq, Eq, Drop)]
pub enum Reason {
    /// This register holds it.
    Root(Reg),
    /// It stands in a place of this object: in a slot, or as the preserved reflector of a native, the native of a reflector or
    /// the delegate of a proxy.
    Edge(Name),
    /// An entry of this weak map gives it: the value of this key; or the key, a proxy of this delegate.
    Pair(Name, Name),
}

/// One line of the output.
#[derive(Clone, Copy, Debug, PartialEq, Eq, Drop)]
pub enum Item {
    /// What happened before the reply.
    Event(Event),
    /// An object that a census lists.
    Listed(Name),
    /// An object on the way to one that was asked for, and why it is reached.
    Step(Name, Reason),
    /// The last line that answers a command.
    Reply(Reply),
}

/// Appends the text of a refusal, which has at most 20 bytes.
fn write_refusal(refusal: Refusal, out: &mut LineBuf)
    requires { length out.old + 20 ≤ 128 }
    ensures text { out.new ≡ out.old ++ text_of_refusal refusal }
    ensures short { length out.new ≤ length out.old + 20 }
{
    out.push(match refusal {
        Refusal::Long => b"! long".as_slice(),
        Refusal::Line => b"! line".as_slice(),
        Refusal::Empty => b"! empty".as_slice(),
        Refusal::Kind => b"! kind".as_slice(),
        Refusal::Slot => b"! slot".as_slice(),
        Refusal::Full => b"! full".as_slice(),
        Refusal::NoMemory => b"! nomem".as_slice(),
    });
}

/// Appends the text of a reply, which has at most 20 bytes.
fn write_reply(reply: Reply, out: &mut LineBuf)
    requires { length out.old + 20 ≤ 128 }
    ensures text { out.new ≡ out.old ++ text_of_reply reply }
    ensures short { length out.new ≤ length out.old + 20 }
{
    match reply {
        Reply::Named(name) => {
            out.push(b"= ");
            write_name(&name, out);
        }
        Reply::Nothing => out.push(b"= none"),
        Reply::Done => out.push(b"= ok"),
        Reply::Census(count) => {
            out.push(b"= census ");
            out.push(Buffer::new().format(count).as_bytes());
        }
        Reply::Refused(refusal) => write_refusal(refusal, out),
    }
}

/// Appends the text of an event, which has at most 20 bytes.
fn write_event(event: Event, out: &mut LineBuf)
    requires { length out.old + 20 ≤ 128 }
    ensures text { out.new ≡ out.old ++ text_of_event event }
    ensures short { length out.new ≤ length out.old + 20 }
{
    match event {
        Event::Unlinked(name) => {
            out.push(b"- unlink ");
            write_name(&name, out);
        }
        Event::Freed(name) => {
            out.push(b"- free ");
            write_name(&name, out);
        }
        Event::Abandoned => out.push(b"- abandon"),
    }
}

/// Appends the text of a reason, which has at most 26 bytes.
fn write_reason(reason: Reason, out: &mut LineBuf)
    requires { length out.old + 26 ≤ 128 }
    ensures text { out.new ≡ out.old ++ text_of_reason reason }
    ensures short { length out.new ≤ length out.old + 26 }
{
    match reason {
        Reason::Root(register) => write_register(register, out),
        Reason::Edge(from) => write_name(&from, out),
        Reason::Pair(the_map, with) => {
            write_name(&the_map, out);
            out.push(b" ");
            write_name(&with, out);
        }
    }
}

/// Appends the text of a step, which has at most 41 bytes.
fn write_step(name: Name, reason: Reason, out: &mut LineBuf)
    requires { length out.old + 41 ≤ 128 }
    ensures text { out.new ≡ out.old ++ text_of_step name reason }
    ensures short { length out.new ≤ length out.old + 41 }
{
    out.push(b": ");
    write_name(&name, out);
    out.push(b" ");
    write_reason(reason, out);
}

/// Appends an item's line, its line feed included. It has at most 42 bytes, which must be free.
pub fn write_item(item: &Item, out: &mut LineBuf)
    requires { length out.old + 42 ≤ 128 }
    ensures { out.new ≡ out.old ++ text_of item.now }
{
    match *item {
        Item::Event(event) => write_event(event, out),
        Item::Listed(name) => {
            out.push(b"+ ");
            write_name(&name, out);
        }
        Item::Step(name, reason) => write_step(name, reason, out),
        Item::Reply(reply) => write_reply(reply, out),
    }
    out.push(b"\n");
}
