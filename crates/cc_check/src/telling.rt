//! What is said of a parting, in one line of text.

ghost use Rattle.std.specs.Prelude.{◌≡◌, ◌++◌, OnOk};

use crate::cause::Cause;
use crate::parting::{Blame, Parting};
use crate::reading::first_line;
use cc_model::{Event, Item, Reason, write_item};
use cc_names::{LineBuf, Name, NoMemory, write_name, write_register};
use itoa::Buffer;
use std::alloc::Global;
use std::str;

/// The line that says where a transcript of a script parts from every lawful one, and why, with its line feed.
pub fn describe(alloc: Global, parting: &Parting, script: &[u8]) -> Result<Vec<u8>, NoMemory> {
    let mut out = Vec::new(alloc);
    match parting {
        Parting::Lawful => put(&mut out, b"lawful")?,
        Parting::Line(blame) => put_blame(&mut out, blame, script)?,
        Parting::End => put(&mut out, b"end: a lawful transcript goes on")?,
    }
    put(&mut out, b"\n")?;
    Ok(out)
}

/// Appends which line parts, which line of the script it answers, and why.
fn put_blame(out: &mut Vec<u8>, blame: &Blame, script: &[u8]) -> Result<(), NoMemory> {
    put(out, b"line ")?;
    put_number(out, blame.line)?;
    match &blame.cause {
        Cause::Over => {}
        _ => put_asked(out, blame.asked, script)?,
    }
    put(out, b": ")?;
    put_cause(out, &blame.cause)
}

/// Appends a line of the script, by its number and its text. The text is left out where it has more than 120 bytes or is no UTF-8.
fn put_asked(out: &mut Vec<u8>, asked: u64, script: &[u8]) -> Result<(), NoMemory> {
    put(out, b", answer to line ")?;
    put_number(out, asked)?;
    let line = line_of(script, asked);
    if line.len() > 120 || str::from_utf8(line).is_err() {
        return Ok(());
    }
    put(out, b" (")?;
    put(out, without_return(line))?;
    put(out, b")")
}

/// The line of a script with a number, counted from one; empty where there is none.
fn line_of(script: &[u8], number: u64) -> &[u8] {
    let mut left = script;
    for _ in 1..number {
        if left.is_empty() {
            return left;
        }
        left = first_line(left).1;
    }
    if left.is_empty() {
        return left;
    }
    first_line(left).0
}

/// A line without a carriage return at its end.
fn without_return(line: &[u8]) -> &[u8] {
    match line.strip_suffix(b"\r") {
        Some(front) => front,
        None => line,
    }
}

/// Appends why no lawful transcript goes on.
fn put_cause(out: &mut Vec<u8>, cause: &Cause) -> Result<(), NoMemory> {
    match cause {
        Cause::NoItem => put(out, b"no line of an answer"),
        Cause::Over => put(out, b"nothing is asked any more"),
        Cause::Forbidden(event) => put_forbidden(out, *event),
        Cause::Misplaced(event) => put_misplaced(out, *event),
        Cause::OutOfOrder(event) => {
            put_done(out, *event)?;
            put(out, b", and its number does not rise")
        }
        Cause::Unlisted(event) => {
            put_done(out, *event)?;
            put(out, b", but it is not there any more, or never was")
        }
        Cause::Reached(event, steps) => {
            put_done(out, *event)?;
            put_steps(out, steps.as_slice())
        }
        Cause::Reply(reply) => {
            put(out, b"the reply is ")?;
            put_item(out, &Item::Reply(*reply))
        }
        Cause::Item(item) => put_expected(out, *item),
        Cause::Refused(reply) => {
            put(out, b"an event, but the command is refused: ")?;
            put_item(out, &Item::Reply(*reply))
        }
        Cause::Kept(name) => {
            put(
                out,
                b"the census behind it lists exactly what is reached, but ",
            )?;
            put_name(out, *name)?;
            put(out, b" is not")
        }
        Cause::Lost(name) => {
            put(
                out,
                b"the census behind it lists exactly what is reached, and ",
            )?;
            put_name(out, *name)?;
            put(out, b" is, but it was freed")
        }
    }
}

/// Appends what an event does.
fn put_done(out: &mut Vec<u8>, event: Event) -> Result<(), NoMemory> {
    match event {
        Event::Freed(name) => {
            put_name(out, name)?;
            put(out, b" is freed")
        }
        Event::Unlinked(name) => {
            put_name(out, name)?;
            put(out, b" is unlinked")
        }
        Event::Abandoned => put(out, b"a collection is abandoned"),
    }
}

/// Appends that a command may not have an event.
fn put_forbidden(out: &mut Vec<u8>, event: Event) -> Result<(), NoMemory> {
    put_done(out, event)?;
    put(out, b", and this command may not ")?;
    put(
        out,
        match event {
            Event::Freed(_) => b"free it".as_slice(),
            Event::Unlinked(_) => b"unlink it".as_slice(),
            Event::Abandoned => b"abandon one".as_slice(),
        },
    )
}

/// Appends that an event stands in a wrong place.
fn put_misplaced(out: &mut Vec<u8>, event: Event) -> Result<(), NoMemory> {
    match event {
        Event::Abandoned => put(out, b"an abandonment behind another event"),
        _ => {
            put_done(out, event)?;
            put(out, b" behind an abandonment")
        }
    }
}

/// Appends the item that comes in place of a line.
fn put_expected(out: &mut Vec<u8>, item: Item) -> Result<(), NoMemory> {
    match item {
        Item::Listed(name) => {
            put(out, b"the census lists ")?;
            put_name(out, name)?;
            return put(out, b" here");
        }
        Item::Step(_, _) => put(out, b"the step here is ")?,
        Item::Reply(_) | Item::Event(_) => put(out, b"the answer ends here: ")?,
    }
    put_item(out, &item)
}

/// Appends the steps that lead to an object.
fn put_steps(out: &mut Vec<u8>, steps: &[(Name, Reason)]) -> Result<(), NoMemory> {
    if let Some((_, Reason::Root(register))) = steps.first() {
        let mut text = LineBuf::new();
        write_register(*register, &mut text);
        put(out, b", but ")?;
        put(out, text.bytes())?;
        put(out, b" leads to it: ")?;
    }
    for (place, step) in steps.iter().enumerate() {
        if place > 0 {
            put(out, b", ")?;
        }
        put_step(out, step.0, step.1)?;
    }
    Ok(())
}

/// Appends one step: what leads to an object, and the object.
fn put_step(out: &mut Vec<u8>, name: Name, reason: Reason) -> Result<(), NoMemory> {
    match reason {
        Reason::Root(register) => {
            let mut text = LineBuf::new();
            write_register(register, &mut text);
            put(out, text.bytes())?;
        }
        Reason::Edge(from) => put_name(out, from)?,
        Reason::Pair(the_map, with) => {
            put_name(out, the_map)?;
            put(out, b" ")?;
            put_name(out, with)?;
        }
    }
    put(out, b" ")?;
    put_name(out, name)
}

/// Appends an item's line, without its line feed.
fn put_item(out: &mut Vec<u8>, item: &Item) -> Result<(), NoMemory> {
    let mut text = LineBuf::new();
    write_item(item, &mut text);
    let words = text.bytes().len() - 1;
    put(out, &text.bytes()[..words])
}

/// Appends a name.
fn put_name(out: &mut Vec<u8>, name: Name) -> Result<(), NoMemory> {
    let mut text = LineBuf::new();
    write_name(&name, &mut text);
    put(out, text.bytes())
}

/// Appends a number.
fn put_number(out: &mut Vec<u8>, number: u64) -> Result<(), NoMemory> {
    put(out, Buffer::new().format(number).as_bytes())
}

/// Appends bytes.
fn put(out: &mut Vec<u8>, bytes: &[u8]) -> Result<(), NoMemory>
    ensures { OnOk result (out.new.items ≡ out.old.items ++ bytes.now) }
{
    if out.extend_from_slice(bytes).is_err() {
        return Err(NoMemory);
    }
    Ok(())
}
