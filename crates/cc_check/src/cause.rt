//! Why no lawful transcript goes on with a line.

use cc_model::{Event, Item, Reason, Reply};
use cc_names::Name;

/// Why no lawful transcript goes on with a line. Where several causes hold of one line, the first of them is told.
#[derive(Drop)]
pub enum Cause {
    /// The line is that of no item.
    NoItem,
    /// Nothing is asked any more.
    Over,
    /// The command may not have this event at all.
    Forbidden(Event),
    /// A second abandonment, one behind another event of `gc`, or an event behind one.
    Misplaced(Event),
    /// A native is unlinked whose number begins one rising run more than the command allows.
    OutOfOrder(Event),
    /// What is freed or unlinked is not listed any more, or never was.
    Unlisted(Event),
    /// What is freed or unlinked is reached: these steps lead to it.
    Reached(Event, Vec<(Name, Reason)>),
    /// The line is neither an event nor this reply, which ends the answer.
    Reply(Reply),
    /// The answer can be but one way, and this item comes here.
    Item(Item),
    /// The graph refuses the command with this reply, and the line is an event.
    Refused(Reply),
    /// The census behind the line must list exactly what is reached, and this object is listed and not reached.
    Kept(Name),
    /// The census behind the line must list exactly what is reached, and this object is reached and not listed: it was freed, and a native
    /// that leads to it was brought back by a weak register.
    Lost(Name),
}
