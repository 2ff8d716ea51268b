//! The counted heap: natives with slots, whose count is the slots that hold them and the references that callers own.
//!
//! A native whose count falls to zero leaves the buffer of suspects and waits in a queue. The front of the queue is told,
//! what its slots hold is given up, and it is gone; what waits then follows, until nothing waits. So a chain of any length
//! is deleted in a loop, on an ordinary stack.
//!
//! A native whose count falls, but not to zero, is suspected: it goes into the buffer with the purple mark. One that gains
//! a reference is in use: it goes there without the mark, or loses it.
//!
//! A slot may hold a script object beside a native. It is not counted: to give up a slot that holds one gives up nothing.
//!
//! A native may have a reflector, a script object of which it keeps the key, and may preserve it: then it refers to it as
//! to what its slots hold, until it is unlinked. That it was is known as long as it is there. This heap does not count
//! reflectors, and a freed native takes its reflector's key along.
//!
//! A walk over the natives has a set of them: each comes in once and is given once, and one that is freed leaves it.
//!
//! The natives by rising number, the queue, the buffer and the walk are chains through the natives themselves: what joins
//! or leaves one looks at its neighbours alone. `create` takes the native's own memory, and no other call takes any.
#![tactic(auto)]

mod cascade;
mod cell;
mod counted;
mod held;
mod natives;
mod node;
mod slot;

pub use counted::Counted;
pub use held::{Held, native_held};
