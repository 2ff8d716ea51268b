//! The mutator: one command that makes, copies, writes, reads, wraps, unwraps, preserves or exposes, that sets, takes out
//! or reads an entry of a weak map, or that writes or reads a weak register, done on the heaps and the weak registers.
//!
//! Each command is checked before it changes anything, in one order of causes: an empty register, an object of the wrong
//! kind, an index of no slot, a content of the wrong kind, no room. What comes into a script register, into a slot of a
//! script object or into an entry, and what a proxy stands for, is black: it came from a script register, or script has just
//! touched it. A reflector whose slot is written is preserved first, also where the slot is emptied, and so is one that gets a
//! value in a weak map or a proxy: one that is not preserved is blank, no key and no delegate.
#![tactic(auto)]

mod applying;
mod checks;
mod making;
mod natives;
mod reads;
mod scripts;
mod weak;

pub use applying::apply;
