//! The script heap: plain objects, reflectors, weak maps and proxies with slots and colours, in order of making.
//!
//! An object stands at a key, which comes back for another one once it is gone; its name never does. Slots hold
//! keys. Exactly a reflector has the key of a native, which stands in a heap of its own: this heap only keeps it, and
//! whether that native is there is for those above to say. A weak map has no slots here; its entries stand in a crate of
//! their own, so no walk of this heap goes over them. A
//! proxy has no slots either, and a delegate for good: the object that it stands for. Walks go from a proxy to its delegate
//! as over a slot.
//!
//! Script marking makes all objects white (`clear_marks`) and raises what is reached from roots, at once (`mark_from`) or
//! one object after another (`start_marking`, with a type of its own); between markings `expose` makes black what script
//! touches, with all that it reaches so. What stays white is removed, one object after another.
//!
//! Each object has a new mark beside its colour, for a marking that goes on in slices (`new_mark`, `set_new_mark`). Such a marking
//! begins by making all white by the new mark (`unmark_new`). While it goes on, what script touches is made black by it
//! (`expose_new`), and an object is made black by it. At the end the new marks become the colours (`exchange_marks`). No other call
//! reads or writes it.
//!
//! No object that isn't white holds one of a lower colour. So marking may stop at each object that has the colour to which
//! it raises.
//!
//! Each object has its neighbours in order of making, in the list of those that marking has yet to look into, and in a
//! set for walks over both heaps (`walk_clear`, `walk_add`, `walk_next`, `walked`), which it leaves as it leaves this heap.
//! So a call that makes an object takes the object's own memory, and no other call takes any, at any depth; and an object
//! leaves, and the next one is found, by a look at its neighbours alone.
#![tactic(auto)]

mod being;
mod cell;
mod cells;
mod laws;
mod links;
mod marking;
mod parts;
mod scripts;

pub use laws::raised_is_least;
pub use marking::Marking;
pub use scripts::Scripts;
