//! Names of objects and registers, limits, and lines of text.
//!
//! A native is `#k`, a plain script object, a weak map or a proxy `@k`, the reflector of native `#k` is `~k`.
//! Numbers count from one in the order of making and are never used again. A key says where an object
//! stands in its heap; it may be used again once the object is gone, so a key is no name.
#![tactic(auto)]

ghost use Rattle.std.specs.Prelude.{◌≡◌, ◌↔◌, IsTrue};
ghost use Rattle.cc_names.specs.declared.name.Name.{Name};
ghost use Rattle.cc_names.specs.Names.{same_name, order_of_names};

mod kind;
mod limits;
mod line;
mod name;
mod no_memory;
mod number;
mod register;
mod sizes;

pub use kind::{Colour, Kind, Walked};
pub use limits::Limits;
pub use line::LineBuf;
pub use name::{Name, write_name};
pub use no_memory::NoMemory;
pub use number::{NKey, NativeNo, SKey, ScriptNo, narrow_key};
pub use register::{Reg, write_register};
pub use sizes::{
    BANK_LENGTH, FIRST_BANK_LENGTH, FIRST_MOST_SLOTS, MOST_ROOTS, MOST_SLOTS, RegNo, SlotNo,
    WEAK_LENGTH, WeakNo,
};

/// The test of the specifications tells names apart: it says yes exactly for equal ones.
pub fn names_are_told_apart()
    ensures { (x y : Name) → IsTrue (same_name x y) ↔ (x ≡ y) }
{}

/// The order in which names are compared: natives first, then plain objects, weak maps and proxies, then reflectors,
/// each of the three by number.
pub fn names_are_in_order()
    ensures { (x y : Name) → ⟦<Name as Ord>⟧.cmp x y ≡ order_of_names x y }
{}
