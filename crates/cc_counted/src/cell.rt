//! A native: its number, its slots, its reflector and its count.
ghost use Rattle.std.specs.Prelude.{◌≡◌, IsTrue};
ghost use Rattle.cc_counted.specs.Counts.{Counts, name_of, is_live, preserved_reflector};

use crate::held::Held;
use crate::slot::Slot;
use cc_names::{NativeNo, SKey};
use std::marker::Model;

/// A native as it stands at its key.
#[derive(Drop)]
pub(crate) struct Cell {
    /// As many as it was made with, and no room for more.
    pub(crate) slots: Vec<Slot>,
    /// The name that it never shares with another.
    pub(crate) number: NativeNo,
    /// How many slots hold it, and how many references to it callers own.
    pub(crate) count: u32,
    /// Where its reflector stands in the script heap, while it has one.
    pub(crate) reflector: Option<SKey>,
    /// Whether its reflector is preserved.
    pub(crate) preserved: bool,
    /// Whether it was unlinked. No native is unlinked no longer.
    pub(crate) unlinked: bool,
}

impl Model for Cell {
    ghost use Rattle.std.specs.Prelude.{option_map};
    ghost use Rattle.cc_counted.specs.Lists.{Placed};

    ghost Value = { Placed };

    ghost view = { λ c. record { number = c.number.0; slots = c.slots.items; preserved = c.preserved; unlinked = c.unlinked; reflector = option_map (λ k. k.0) c.reflector; count = c.count } };

    ghost use Rattle.std.specs.Prelude.{◌≡◌, vec_len, vec_capacity};

    ghost invariant = { λ c. vec_capacity c.slots ≡ vec_len c.slots };
}

/// The reflector of a native as a slot would hold it, where it is preserved.
pub(crate) fn held_reflector(cell: &Cell) -> Option<Held>
    ensures name { (c : Counts) → name_of c result ≡ preserved_reflector cell.now.preserved cell.now.reflector }
    ensures live { (c : Counts) → IsTrue (is_live c result) }
{
    match cell.reflector {
        Some(key) if cell.preserved => Some(Held::Script(key)),
        _ => None,
    }
}
