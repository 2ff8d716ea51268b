//! A slot of a native, as the native keeps it.
ghost use Rattle.std.specs.Prelude.{◌≡◌};

use crate::held::Held;
use cc_names::{NKey, SKey};
use std::marker::Model;
use std::mem::size_of;

/// What is in a slot.
#[derive(Drop)]
enum Content {
    Empty,
    Native(NKey),
    Script(SKey),
}

/// A slot of a native: an `Option<Held>`, in 8 bytes.
#[derive(Drop)]
pub(crate) struct Slot(Content);

const _: () = prove!(size_of::<Slot>() == 8);

impl Model for Slot {
    ghost use Rattle.std.specs.Prelude.{Option};
    ghost use Rattle.cc_counted.specs.declared.held.Held.{Held};
    ghost use Rattle.cc_counted.specs.Slots.{held_in};

    ghost Value = { Option Held };

    ghost view = { λ s. held_in s.0 };
}

impl Slot {
    /// A slot that holds this, or nothing.
    pub(crate) fn of(held: Option<Held>) -> Slot
        ensures { result ≡ held }
    {
        Slot(match held {
            None => Content::Empty,
            Some(Held::Native(key)) => Content::Native(key),
            Some(Held::Script(key)) => Content::Script(key),
        })
    }

    /// What the slot holds.
    pub(crate) fn held(&self) -> Option<Held>
        ensures { result ≡ self.now }
    {
        match self.0 {
            Content::Empty => None,
            Content::Native(key) => Some(Held::Native(key)),
            Content::Script(key) => Some(Held::Script(key)),
        }
    }
}
