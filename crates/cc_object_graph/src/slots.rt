//! Places that each hold a name or nothing.
ghost use Rattle.std.specs.Prelude.{◌≡◌, length, IfOk, None, slice_index_or, slice_set};
ghost use Rattle.cc_model.specs.Slots.{empty_slots};

use crate::rows::content;
use cc_names::{Name, NoMemory};
use std::alloc::Global;
use std::marker::Model;

/// Places in a row, counted from 0, that each hold a name or nothing: the slots of an object, or a bank of registers.
#[derive(Drop)]
pub(crate) struct Slots {
    items: Vec<Option<Name>>,
}

impl Model for Slots {
    ghost use Rattle.cc_model.specs.Slots.{Slots as slots};

    ghost Value = { slots };

    ghost view = { λ s. s.items.items };
}

impl Slots {
    /// So many empty places.
    pub(crate) fn empty(alloc: Global, n: usize) -> Result<Slots, NoMemory>
        ensures { IfOk result (λ s. s ≡ empty_slots n) }
    {
        Ok(Slots {
            items: vec![in alloc; None; n]?,
        })
    }

    /// What they hold, in order.
    pub(crate) fn as_slice(&self) -> &[Option<Name>]
        ensures { result.now ≡ self.now }
    {
        self.items.as_slice()
    }

    /// What a place holds; none past the last.
    pub(crate) fn at(&self, i: usize) -> Option<Name>
        ensures { result ≡ slice_index_or self.now i None }
    {
        content(self.items.as_slice(), i)
    }

    /// Writes a place. Past the last there is nothing to write.
    pub(crate) fn write(&mut self, i: usize, content: Option<Name>)
        ensures { self.new ≡ slice_set self.old i content }
    {
        if i < self.items.len() {
            self.items[i] = content;
        }
    }
}
