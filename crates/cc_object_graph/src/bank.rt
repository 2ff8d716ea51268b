//! A bank of registers.
ghost use Rattle.std.specs.Prelude.{◌≡◌, ◌≤◌, length, IfOk, None, slice_index_or, slice_set};
ghost use Rattle.cc_model.specs.Slots.{empty_slots};
ghost use Rattle.cc_search.specs.Banks.{AreEmptyFrom};

use crate::rows::content;
use cc_names::{Name, NoMemory};
use std::alloc::Global;
use std::marker::Model;

/// The registers of one kind. Those from `used` on were never written, so they are empty.
#[derive(Drop)]
pub(crate) struct Bank {
    registers: Vec<Option<Name>>,
    used: usize,
}

impl Model for Bank {
    ghost use Rattle.cc_model.specs.Slots.{Slots as slots};
    ghost use Rattle.cc_object_graph.specs.Used.{AreUsedBefore};

    ghost Value = { slots };

    ghost view = { λ b. b.registers.items };

    ghost invariant = { λ b. AreUsedBefore b.registers.items b.used };
}

impl Bank {
    /// So many empty registers.
    pub(crate) fn empty(alloc: Global, n: usize) -> Result<Bank, NoMemory>
        ensures { IfOk result (λ b. b ≡ empty_slots n) }
    {
        Ok(Bank {
            registers: vec![in alloc; None; n]?,
            used: 0,
        })
    }

    /// What a register holds; none past the last.
    pub(crate) fn at(&self, r: usize) -> Option<Name>
        ensures { result ≡ slice_index_or self.now r None }
    {
        content(self.registers.as_slice(), r)
    }

    /// Writes a register. Past the last there is nothing to write.
    pub(crate) fn write(&mut self, r: usize, content: Option<Name>)
        ensures { self.new ≡ slice_set self.old r content }
    {
        if r < self.registers.len() {
            self.registers[r] = content;
            self.used = self.used.max(r + 1);
        }
    }

    /// One more than the greatest number of a register that was ever written; 0 where none was.
    pub(crate) fn used(&self) -> usize
        ensures within { result ≤ length self.now }
        ensures empty { AreEmptyFrom self.now result }
    {
        self.used
    }
}
