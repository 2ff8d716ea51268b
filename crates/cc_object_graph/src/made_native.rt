//! A native as it was made and written since.
ghost use Rattle.std.specs.Prelude.{◌≡◌, IfOk, None, Some, false, option_map};
ghost use Rattle.cc_names.specs.Names.{reflector};
ghost use Rattle.cc_names.specs.Places.{where_set};
ghost use Rattle.cc_model.specs.Graph.{as_preserved, as_wrapped, with_reflector_slot, with_slot, new_graph_native};
ghost use Rattle.cc_model.specs.Slots.{empty_slots, reflector_slots};

use crate::slots::Slots;
use cc_names::{Name, NativeNo, NoMemory};
use std::alloc::Global;
use std::marker::Model;

/// How many slots a reflector has.
const REFLECTOR_SLOTS: usize = 4;

/// A native: its slots, whether its reflector is preserved, and the slots of its reflector, where it was ever wrapped.
#[derive(Drop)]
pub(crate) struct MadeNative {
    slots: Slots,
    preserved: bool,
    reflector: Option<Slots>,
}

impl Model for MadeNative {
    ghost use Rattle.cc_model.specs.Graph.{GraphNative};

    ghost Value = { GraphNative };

    ghost view = { λ n. record { slots = n.slots; preserved = n.preserved; reflector = n.reflector } };
}

impl MadeNative {
    /// A native with so many empty slots, that was never wrapped.
    pub(crate) fn new(alloc: Global, slots: usize) -> Result<MadeNative, NoMemory>
        ensures { IfOk result (λ n. n ≡ new_graph_native slots) }
    {
        Ok(MadeNative {
            slots: Slots::empty(alloc, slots)?,
            preserved: false,
            reflector: None,
        })
    }

    /// Its slots.
    pub(crate) fn slots(&self) -> &[Option<Name>]
        ensures { result.now ≡ self.now.slots }
    {
        self.slots.as_slice()
    }

    /// The slots of its reflector, where it was ever wrapped.
    pub(crate) fn reflector_slots(&self) -> Option<&[Option<Name>]>
        ensures { option_map (λ s. s.now) result ≡ self.now.reflector }
    {
        match &self.reflector {
            Some(slots) => Some(slots.as_slice()),
            None => None,
        }
    }

    /// Its reflector, given its number, where that is preserved.
    pub(crate) fn preserved_reflector(&self, number: NativeNo) -> Option<Name>
        ensures { result ≡ where_set self.now.preserved (Some (reflector number.0)) }
    {
        if self.preserved {
            Some(Name::Reflector(number))
        } else {
            None
        }
    }

    /// Writes a slot.
    pub(crate) fn write(&mut self, i: usize, content: Option<Name>)
        ensures { self.new ≡ with_slot i content self.old }
    {
        self.slots.write(i, content);
    }

    /// Writes a slot of its reflector, where it was ever wrapped.
    pub(crate) fn write_reflector(&mut self, i: usize, content: Option<Name>)
        ensures { self.new ≡ with_reflector_slot i content self.old }
    {
        if let Some(slots) = &mut self.reflector {
            slots.write(i, content);
        }
    }

    /// Preserves its reflector.
    pub(crate) fn preserve(&mut self)
        ensures { self.new ≡ as_preserved self.old }
    {
        self.preserved = true;
    }

    /// Makes its reflector, with empty slots; one that is there stays as it is.
    pub(crate) fn wrap(&mut self, alloc: Global) -> Result<(), NoMemory>
        ensures { IfOk result (λ _. self.new ≡ as_wrapped self.old) }
    {
        if self.reflector.is_none() {
            self.reflector = Some(Slots::empty(alloc, REFLECTOR_SLOTS)?);
        }
        Ok(())
    }
}
