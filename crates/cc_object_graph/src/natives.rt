//! All natives that were made.
ghost use Rattle.std.specs.Prelude.{◌≡◌, ◌++◌, ◌∷◌, [], length, option_map, OnOk};
ghost use Rattle.cc_model.specs.Graph.{as_preserved, as_wrapped, numbered, with_reflector_slot, with_slot};
ghost use Rattle.cc_object_graph.specs.Numbered.{with_member};

use crate::made_native::MadeNative;
use crate::numbered::place_of;
use cc_names::{Name, NativeNo, NoMemory};
use std::alloc::Global;
use std::marker::Model;

/// All natives that were made, in the order of their numbers. Native k stands at place k - 1.
#[derive(Drop)]
pub(crate) struct Natives {
    items: Vec<MadeNative>,
}

impl Model for Natives {
    ghost use Rattle.std.specs.Prelude.{List};
    ghost use Rattle.cc_model.specs.Graph.{GraphNative};

    ghost Value = { List GraphNative };

    ghost view = { λ n. n.items.items };
}

impl Natives {
    /// None yet.
    pub(crate) fn new(alloc: Global) -> Natives
        ensures { result ≡ [] }
    {
        Natives {
            items: Vec::new(alloc),
        }
    }

    /// How many were made.
    pub(crate) fn len(&self) -> usize
        ensures { result ≡ length self.now }
    {
        self.items.len()
    }

    /// The native with a number, where it was made.
    pub(crate) fn get(&self, number: NativeNo) -> Option<&MadeNative>
        ensures { option_map (λ n. n.now) result ≡ numbered self.now number.0 }
    {
        match place_of(number.0, self.items.len()) {
            Some(place) => Some(&self.items[place]),
            None => None,
        }
    }

    /// One more, which gets the next number.
    pub(crate) fn push(&mut self, native: MadeNative) -> Result<(), NoMemory>
        ensures { OnOk result (self.new ≡ self.old ++ native ∷ []) }
    {
        self.items.reserve(1)?;
        self.items.push_reserved(native);
        Ok(())
    }

    /// Writes a slot of a native; one past the last, or of what was never made, is none to write.
    pub(crate) fn write(&mut self, number: NativeNo, i: usize, content: Option<Name>)
        ensures { self.new ≡ with_member self.old number.0 (option_map (with_slot i content) (numbered self.old number.0)) }
    {
        if let Some(place) = place_of(number.0, self.items.len()) {
            let native = &mut self.items[place];
            native.write(i, content);
        }
    }

    /// Writes a slot of a native's reflector, where it was ever wrapped.
    pub(crate) fn write_reflector(&mut self, number: NativeNo, i: usize, content: Option<Name>)
        ensures { self.new ≡ with_member self.old number.0 (option_map (with_reflector_slot i content) (numbered self.old number.0)) }
    {
        if let Some(place) = place_of(number.0, self.items.len()) {
            let native = &mut self.items[place];
            native.write_reflector(i, content);
        }
    }

    /// Preserves a native's reflector.
    pub(crate) fn preserve(&mut self, number: NativeNo)
        ensures { self.new ≡ with_member self.old number.0 (option_map as_preserved (numbered self.old number.0)) }
    {
        if let Some(place) = place_of(number.0, self.items.len()) {
            let native = &mut self.items[place];
            native.preserve();
        }
    }

    /// Makes a native's reflector, with empty slots, where it was never wrapped.
    pub(crate) fn wrap(&mut self, alloc: Global, number: NativeNo) -> Result<(), NoMemory>
        ensures { OnOk result (self.new ≡ with_member self.old number.0 (option_map as_wrapped (numbered self.old number.0))) }
    {
        if let Some(place) = place_of(number.0, self.items.len()) {
            let native = &mut self.items[place];
            native.wrap(alloc)?;
        }
        Ok(())
    }
}
