//! All script objects that were made.
ghost use Rattle.std.specs.Prelude.{◌≡◌, ◌++◌, ◌∷◌, [], length, option_map, OnOk};
ghost use Rattle.cc_model.specs.Graph.{numbered, with_script_slot};
ghost use Rattle.cc_object_graph.specs.Made.{script_made};
ghost use Rattle.cc_object_graph.specs.Numbered.{with_member};

use crate::made_script::MadeScript;
use crate::numbered::place_of;
use cc_names::{Name, NoMemory, ScriptNo};
use std::alloc::Global;
use std::marker::Model;

/// All plain objects, weak maps and proxies that were made, in the order of their numbers. Object k stands at place k - 1.
#[derive(Drop)]
pub(crate) struct Scripts {
    items: Vec<MadeScript>,
}

impl Model for Scripts {
    ghost use Rattle.std.specs.Prelude.{List, map};
    ghost use Rattle.cc_model.specs.Graph.{GraphScript};
    ghost use Rattle.cc_object_graph.specs.Made.{script_made};

    ghost Value = { List GraphScript };

    ghost view = { λ s. map script_made s.items.items };
}

impl Scripts {
    /// None yet.
    pub(crate) fn new(alloc: Global) -> Scripts
        ensures { result ≡ [] }
    {
        Scripts {
            items: Vec::new(alloc),
        }
    }

    /// How many were made.
    pub(crate) fn len(&self) -> usize
        ensures { result ≡ length self.now }
    {
        self.items.len()
    }

    /// The script object with a number, where it was made.
    pub(crate) fn get(&self, number: ScriptNo) -> Option<&MadeScript>
        ensures { option_map (λ o. script_made o.now) result ≡ numbered self.now number.0 }
    {
        match place_of(number.0, self.items.len()) {
            Some(place) => Some(&self.items[place]),
            None => None,
        }
    }

    /// One more, which gets the next number.
    pub(crate) fn push(&mut self, object: MadeScript) -> Result<(), NoMemory>
        ensures { OnOk result (self.new ≡ self.old ++ script_made object ∷ []) }
    {
        self.items.reserve(1)?;
        self.items.push_reserved(object);
        Ok(())
    }

    /// Writes a slot of an object; one past the last, or of what was never made, is none to write.
    pub(crate) fn write(&mut self, number: ScriptNo, i: usize, content: Option<Name>)
        ensures { self.new ≡ with_member self.old number.0 (option_map (with_script_slot i content) (numbered self.old number.0)) }
    {
        if let Some(place) = place_of(number.0, self.items.len()) {
            let object = &mut self.items[place];
            object.write(i, content);
        }
    }
}
