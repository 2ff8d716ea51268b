//! The list, and where in it a name stands.
ghost use Rattle.std.specs.Prelude.{◌≡◌, ◌∷◌, ◌++◌, [], false, length, IfOk, OnOk};
ghost use Rattle.cc_lists.specs.Members.{has, without};
ghost use Rattle.cc_names.specs.Names.{same_name};
ghost use Rattle.cc_model.specs.Listed.{census_order};

use crate::census::natives_first;
use crate::closing::close_up_if_sparse;
use cc_names::{Name, NoMemory};
use cc_pages::ByName;
use std::alloc::Global;
use std::marker::Model;

/// The names that a census lists, each once, in the order in which they came.
#[derive(Drop)]
pub struct Listed {
    // where a name was taken out, there is none
    places: Vec<Option<Name>>,
    by_name: ByName,
    // how many names are there
    count: usize,
}

impl Model for Listed {
    ghost use Rattle.std.specs.Prelude.{List};
    ghost use Rattle.cc_names.specs.declared.name.Name.{Name};
    ghost use Rattle.cc_model.specs.Slots.{contents};
    ghost use Rattle.cc_listed.specs.Found.{AreListed};

    ghost Value = { List Name };

    ghost view = { λ l. contents l.places.items };

    ghost invariant = { λ l. AreListed l.places.items l.by_name l.count };
}

impl Listed {
    /// No names.
    pub fn new(alloc: Global) -> Listed
        ensures { result ≡ [] }
    {
        Listed {
            places: Vec::new(alloc),
            by_name: ByName::new(alloc),
            count: 0,
        }
    }

    /// Whether a name is there.
    pub fn has(&self, name: &Name) -> bool
        ensures { result ≡ has same_name self.now name.now }
    {
        self.by_name.get(name).is_some()
    }

    /// A name, which is not there, comes last.
    ///
    /// After `NoMemory` the list is only let go.
    pub fn push(&mut self, name: Name) -> Result<(), NoMemory>
        requires { has same_name self.old name ≡ false }
        ensures { OnOk result (self.new ≡ self.old ++ name ∷ []) }
    {
        self.places.reserve(1)?;
        self.by_name.set(name, self.places.len())?;
        self.places.push_reserved(Some(name));
        self.count += 1;
        Ok(())
    }

    /// A name is taken out, where it is there.
    pub fn remove(&mut self, name: &Name)
        ensures { self.new ≡ without same_name name.now self.old }
    {
        if let Some(place) = self.by_name.get(name) {
            self.by_name.remove(name);
            self.places[place as usize] = None;
            self.count -= 1;
        }
    }

    /// How many names are there.
    pub fn len(&self) -> usize
        ensures { result ≡ length self.now }
    {
        self.count
    }

    /// The names in the order of a census: the natives, then the others.
    pub fn census(&mut self, alloc: Global) -> Result<Vec<Name>, NoMemory>
        ensures names { IfOk result (λ names. names.items ≡ census_order self.old) }
        ensures same { self.new ≡ self.old }
    {
        close_up_if_sparse(&mut self.places, &mut self.by_name, self.count)?;
        natives_first(alloc, &self.places)
    }
}
