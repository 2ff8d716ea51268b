//! The names that have ended.
ghost use Rattle.std.specs.Prelude.{◌≡◌, ◌∷◌, [], OnOk};
ghost use Rattle.cc_lists.specs.Members.{has};
ghost use Rattle.cc_names.specs.Names.{same_name};
ghost use Rattle.cc_model.specs.Listed.{ended_with};

use cc_model::Event;
use cc_names::{Name, NoMemory};
use cc_pages::ByName;
use std::alloc::Global;
use std::marker::Model;

/// The names that have ended: those that an unlink or a free line had. Whether a name is one of them is found by its number.
#[derive(Drop)]
pub(crate) struct Ended {
    // in the order in which they ended
    names: Vec<Name>,
    by_name: ByName,
}

impl Model for Ended {
    ghost use Rattle.std.specs.Prelude.{List, reverse};
    ghost use Rattle.cc_names.specs.declared.name.Name.{Name};
    ghost use Rattle.cc_check.specs.EndedNames.{HavePlaces};

    ghost Value = { List Name };

    // the one that ended last comes first
    ghost view = { λ e. reverse e.names.items };

    ghost invariant = { λ e. HavePlaces (reverse e.names.items) e.by_name };
}

impl Ended {
    /// Nothing has ended.
    pub(crate) fn new(alloc: Global) -> Ended
        ensures { result ≡ [] }
    {
        Ended {
            names: Vec::new(alloc),
            by_name: ByName::new(alloc),
        }
    }

    /// Whether a name has ended.
    pub(crate) fn has(&self, name: &Name) -> bool
        ensures { result ≡ has same_name self.now name.now }
    {
        self.by_name.get(name).is_some()
    }

    /// What an event unlinks or frees has ended from then on. After `NoMemory` they are only let go.
    pub(crate) fn add(&mut self, event: Event) -> Result<(), NoMemory>
        ensures { OnOk result (self.new ≡ ended_with self.old event) }
    {
        match event {
            Event::Freed(name) | Event::Unlinked(name) => self.push(name),
            Event::Abandoned => Ok(()),
        }
    }

    /// A name has ended from then on.
    fn push(&mut self, name: Name) -> Result<(), NoMemory>
        ensures { OnOk result (self.new ≡ name ∷ self.old) }
    {
        self.names.reserve(1)?;
        self.by_name.set(name, self.names.len())?;
        self.names.push_reserved(name);
        Ok(())
    }
}
