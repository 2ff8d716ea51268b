//! What was found, with the reason of each.
ghost use Rattle.std.specs.Prelude.{◌≡◌, ◌∷◌, ◌<◌, [], length, slice_get, Some, IfOk, OnOk};
ghost use Rattle.cc_lists.specs.Members.{has};
ghost use Rattle.cc_names.specs.Names.{same_name};
ghost use Rattle.cc_model.specs.Derivations.{derivation, named, needed_for};
ghost use Rattle.cc_search.specs.Search.{HasEnded, HasSought};

use crate::found::Found;
use crate::leads::Leads;
use crate::search::Search;
use cc_model::Reason;
use cc_names::{Name, NoMemory};
use std::alloc::Global;
use std::marker::Model;
use std::mem;

/// The objects that a search found, in the order in which it found them, with the reason of each.
#[derive(Drop)]
pub struct Reach {
    found: Found,
    // with which a search begins
    alloc: Global,
}

impl Model for Reach {
    ghost use Rattle.std.specs.Prelude.{List};
    ghost use Rattle.cc_model.specs.Answers.{Step};
    ghost use Rattle.cc_model.specs.Derivations.{steps_of};

    ghost Value = { List Step };

    ghost view = { λ r. steps_of r.found };
}

impl Reach {
    /// Nothing is found yet.
    pub fn new(alloc: Global) -> Reach
        ensures { result ≡ [] }
    {
        Reach {
            found: Found::new(alloc),
            alloc,
        }
    }

    /// Finds all that the registers reach. What was found before is forgotten.
    ///
    /// After `NoMemory` it is only let go.
    pub fn find<L: Leads>(&mut self, leads: &L) -> Result<(), NoMemory>
        requires { L.is_ready leads.now }
        ensures { OnOk result (self.new ≡ derivation (L.leads leads.now)) }
    {
        self.search(leads, None)
    }

    /// Looks for an object from the registers on: finds what they reach, until the object is found or nothing is left. What was
    /// found before is forgotten.
    ///
    /// After `NoMemory` it is only let go.
    pub fn seek<L: Leads>(&mut self, leads: &L, name: &Name) -> Result<(), NoMemory>
        requires { L.is_ready leads.now }
        ensures { OnOk result (HasSought (L.leads leads.now) name.now self.new) }
    {
        self.search(leads, Some(*name))
    }

    /// One search, for an object where one is sought.
    fn search<L: Leads>(&mut self, leads: &L, sought: Option<Name>) -> Result<(), NoMemory>
        requires { L.is_ready leads.now }
        ensures { OnOk result (HasEnded (L.leads leads.now) sought self.new) }
    {
        let mut found = mem::replace(&mut self.found, Found::new(self.alloc));
        found.forget();
        let mut search = Search::over(self.alloc, leads, found);
        search.run(self.alloc, sought)?;
        self.found = search.end();
        Ok(())
    }

    /// Whether an object was found.
    pub fn has(&self, name: &Name) -> bool
        ensures { result ≡ has same_name (named self.now) name.now }
    {
        self.found.has(name)
    }

    /// How many objects were found.
    pub fn len(&self) -> usize
        ensures { result ≡ length self.now }
    {
        self.found.len()
    }

    /// The object that was found at a place, counted from 0.
    pub fn name(&self, i: usize) -> Name
        requires { i < length self.now }
        ensures { slice_get (named self.now) i ≡ Some result }
    {
        let (name, _) = self.found.step(i);
        name
    }

    /// The steps that lead to an object, each once, itself last; none where it was not found.
    pub fn path_to(&self, alloc: Global, name: &Name) -> Result<Vec<(Name, Reason)>, NoMemory>
        ensures { IfOk result (λ path. path.items ≡ (needed_for self.now (name.now ∷ [])).steps) }
    {
        self.found.path_to(alloc, name)
    }
}
