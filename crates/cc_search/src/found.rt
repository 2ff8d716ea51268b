//! What was found so far, and the reason of each.
ghost use Rattle.std.specs.Prelude.{◌≡◌, ℕ, ◌<◌, false, length, slice_get, Some, IfNone, IfSome, OnErr, OnOk};
ghost use Rattle.cc_names.specs.Names.{same_name};
ghost use Rattle.cc_model.specs.Answers.{Step};
ghost use Rattle.cc_model.specs.Derivations.{is_found, nothing_found, steps_of, with_step};
ghost use Rattle.cc_search.specs.Found.{IsFirstWalked, IsIdle, is_place};

use cc_model::Reason;
use cc_names::{Name, NoMemory};
use cc_pages::ByName;
use std::alloc::Global;
use std::marker::Model;

/// The objects that were found so far, each once, with the reason of each. From those before `walked` others were looked for.
#[derive(Drop)]
pub(crate) struct Found {
    steps: Vec<(Name, Reason)>,
    walked: usize,
    places: ByName,
}

impl Model for Found {
    ghost use Rattle.cc_model.specs.Derivations.{Walk};
    ghost use Rattle.cc_search.specs.Found.{IsKept, walk_by};

    ghost Value = { Walk };

    ghost view = { λ f. walk_by f.walked f.steps.items };

    ghost invariant = { λ f. IsKept f.walked f.steps.items f.places };
}

impl Found {
    /// Nothing yet.
    pub(crate) fn new(alloc: Global) -> Found
        ensures { result ≡ nothing_found }
    {
        Found {
            steps: Vec::new(alloc),
            walked: 0,
            places: ByName::new(alloc),
        }
    }

    /// Nothing is found any more. It takes as many steps as there were objects found.
    pub(crate) fn forget(&mut self)
        ensures { self.new ≡ nothing_found }
    {
        self.walked = 0;
        'steps: while let Some((name, _)) = self.steps.pop() {
            self.places.remove(&name);
        }
    }

    /// Whether an object is found.
    pub(crate) fn has(&self, name: &Name) -> bool
        ensures { result ≡ is_found self.now name.now }
    {
        self.places.get(name).is_some()
    }

    /// An object that is not found yet is found, for a reason. It waits then.
    ///
    /// `NoMemory` also where as many objects are found as have numbers.
    pub(crate) fn add(&mut self, name: Name, reason: Reason) -> Result<(), NoMemory>
        requires { is_found self.old name ≡ false }
        ensures added { OnOk result (self.new ≡ with_step self.old name reason) }
        ensures same { OnErr result (self.new ≡ self.old) }
    {
        self.steps.reserve(1)?;
        self.places.set(name, self.steps.len())?;
        self.steps.push_reserved((name, reason));
        Ok(())
    }

    /// The place of the first object that waits, counted from 0, and the object, which has walked from then on; none where none waits.
    pub(crate) fn walk_first(&mut self) -> Option<(usize, Name)>
        ensures first { IfSome result (λ r. IsFirstWalked self.old self.new r.0 r.1) }
        ensures none { IfNone result (IsIdle self.old self.new) }
    {
        if self.walked == self.steps.len() {
            return None;
        }
        let i = self.walked;
        let (name, _) = self.steps[i];
        self.walked += 1;
        Some((i, name))
    }

    /// How many objects are found.
    pub(crate) fn len(&self) -> usize
        ensures { result ≡ length (steps_of self.now) }
    {
        self.steps.len()
    }

    /// An object that was found, and its reason, by its place, counted from 0.
    pub(crate) fn step(&self, i: usize) -> (Name, Reason)
        requires { i < length (steps_of self.now) }
        ensures { slice_get (steps_of self.now) i ≡ Some result }
    {
        self.steps[i]
    }

    /// The place of an object; none where it was not found.
    pub(crate) fn place(&self, name: &Name) -> Option<usize>
        ensures place { (i : ℕ) (s : Step) → slice_get (steps_of self.now) i ≡ Some s → same_name name.now s.0 ≡ is_place result i }
        ensures within { IfSome result (λ i. i < length (steps_of self.now)) }
    {
        match self.places.get(name) {
            Some(place) => Some(place as usize),
            None => None,
        }
    }
}
