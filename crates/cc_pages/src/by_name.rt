//! Places by the names of objects.
ghost use Rattle.std.specs.Prelude.{◌≡◌, Some, None, if◌then◌else◌, OnErr, OnOk};
ghost use Rattle.cc_names.specs.declared.name.Name.{Name};
ghost use Rattle.cc_names.specs.Names.{same_name};
ghost use Rattle.cc_pages.specs.ByName.{place_of};

use crate::pages::Pages;
use cc_names::{Name, NoMemory, narrow_key};
use std::alloc::Global;

/// The place of each name in some list: a table for each kind of object, by the object's own number.
#[derive(Drop)]
pub struct ByName {
    natives: Pages,
    scripts: Pages,
    reflectors: Pages,
}

impl ByName {
    /// Of no name. Takes no memory.
    pub fn new(alloc: Global) -> ByName
        ensures { (x : Name) → place_of result x ≡ None }
    {
        ByName {
            natives: Pages::new(alloc),
            scripts: Pages::new(alloc),
            reflectors: Pages::new(alloc),
        }
    }

    /// The place of a name; none where it has none.
    pub fn get(&self, name: &Name) -> Option<u32>
        ensures { result ≡ place_of self.now name.now }
    {
        match name {
            Name::Native(k) => self.natives.get(k.0),
            Name::Script(k) => self.scripts.get(k.0),
            Name::Reflector(k) => self.reflectors.get(k.0),
        }
    }

    /// A name has this place from now on.
    ///
    /// `NoMemory`, also where the place needs more than 32 bits, leaves all places as they were.
    pub fn set(&mut self, name: Name, place: usize) -> Result<(), NoMemory>
        ensures places { OnOk result ((x : Name) → place_of self.new x ≡ (if same_name name x then Some place else place_of self.old x)) }
        ensures err { OnErr result ((x : Name) → place_of self.new x ≡ place_of self.old x) }
    {
        let place = narrow_key(place)?;
        match name {
            Name::Native(k) => self.natives.insert(k.0, place),
            Name::Script(k) => self.scripts.insert(k.0, place),
            Name::Reflector(k) => self.reflectors.insert(k.0, place),
        }
    }

    /// A name has no place from now on.
    pub fn remove(&mut self, name: &Name)
        ensures { (x : Name) → place_of self.new x ≡ (if same_name name.now x then None else place_of self.old x) }
    {
        match name {
            Name::Native(k) => self.natives.remove(k.0),
            Name::Script(k) => self.scripts.remove(k.0),
            Name::Reflector(k) => self.reflectors.remove(k.0),
        }
    }
}
