//! The numbers that a program gives to objects.
ghost use Rattle.std.specs.Prelude.{◌≡◌, ◌≢◌, ◌≤◌, ℕ, [], length, OnOk, OnErr, slice_index_or};
ghost use Rattle.cc_names.specs.declared.name.Name.{Name as TheName};
ghost use Rattle.cc_names.specs.Names.{number_of};
ghost use Rattle.cc_host.specs.Hosts.{Given, given_to, list_for, nothing_given};

use cc_names::{Name, NoMemory};
use std::alloc::Global;
use std::marker::Model;

/// A number of the program's for each object, by the object's name: a list for natives, one for script objects, and one for reflectors,
/// each by the objects' own numbers.
///
/// Plain: a list takes 8 bytes for each object of its kind up to the last one that was given a number.
#[derive(Drop)]
pub(crate) struct Data {
    natives: Vec<u64>,
    scripts: Vec<u64>,
    reflectors: Vec<u64>,
}

impl Model for Data {
    ghost use Rattle.cc_host.specs.Hosts.{Given};

    ghost Value = { Given };

    ghost view = { λ d. record { natives = d.natives.items; scripts = d.scripts.items; reflectors = d.reflectors.items } };
}

// What a list has for a number; 0 where it has nothing.
fn value_at(list: &Vec<u64>, number: u32) -> u64
    ensures { result ≡ slice_index_or list.now.items number 0 }
{
    match list.get(number as usize) {
        Some(value) => *value,
        None => 0,
    }
}

// A list has a value for a number from then on, and reads as before elsewhere.
fn set_value(list: &mut Vec<u64>, number: u32, value: u64) -> Result<(), NoMemory>
    ensures given { OnOk result (slice_index_or list.new.items number 0 ≡ value) }
    ensures others { (n : ℕ) → n ≢ number → slice_index_or list.new.items n 0 ≡ slice_index_or list.old.items n 0 }
    ensures err { OnErr result ((n : ℕ) → slice_index_or list.new.items n 0 ≡ slice_index_or list.old.items n 0) }
    ensures wanted { OnErr result (length list.old.items ≤ number) }
{
    let index = number as usize;
    if index >= list.len() {
        list.resize(index + 1, 0)?;
    }
    list[index] = value;
    Ok(())
}

// A list has 0 for a number from then on.
fn clear_value(list: &mut Vec<u64>, number: u32)
    ensures cleared { slice_index_or list.new.items number 0 ≡ 0 }
    ensures others { (n : ℕ) → n ≢ number → slice_index_or list.new.items n 0 ≡ slice_index_or list.old.items n 0 }
{
    let index = number as usize;
    if index < list.len() {
        list[index] = 0;
    }
}

impl Data {
    /// No object was given a number.
    pub(crate) fn new(alloc: Global) -> Data
        ensures { result ≡ nothing_given }
    {
        Data {
            natives: Vec::new(alloc),
            scripts: Vec::new(alloc),
            reflectors: Vec::new(alloc),
        }
    }

    /// The number that the object of this name was given; 0 where it was given none.
    pub(crate) fn of(&self, x: Name) -> u64
        ensures { result ≡ given_to self.now x }
    {
        match x {
            Name::Native(number) => value_at(&self.natives, number.0),
            Name::Script(number) => value_at(&self.scripts, number.0),
            Name::Reflector(number) => value_at(&self.reflectors, number.0),
        }
    }

    /// The object of this name has a number from then on. `NoMemory` changes no number.
    pub(crate) fn set(&mut self, x: Name, value: u64) -> Result<(), NoMemory>
        ensures given { OnOk result (given_to self.new x ≡ value) }
        ensures others { (y : TheName) → y ≢ x → given_to self.new y ≡ given_to self.old y }
        ensures err { OnErr result ((y : TheName) → given_to self.new y ≡ given_to self.old y) }
        ensures wanted { OnErr result (length (list_for self.old x) ≤ number_of x) }
    {
        match x {
            Name::Native(number) => set_value(&mut self.natives, number.0, value),
            Name::Script(number) => set_value(&mut self.scripts, number.0, value),
            Name::Reflector(number) => set_value(&mut self.reflectors, number.0, value),
        }
    }

    /// The object of this name has the number 0 from then on.
    pub(crate) fn clear(&mut self, x: Name)
        ensures cleared { given_to self.new x ≡ 0 }
        ensures others { (y : TheName) → y ≢ x → given_to self.new y ≡ given_to self.old y }
    {
        match x {
            Name::Native(number) => clear_value(&mut self.natives, number.0),
            Name::Script(number) => clear_value(&mut self.scripts, number.0),
            Name::Reflector(number) => clear_value(&mut self.reflectors, number.0),
        }
    }
}
