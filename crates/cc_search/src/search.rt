//! The search: from the registers on, from one object after another.
ghost use Rattle.std.specs.Prelude.{◌≡◌, ◌<◌, length, Option, Some, IfNone, IfSome, IsSome, OnErr, OnOk, option_and_then};
ghost use Rattle.cc_names.specs.declared.name.Name.{Name as TheName};
ghost use Rattle.cc_model.specs.Slots.{contents};
ghost use Rattle.cc_model.specs.Entries.{joint, key_joint};
ghost use Rattle.cc_model.specs.Derivations.{is_found, nothing_found, steps_of, with_bank, with_edges, with_entries, with_joint, with_joints, with_object};
ghost use Rattle.cc_search.specs.Banks.{reg_in, slots_in};
ghost use Rattle.cc_search.specs.Found.{IsIdle, with_content};
ghost use Rattle.cc_search.specs.Named.{IsHeldAs};
ghost use Rattle.cc_search.specs.Search.{HasEnded, IsNext, falling, has_sought, with_entry_at};

use crate::bank::Bank;
use crate::found::Found;
use crate::leads::Leads;
use cc_model::Reason;
use cc_names::{Name, NoMemory};
use std::alloc::Global;
use std::marker::Model;

/// A search: what is searched, and the walk so far.
#[derive(Drop)]
pub(crate) struct Search<'a, L: Leads> {
    leads: &'a L,
    found: Found,
    // what stands for each object that was found
    objects: Vec<L::Object>,
}

impl<'a, L: Leads> Model for Search<'a, L> {
    ghost use Rattle.cc_model.specs.Derivations.{Walk};
    ghost use Rattle.cc_search.specs.Search.{IsSearch};

    ghost Value = { L × Walk };

    ghost view = { λ s. (s.leads.now, s.found) };

    ghost invariant = { λ s. IsSearch (L.is_ready s.leads.now) (L.name_of s.leads.now) s.found s.objects.items };
}

impl<'a, L: Leads> Search<'a, L> {
    /// Nothing is found yet. It takes over the room for what is found.
    pub(crate) fn over(alloc: Global, leads: &'a L, found: Found) -> Search<'a, L>
        requires ready { L.is_ready leads.now }
        requires nothing { found ≡ nothing_found }
        ensures { result ≡ (leads.now, nothing_found) }
    {
        Search {
            leads,
            found,
            objects: Vec::new(alloc),
        }
    }

    /// What was found.
    pub(crate) fn end(self) -> Found
        ensures { result ≡ self.entry.1 }
    {
        self.found
    }

    /// What is searched.
    fn leads(&self) -> &'a L
        ensures leads { result.now ≡ self.now.0 }
        ensures ready { L.is_ready result.now }
    {
        self.leads
    }

    /// Whether an object is found.
    fn has(&self, name: &Name) -> bool
        ensures { result ≡ is_found self.now.1 name.now }
    {
        self.found.has(name)
    }

    /// An object is found, where it is not yet, for a reason. It waits then.
    fn add(&mut self, object: L::Object, reason: Reason) -> Result<(), NoMemory>
        requires { IsSome (L.name_of self.old.0 object) }
        ensures added { OnOk result (self.new ≡ (self.old.0, with_content self.old.1 (L.name_of self.old.0 object) reason)) }
        ensures same { OnErr result (self.new ≡ self.old) }
    {
        let name = self.leads.name(object);
        if self.found.has(&name) {
            return Ok(());
        }
        self.objects.reserve(1)?;
        self.found.add(name, reason)?;
        self.objects.push_reserved(object);
        Ok(())
    }

    /// What a register or a place holds is found, where it is not yet, for a reason.
    fn add_content(&mut self, content: Option<L::Object>, reason: Reason) -> Result<(), NoMemory>
        requires { IfSome content (λ o. IsSome (L.name_of self.old.0 o)) }
        ensures added { OnOk result (self.new ≡ (self.old.0, with_content self.old.1 (option_and_then (L.name_of self.old.0) content) reason)) }
        ensures same { OnErr result (self.new ≡ self.old) }
    {
        match content {
            Some(object) => self.add(object, reason),
            None => Ok(()),
        }
    }

    /// What the registers of a bank hold, from the first on.
    fn add_bank(&mut self, bank: Bank) -> Result<(), NoMemory>
        ensures { OnOk result (self.new ≡ (self.old.0, with_bank (reg_in bank) 0 (slots_in (L.leads self.old.0) bank) self.old.1)) }
    {
        let leads = self.leads();
        for r in 0..leads.used(bank) {
            self.add_content(leads.register(bank, r), Reason::Root(bank.register(r)))?;
        }
        Ok(())
    }

    /// What the places of an object hold, in their order.
    fn add_places(&mut self, name: Name, object: L::Object) -> Result<(), NoMemory>
        requires { L.name_of self.old.0 object ≡ Some name }
        ensures { OnOk result (self.new ≡ (self.old.0, with_edges name (contents ((L.leads self.old.0).places name)) self.old.1)) }
    {
        let leads = self.leads();
        for i in 0..leads.places(object) {
            self.add_content(leads.place(object, i), Reason::Edge(name))?;
        }
        Ok(())
    }

    /// What two members of an entry, the first of which is its map, give together, where both are found.
    fn add_joint(
        &mut self,
        the_map: L::Object,
        key: L::Object,
        value: L::Object,
    ) -> Result<(), NoMemory>
        requires the_map { IsSome (L.name_of self.old.0 the_map) }
        requires key { IsSome (L.name_of self.old.0 key) }
        requires value { IsSome (L.name_of self.old.0 value) }
        ensures { OnOk result ((m k v : TheName) → L.name_of self.old.0 the_map ≡ Some m → L.name_of self.old.0 key ≡ Some k →
            L.name_of self.old.0 value ≡ Some v →
            self.new ≡ (self.old.0, with_joint self.old.1 (joint m k v))) }
    {
        let leads = self.leads();
        let the_map = leads.name(the_map);
        let key = leads.name(key);
        if self.has(&the_map) && self.has(&key) {
            return self.add(value, Reason::Pair(the_map, key));
        }
        Ok(())
    }

    /// What the map of an entry gives with the delegate of its key, where this is a proxy: the key, where both are found.
    fn add_key(
        &mut self,
        the_map: L::Object,
        delegate: Option<L::Object>,
        key: L::Object,
    ) -> Result<(), NoMemory>
        requires the_map { IsSome (L.name_of self.old.0 the_map) }
        requires delegate { IfSome delegate (λ o. IsSome (L.name_of self.old.0 o)) }
        requires key { IsSome (L.name_of self.old.0 key) }
        ensures { OnOk result ((m k : TheName) (d : Option TheName) → L.name_of self.old.0 the_map ≡ Some m → L.name_of self.old.0 key ≡ Some k →
            IsHeldAs (L.name_of self.old.0) d delegate →
            self.new ≡ (self.old.0, with_joints (key_joint m d k) self.old.1)) }
    {
        match delegate {
            Some(delegate) => self.add_joint(the_map, delegate, key),
            None => Ok(()),
        }
    }

    /// What the entry at a place gives: first its key, where this is a proxy, then its value.
    fn add_entry(&mut self, i: usize) -> Result<(), NoMemory>
        requires { i < length (L.leads self.old.0).entries }
        ensures { OnOk result (self.new ≡ (self.old.0, with_entry_at (L.leads self.old.0).entries i self.old.1)) }
    {
        let leads = self.leads();
        let (the_map, key, delegate, value) = leads.entry(i);
        self.add_key(the_map, delegate, key)?;
        self.add_joint(the_map, key, value)
    }

    /// What the entries give of which an object is the map, the key or the key's delegate, in their order. `entries` is room for
    /// their places.
    fn add_entries(&mut self, object: L::Object, entries: &mut Vec<usize>) -> Result<(), NoMemory>
        requires { IsSome (L.name_of self.old.0 object) }
        ensures { OnOk result ((x : TheName) → L.name_of self.old.0 object ≡ Some x →
            self.new ≡ (self.old.0, with_entries x (L.leads self.old.0).entries self.old.1)) }
    {
        places_with(self.leads(), object, entries)?;
        'entries: while let Some(i) = entries.pop() {
            self.add_entry(i)?;
        }
        Ok(())
    }

    /// All that an object leads to. `entries` is room for places, so that none is taken for each object anew.
    fn add_object(
        &mut self,
        name: Name,
        object: L::Object,
        entries: &mut Vec<usize>,
    ) -> Result<(), NoMemory>
        requires { L.name_of self.old.0 object ≡ Some name }
        ensures { OnOk result (self.new ≡ (self.old.0, with_object (L.leads self.old.0) name self.old.1)) }
    {
        self.add_places(name, object)?;
        self.add_entries(object, entries)
    }

    /// The first object that waits, which has walked from then on; none where none waits.
    fn next(&mut self) -> Option<(Name, L::Object)>
        ensures next { IfSome result (λ r. IsNext (L.name_of self.old.0) self.old self.new r) }
        ensures none { IfNone result ((self.new.0 ≡ self.old.0) × IsIdle self.old.1 self.new.1) }
    {
        let (i, name) = self.found.walk_first()?;
        Some((name, self.objects[i]))
    }

    /// Whether the object that is sought, where one is, is found.
    fn has_sought(&self, sought: Option<Name>) -> bool
        ensures { result ≡ has_sought self.now.1 sought }
    {
        match sought {
            Some(name) => self.has(&name),
            None => false,
        }
    }

    /// Finds one object after another, from the registers on, until the one that is sought is found, where one is, or none waits.
    pub(crate) fn run(&mut self, alloc: Global, sought: Option<Name>) -> Result<(), NoMemory>
        requires ready { L.is_ready self.old.0 }
        requires nothing { self.old.1 ≡ nothing_found }
        ensures { OnOk result (HasEnded (L.leads self.old.0) sought (steps_of self.new.1)) }
    {
        self.add_bank(Bank::Natives)?;
        self.add_bank(Bank::Scripts)?;
        let mut entries = Vec::new(alloc);
        'search: while !self.has_sought(sought) {
            let Some((name, object)) = self.next() else {
                return Ok(());
            };
            self.add_object(name, object, &mut entries)?;
        }
        Ok(())
    }
}

/// The places of the entries of which an object is the map, the key or the key's delegate, the last one first.
fn places_with<L: Leads>(
    leads: &L,
    object: L::Object,
    entries: &mut Vec<usize>,
) -> Result<(), NoMemory>
    requires ready { L.is_ready leads.now }
    requires there { IsSome (L.name_of leads.now object) }
    ensures { OnOk result ((x : TheName) → L.name_of leads.now object ≡ Some x →
        entries.new.items ≡ falling (L.leads leads.now).entries x (length (L.leads leads.now).entries)) }
{
    entries.clear();
    let mut place = leads.first_with(object);
    'places: while let Some(i) = place {
        if entries.push(i).is_err() {
            return Err(NoMemory);
        }
        place = leads.next_with(object, i);
    }
    Ok(())
}
