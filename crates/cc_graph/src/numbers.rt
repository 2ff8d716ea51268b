//! The numbers of nodes by the names of their objects.

ghost use Rattle.std.specs.Prelude.{◌≡◌, ℕ, ◌<◌, ◌≤◌, ◌^◌, Some, None, if◌then◌else◌, option_map, unwrap_or, IfNone, IfOk, IfSome, OnErr, OnOk};
ghost use Rattle.cc_names.specs.declared.name.Name.{Name};
ghost use Rattle.cc_names.specs.Names.{native, same_name};
ghost use Rattle.cc_graph.specs.Kept.{number_at};
ghost use Rattle.cc_graph.specs.Natives.{IsLast, IsNext};

use cc_names::{Name, NativeNo, NoMemory};
use cc_pages::Pages;
use std::alloc::Global;

/// The number of each node by its name: a table for each kind of object, by the object's own number.
#[derive(Drop)]
pub(crate) struct Numbers {
    natives: Pages,
    scripts: Pages,
    reflectors: Pages,
}

impl Numbers {
    /// Of no name.
    pub(crate) fn new(alloc: Global) -> Numbers
        ensures { (x : Name) → number_at result x ≡ None }
    {
        Numbers {
            natives: Pages::new(alloc),
            scripts: Pages::new(alloc),
            reflectors: Pages::new(alloc),
        }
    }

    /// No name has a number from now on.
    pub(crate) fn clear(&mut self)
        ensures { (x : Name) → number_at self.new x ≡ None }
    {
        self.natives.clear();
        self.scripts.clear();
        self.reflectors.clear();
    }

    /// The number of a name; none where it has none.
    pub(crate) fn get(&self, name: &Name) -> Option<u32>
        ensures { result ≡ number_at self.now name.now }
    {
        match name {
            Name::Native(k) => self.natives.get(k.0),
            Name::Script(k) => self.scripts.get(k.0),
            Name::Reflector(k) => self.reflectors.get(k.0),
        }
    }

    /// The number of a name, which is `number` from now on where it had none.
    ///
    /// `NoMemory`, only where it had none, leaves all numbers as they were.
    pub(crate) fn get_or_add(&mut self, name: Name, number: u32) -> Result<u32, NoMemory>
        ensures found { IfOk result (λ n. n ≡ unwrap_or (number_at self.old name) number) }
        ensures added { IfOk result (λ n. (x : Name) → number_at self.new x ≡ (if same_name name x then Some n else number_at self.old x)) }
        ensures err { OnErr result ((x : Name) → number_at self.new x ≡ number_at self.old x) }
        ensures absent { OnErr result (number_at self.old name ≡ None) }
    {
        match name {
            Name::Native(k) => self.natives.get_or_insert(k.0, number),
            Name::Script(k) => self.scripts.get_or_insert(k.0, number),
            Name::Reflector(k) => self.reflectors.get_or_insert(k.0, number),
        }
    }

    /// A name has no number from now on.
    pub(crate) fn remove(&mut self, name: Name)
        ensures { (x : Name) → number_at self.new x ≡ (if same_name name x then None else number_at self.old x) }
    {
        match name {
            Name::Native(k) => self.natives.remove(k.0),
            Name::Script(k) => self.scripts.remove(k.0),
            Name::Reflector(k) => self.reflectors.remove(k.0),
        }
    }

    /// The native with the least number above that of `after`, or of all where there is no `after`, of those whose names
    /// have a number, and that number; none where there is no such native.
    pub(crate) fn native_after(&self, after: Option<NativeNo>) -> Option<(NativeNo, u32)>
        ensures next { IfSome result (λ r. IsNext (number_at self.now) after r.0.0 r.1) }
        ensures small { IfSome result (λ r. r.0.0 < 2 ^ 32) }
        ensures last { IfNone result (IsLast (number_at self.now) after) }
    {
        let next = self.natives.next_after(own_number(after));
        match next {
            Some((number, node)) => Some((NativeNo(number), node)),
            None => None,
        }
    }
}

/// The number of a native.
fn own_number(native: Option<NativeNo>) -> Option<u32>
    ensures { result ≡ option_map (λ k. k.0) native }
{
    match native {
        Some(native) => Some(native.0),
        None => None,
    }
}
