//! Registers, slots and entries written.
ghost use Rattle.std.specs.Prelude.{◌≡◌, IfSome, OnOk};
ghost use Rattle.cc_model.specs.Graph.{delegate_in, move_slot, preserve, set_entry, set_register, set_slot, set_weak, wrapped};
ghost use Rattle.cc_object_graph.specs.Keyed.{HasKey};

use crate::object_graph::ObjectGraph;
use cc_names::{Name, NoMemory, Reg, WeakNo};

impl ObjectGraph {
    /// Writes a register that is a root. A weak one is none: nothing is written.
    pub(super) fn set_register(&mut self, at: Reg, content: Option<Name>)
        ensures { self.new ≡ set_register self.old at content }
    {
        match at {
            Reg::N(r) => self.native_registers.write(r as usize, content),
            Reg::S(r) => self.script_registers.write(r as usize, content),
            Reg::W(_) => (),
        }
    }

    /// Writes what a weak register notes.
    pub(super) fn set_weak(&mut self, w: WeakNo, content: Option<Name>)
        ensures { self.new ≡ set_weak self.old w content }
    {
        self.weak_registers.write(w as usize, content);
    }

    /// Writes slot `i` of an object that may be there.
    pub(super) fn set_slot(&mut self, of: Option<Name>, i: u32, content: Option<Name>)
        ensures { self.new ≡ set_slot self.old of i content }
    {
        match of {
            None => (),
            Some(Name::Native(k)) => self.natives.write(k, i as usize, content),
            Some(Name::Script(k)) => self.scripts.write(k, i as usize, content),
            Some(Name::Reflector(k)) => self.natives.write_reflector(k, i as usize, content),
        }
    }

    /// Moves a content from slot `j` of an object into slot `i` of another or of the same.
    pub(super) fn move_slot(
        &mut self,
        to: Option<Name>,
        i: u32,
        from: Option<Name>,
        j: u32,
        content: Option<Name>,
    )
        ensures { self.new ≡ move_slot self.old to i from j content }
    {
        self.set_slot(from, j, None);
        self.set_slot(to, i, content);
    }

    /// Preserves a reflector. Nothing where it is none.
    pub(super) fn preserve(&mut self, reflector: Option<Name>)
        ensures { self.new ≡ preserve self.old reflector }
    {
        match reflector {
            Some(Name::Reflector(k)) => self.natives.preserve(k),
            Some(Name::Native(_)) => (),
            Some(Name::Script(_)) => (),
            None => (),
        }
    }

    /// A native that was never wrapped gets a reflector with empty slots.
    pub(super) fn wrap(&mut self, native: Option<Name>) -> Result<(), NoMemory>
        ensures { OnOk result (self.new ≡ wrapped self.old native) }
    {
        match native {
            Some(Name::Native(k)) => self.natives.wrap(self.alloc, k),
            Some(Name::Script(_)) => Ok(()),
            Some(Name::Reflector(_)) => Ok(()),
            None => Ok(()),
        }
    }

    /// A key gets a value in a map, and is preserved; or it has none from then on.
    pub(super) fn set_entry(
        &mut self,
        the_map: Option<Name>,
        key: Option<Name>,
        value: Option<Name>,
    ) -> Result<(), NoMemory>
        requires the_map { IfSome the_map HasKey }
        requires key { IfSome key HasKey }
        requires value { IfSome value HasKey }
        requires delegate { IfSome key (λ k. IfSome (delegate_in self.old k) HasKey) }
        ensures { OnOk result (self.new ≡ set_entry self.old the_map key value) }
    {
        let Some(the_map) = the_map else {
            return Ok(());
        };
        let Some(key) = key else {
            return Ok(());
        };
        let Some(value) = value else {
            self.entries.unset(&the_map, &key);
            return Ok(());
        };
        let delegate = self.delegate(key);
        self.preserve(Some(key));
        self.entries.set(&the_map, &key, delegate, &value)
    }
}
