//! Objects made.
ghost use Rattle.std.specs.Prelude.{◌≡◌, ◌+◌, ◌<◌, Some, length, OnOk};
ghost use Rattle.cc_names.specs.declared.register.Reg.TheVariants as reg;
ghost use Rattle.cc_names.specs.Names.{native, object};
ghost use Rattle.cc_model.specs.Graph.{plain_object, set_register, with_native, with_proxy, with_script};
ghost use Rattle.cc_model.specs.Slots.{empty_slots};
ghost use Rattle.cc_object_graph.specs.Made.{script_made};

use crate::made_native::MadeNative;
use crate::made_script::MadeScript;
use crate::object_graph::ObjectGraph;
use crate::slots::Slots;
use cc_names::{Name, NoMemory, Reg, RegNo, SlotNo};

impl ObjectGraph {
    /// Makes a native with so many empty slots, which a register holds.
    pub(super) fn make_native(&mut self, d: RegNo, slots: SlotNo) -> Result<(), NoMemory>
        requires { length self.old.natives < 1000000 }
        ensures { OnOk result (self.new ≡ set_register (with_native self.old slots) (reg.N d) (Some (native (length self.old.natives + 1)))) }
    {
        let name = self.next_native();
        let made = MadeNative::new(self.alloc, slots as usize)?;
        self.natives.push(made)?;
        self.set_register(Reg::N(d), Some(name));
        Ok(())
    }

    /// Makes a script object, which a register holds.
    pub(super) fn make_script(&mut self, d: RegNo, made: MadeScript) -> Result<(), NoMemory>
        requires { length self.old.scripts < 1000000 }
        ensures { OnOk result (self.new ≡ set_register (with_script self.old (script_made made)) (reg.S d) (Some (object (length self.old.scripts + 1)))) }
    {
        let name = self.next_script();
        self.scripts.push(made)?;
        self.set_register(Reg::S(d), Some(name));
        Ok(())
    }

    /// Makes a plain object with so many empty slots, which a register holds.
    pub(super) fn make_plain(&mut self, d: RegNo, slots: SlotNo) -> Result<(), NoMemory>
        requires { length self.old.scripts < 1000000 }
        ensures { OnOk result (self.new ≡ set_register (with_script self.old (plain_object (empty_slots slots))) (reg.S d)
            (Some (object (length self.old.scripts + 1)))) }
    {
        let slots = Slots::empty(self.alloc, slots as usize)?;
        self.make_script(d, MadeScript::Plain(slots))
    }

    /// Makes a proxy of an object that may be there, which is preserved; a register holds the proxy.
    pub(super) fn make_proxy(&mut self, d: RegNo, delegate: Option<Name>) -> Result<(), NoMemory>
        requires { length self.old.scripts < 1000000 }
        ensures { OnOk result (self.new ≡ with_proxy self.old d delegate) }
    {
        let Some(delegate) = delegate else {
            return Ok(());
        };
        self.preserve(Some(delegate));
        self.make_script(d, MadeScript::Proxy(delegate))
    }
}
