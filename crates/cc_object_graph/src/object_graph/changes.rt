//! What a command makes of the graph.
ghost use Rattle.std.specs.Prelude.{◌≡◌, ◌<◌, false, length, IsTrue, OnOk};
ghost use Rattle.cc_model.specs.declared.command.Command.TheVariants.{Drop};
ghost use Rattle.cc_model.specs.Checks.{is_full};
ghost use Rattle.cc_model.specs.Graph.{changed, objects_of};
ghost use Rattle.cc_model.specs.Ranges.{in_range};
ghost use Rattle.cc_object_graph.specs.Ready.{IsReady, may_take_memory};

use crate::made_script::MadeScript;
use crate::object_graph::ObjectGraph;
use crate::object_graph::replies::{native_of, reflector_of};
use cc_model::Command;
use cc_names::{NoMemory, Reg};

#[tactic(auto, unfolding(cc_model::specs::Graph::changed, cc_model::specs::Graph::done_to, cc_model::specs::Deeds::deed_of))]
impl ObjectGraph {
    /// Empties a register of any kind.
    fn empty(&mut self, r: Reg)
        ensures { self.new ≡ changed self.old (Drop r) }
    {
        match r {
            Reg::N(_) | Reg::S(_) => self.set_register(r, None),
            Reg::W(w) => self.set_weak(w, None),
        }
    }

    /// Does a command that takes no memory.
    fn write(&mut self, command: &Command)
        requires no_memory { may_take_memory command.now ≡ false }
        requires in_range { IsTrue (in_range command.now) }
        ensures { self.new ≡ changed self.old command.now }
    {
        match *command {
            Command::CopyNative(d, s) => self.set_register(Reg::N(d), self.register(Reg::N(s))),
            Command::CopyScript(d, s) => self.set_register(Reg::S(d), self.register(Reg::S(s))),
            Command::Drop(r) => self.empty(r),
            Command::Set(d, i, from) => {
                self.set_slot(self.register(Reg::N(d)), i, self.source(from))
            }
            Command::Get(d, s, i) => self.set_register(d, self.slot_at(Reg::N(s), i)),
            Command::Move(d, i, s, j) => {
                let to = self.register(Reg::N(d));
                let from = self.register(Reg::N(s));
                let content = self.slot_at(Reg::N(s), j);
                self.move_slot(to, i, from, j, content)
            }
            Command::Put(d, i, from) => {
                let to = self.register(Reg::S(d));
                let content = self.script_source(from);
                self.preserve(to);
                self.set_slot(to, i, content)
            }
            Command::Take(d, s, i) => self.set_register(Reg::S(d), self.slot_at(Reg::S(s), i)),
            Command::Unwrap(d, s) => {
                self.set_register(Reg::N(d), native_of(self.register(Reg::S(s))))
            }
            Command::Preserve(s) => self.preserve(self.register(Reg::S(s))),
            Command::GetEntry(d, m, k) => self.set_register(Reg::S(d), self.value_at(m, k)),
            Command::Weak(w, s) => self.set_weak(w, self.register(Reg::N(s))),
            _ => (),
        }
    }

    /// Does a command that is not refused.
    pub(super) fn change(&mut self, command: &Command) -> Result<(), NoMemory>
        requires ready { IsReady self.old }
        requires in_range { IsTrue (in_range command.now) }
        requires room { is_full (objects_of self.old) command.now ≡ false }
        ensures { OnOk result (self.new ≡ changed self.old command.now) }
    {
        match *command {
            Command::Native(d, slots) => self.make_native(d, slots),
            Command::Script(d, slots) => self.make_plain(d, slots),
            Command::WeakMap(d) => self.make_script(d, MadeScript::Map),
            Command::Proxy(d, s) => self.make_proxy(d, self.register(Reg::S(s))),
            Command::Wrap(d, s) => {
                let native = self.register(Reg::N(s));
                self.wrap(native)?;
                self.set_register(Reg::S(d), reflector_of(native));
                Ok(())
            }
            Command::SetEntry(m, k, from) => {
                let the_map = self.register(Reg::S(m));
                let key = self.register(Reg::S(k));
                let value = self.script_source(from);
                self.set_entry(the_map, key, value)
            }
            _ => {
                self.write(command);
                Ok(())
            }
        }
    }
}
