//! The graph as its callers see it.
ghost use Rattle.std.specs.Prelude.{◌≡◌, ◌≤◌, length, slice_index_or, IfOk, IsTrue, None, OnOk};
ghost use Rattle.cc_names.specs.declared.register.Reg.TheVariants as reg;
ghost use Rattle.cc_model.specs.Ranges.{in_range};
ghost use Rattle.cc_model.specs.Checks.{refusal_of, value_at};
ghost use Rattle.cc_model.specs.Graph.{empty_graph, objects_of, register, reply_to, set_register, step};
ghost use Rattle.cc_model.specs.WellMade.{IsWellMade};

mod changes;
mod checks;
mod leading;
mod making;
mod places;
mod reading;
mod replies;
mod writing;

use crate::bank::Bank;
use crate::entries::Entries;
use crate::natives::Natives;
use crate::scripts::Scripts;
use cc_model::{Command, Refusal, Reply, refusal};
use cc_names::{BANK_LENGTH, Limits, Name, NoMemory, Reg, RegNo, WEAK_LENGTH, WeakNo};
use std::alloc::Global;
use std::marker::Model;

/// An object graph: registers, what weak registers note, objects and entries, and the limits within which objects are made.
#[derive(Drop)]
pub struct ObjectGraph {
    native_registers: Bank,
    script_registers: Bank,
    weak_registers: Bank,
    natives: Natives,
    scripts: Scripts,
    entries: Entries,
    limits: Limits,
    // with which objects are made
    alloc: Global,
}

impl Model for ObjectGraph {
    ghost use Rattle.cc_model.specs.Graph.{Graph};

    ghost Value = { Graph };

    ghost view = { λ g. record {
      native_registers = g.native_registers;
      script_registers = g.script_registers;
      weak_registers = g.weak_registers;
      natives = g.natives;
      scripts = g.scripts;
      entries = g.entries;
      limits = g.limits;
    } };
}

impl ObjectGraph {
    /// An empty graph within these limits.
    pub fn new(alloc: Global, limits: Limits) -> Result<ObjectGraph, NoMemory>
        ensures { IfOk result (λ g. g ≡ empty_graph limits) }
    {
        Ok(ObjectGraph {
            native_registers: Bank::empty(alloc, BANK_LENGTH)?,
            script_registers: Bank::empty(alloc, BANK_LENGTH)?,
            weak_registers: Bank::empty(alloc, WEAK_LENGTH)?,
            natives: Natives::new(alloc),
            scripts: Scripts::new(alloc),
            entries: Entries::new(alloc),
            limits,
            alloc,
        })
    }

    /// Why a command is refused; none where it is not.
    pub fn refusal(&self, command: &Command) -> Option<Refusal>
        ensures { result ≡ refusal_of (objects_of self.now) command.now }
    {
        refusal(self, command)
    }

    /// Does a command, and answers its reply. A refused one changes nothing.
    ///
    /// After `NoMemory` the graph is only let go.
    #[tactic(auto, unfolding(cc_model::specs::Checks::refusal_of))]
    pub fn step(&mut self, command: &Command) -> Result<Reply, NoMemory>
        requires well_made { IsWellMade self.old }
        requires limits { (self.old.limits.natives ≤ 1000000) × (self.old.limits.scripts ≤ 1000000) }
        requires in_range { IsTrue (in_range command.now) }
        ensures reply { IfOk result (λ r. r ≡ reply_to self.old command.now) }
        ensures step { OnOk result (self.new ≡ step self.old command.now) }
    {
        if let Some(refusal) = self.refusal(command) {
            return Ok(Reply::Refused(refusal));
        }
        let reply = self.reply(command);
        self.change(command)?;
        Ok(reply)
    }

    /// What a register holds. A weak one is no root, and reads as empty.
    pub fn register(&self, at: Reg) -> Option<Name>
        ensures { result ≡ register self.now at }
    {
        match at {
            Reg::N(r) => self.native_registers.at(r as usize),
            Reg::S(r) => self.script_registers.at(r as usize),
            Reg::W(_) => None,
        }
    }

    /// What a weak register notes.
    pub fn noted(&self, w: WeakNo) -> Option<Name>
        ensures { result ≡ slice_index_or self.now.weak_registers w None }
    {
        self.weak_registers.at(w as usize)
    }

    /// A native register holds what a weak one gave, or nothing. What that gives hangs on what has ended, of which a graph knows nothing.
    pub fn hold_noted(&mut self, d: RegNo, content: Option<Name>)
        ensures { self.new ≡ set_register self.old (reg.N d) content }
    {
        self.set_register(Reg::N(d), content);
    }

    /// The value that what one script register holds has for its key in what the other holds as their map.
    pub fn value_at(&self, the_map: RegNo, key: RegNo) -> Option<Name>
        ensures { result ≡ value_at (objects_of self.now) (register self.now (reg.S the_map)) (register self.now (reg.S key)) }
    {
        match (self.register(Reg::S(the_map)), self.register(Reg::S(key))) {
            (Some(the_map), Some(key)) => self.entries.value(&the_map, &key),
            (Some(_), None) => None,
            (None, _) => None,
        }
    }

    /// How many natives were made. They are numbered from 1.
    pub fn natives(&self) -> usize
        ensures { result ≡ length self.now.natives }
    {
        self.natives.len()
    }

    /// How many plain objects, weak maps and proxies were made. They are numbered from 1.
    pub fn scripts(&self) -> usize
        ensures { result ≡ length self.now.scripts }
    {
        self.scripts.len()
    }
}
