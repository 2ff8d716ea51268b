//! What the checks of a command read of the graph.

use crate::object_graph::ObjectGraph;
use cc_model::Reads;
use cc_names::{Name, Reg, RegNo};

impl Reads for ObjectGraph {
    ghost use Rattle.cc_model.specs.Graph.{objects_of};

    ghost objects = { objects_of };

    ghost IsReadable = { λ g. Unit {0} };

    fn is_empty(&self, at: Reg) -> bool {
        self.register(at).is_none()
    }

    fn is_map(&self, at: RegNo) -> bool {
        match self.register(Reg::S(at)) {
            Some(name) => self.slots(name).is_none(),
            None => false,
        }
    }

    fn is_reflector(&self, at: RegNo) -> bool {
        matches!(self.register(Reg::S(at)), Some(Name::Reflector(_)))
    }

    fn slot_count(&self, at: Reg) -> usize {
        self.slots_at(at).len()
    }

    fn holds_native(&self, at: RegNo, i: u32) -> bool {
        matches!(self.slot_at(Reg::N(at), i), Some(Name::Native(_)))
    }

    fn holds_script(&self, at: RegNo, i: u32) -> bool {
        matches!(
            self.slot_at(Reg::N(at), i),
            Some(Name::Script(_) | Name::Reflector(_))
        )
    }

    fn has_all_natives(&self) -> bool {
        self.natives.len() >= self.limits.natives() as usize
    }

    fn has_all_scripts(&self) -> bool {
        self.scripts.len() >= self.limits.scripts() as usize
    }
}
