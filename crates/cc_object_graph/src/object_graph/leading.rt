//! How the registers reach objects, for a search. What stands for an object is its name.
ghost use Rattle.std.specs.Prelude.{Some};
ghost use Rattle.cc_model.specs.Derivations.{leads_made};
ghost use Rattle.cc_model.specs.Reached.{names_of};
ghost use Rattle.cc_model.specs.WellMade.{IsWellMade};
ghost use Rattle.cc_laws_heap.proofs.Face.{graph-within};

use crate::object_graph::ObjectGraph;
use cc_names::{Name, RegNo};
use cc_search::{Bank, Leads};

impl Leads for ObjectGraph {
    type Object = Name;

    ghost leads = { leads_made };

    ghost names = { names_of };

    ghost name_of = { λ g x. Some x };

    ghost is_ready = { IsWellMade };

    fn used(&self, bank: Bank) -> RegNo {
        match bank {
            Bank::Natives => self.native_registers.used() as RegNo,
            Bank::Scripts => self.script_registers.used() as RegNo,
        }
    }

    fn register(&self, bank: Bank, r: RegNo) -> Option<Name> {
        match bank {
            Bank::Natives => self.native_registers.at(r as usize),
            Bank::Scripts => self.script_registers.at(r as usize),
        }
    }

    fn name(&self, object: Name) -> Name {
        object
    }

    fn places(&self, object: Name) -> usize {
        self.places_of(&object)
    }

    fn place(&self, object: Name, i: usize) -> Option<Name> {
        self.place_of(&object, i)
    }

    fn first_with(&self, object: Name) -> Option<usize> {
        self.entries.first_with(&object)
    }

    fn next_with(&self, object: Name, place: usize) -> Option<usize> {
        self.entries.next_with(&object, place)
    }

    fn entry(&self, i: usize) -> (Name, Name, Option<Name>, Name) {
        self.entries.entry(i)
    }

    ghost within = { λ g ready. graph-within g ready };
}
