//! How the registers of the heaps reach objects, for a search. What stands for an object is where it stands in the heaps.
ghost use Rattle.std.specs.Prelude.{◌≡◌, ℕ, List, IfSome, Some, option_map};
ghost use Rattle.cc_model.specs.Derivations.{leads_in};
ghost use Rattle.cc_model.specs.WellFormed.{names_there};
ghost use Rattle.cc_model.proofs.Leading.{heap-within};
ghost use Rattle.cc_counted.specs.declared.held.Held.TheVariants as held;
ghost use Rattle.cc_heaps.specs.Changes.{IsThere, held_name};
ghost use Rattle.cc_heaps.specs.Keyed.{IsInOrder};

use cc_counted::Held;
use cc_heaps::Heaps;
use cc_names::{Name, RegNo, SKey, SlotNo};
use cc_search::{Bank, Leads};

/// The heaps, as a search reads them.
#[derive(Drop)]
pub(crate) struct HeapLeads<'a> {
    pub(crate) heaps: &'a Heaps,
}

/// A script object that may be there, as what stands for it.
fn held_script(content: Option<SKey>) -> Option<Held>
    ensures { result ≡ option_map held.Script content }
{
    match content {
        Some(key) => Some(Held::Script(key)),
        None => None,
    }
}

/// The name of an object that is there.
fn name_of(heaps: &Heaps, object: Held) -> Name
    requires { IsThere heaps.now (Some object) }
    ensures { held_name heaps.now (Some object) ≡ Some result }
{
    match object {
        Held::Native(key) => match heaps.counted().number(key) {
            Some(number) => Name::Native(number),
            None => unreachable!(),
        },
        Held::Script(key) => heaps.scripts().name(key),
    }
}

impl<'a> Leads for HeapLeads<'a> {
    type Object = Held;

    ghost leads = { λ s. leads_in s.heaps.now.heap };

    ghost names = { λ s. names_there s.heaps.now.heap };

    ghost name_of = { λ s o. held_name s.heaps.now (Some o) };

    ghost is_ready = { λ s. (owned : List ℕ) × IsInOrder owned s.heaps.now };

    fn used(&self, bank: Bank) -> RegNo {
        match bank {
            Bank::Natives => self.heaps.native_reg_count(),
            Bank::Scripts => self.heaps.script_reg_count(),
        }
    }

    fn register(&self, bank: Bank, r: RegNo) -> Option<Held> {
        match bank {
            Bank::Natives => Held::of_native(self.heaps.native_reg(r)),
            Bank::Scripts => held_script(self.heaps.script_reg(r)),
        }
    }

    fn name(&self, object: Held) -> Name {
        name_of(self.heaps, object)
    }

    fn places(&self, object: Held) -> usize {
        self.heaps.places(object) as usize
    }

    fn place(&self, object: Held, i: usize) -> Option<Held> {
        // an object has fewer places than fit in 16 bits
        prove!(i < self.heaps.places(object) as usize);
        self.heaps.place(object, i as SlotNo)
    }

    fn first_with(&self, object: Held) -> Option<usize> {
        match object {
            Held::Script(key) => self.heaps.weak().first_with(key),
            // a native is no member of an entry
            Held::Native(_) => None,
        }
    }

    fn next_with(&self, object: Held, place: usize) -> Option<usize> {
        match object {
            Held::Script(key) => self.heaps.weak().next_with(key, place),
            Held::Native(_) => None,
        }
    }

    fn entry(&self, i: usize) -> (Held, Held, Option<Held>, Held) {
        let (the_map, key, delegate, value) = self.heaps.weak().entry(i);
        (
            Held::Script(the_map),
            Held::Script(key),
            held_script(delegate),
            Held::Script(value),
        )
    }

    ghost within = { λ s ready. heap-within s.heaps.now.heap ready.1.sound.well_formed };
}
