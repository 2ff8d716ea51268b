//! The objects listed.
ghost use Rattle.std.specs.Prelude.{◌≡◌, ◌≤◌, ℕ, List, length, map, ◌+◌, ◌<◌, Some, None};
ghost use Rattle.cc_model.specs.declared.item.Item.TheVariants.{Listed};
ghost use Rattle.cc_model.specs.WellFormed.{native_names, script_names};
ghost use Rattle.cc_model.specs.Run.{census_names};
ghost use Rattle.cc_model.specs.Telling.{Tells};
ghost use Rattle.cc_heaps.specs.Keyed.{IsInOrder};

use crate::heaps::Heaps;
use cc_model::{Item, Notices};
use cc_names::Name;

impl Heaps {
    // Each native by rising number; how many there are.
    fn list_natives<N: Notices>(&self, out: &mut N) -> u32
        requires order { (owned : List ℕ) × IsInOrder owned self.now }
        ensures told { Tells (N.telling out.old) (N.telling out.new) (map Listed (native_names self.now.heap)) }
        ensures count { result ≡ length (native_names self.now.heap) }
        ensures few { result ≤ 1000000 }
    {
        let mut count = 0u32;
        let mut at = self.counted.first();
        while let Some(key) = at {
            match self.counted.number(key) {
                Some(number) => out.tell(Item::Listed(Name::Native(number))),
                None => unreachable!(),
            }
            count += 1;
            at = self.counted.next(key);
        }
        count
    }

    // Each script object in order of making; how many there are.
    fn list_scripts<N: Notices>(&self, out: &mut N) -> u32
        requires order { (owned : List ℕ) × IsInOrder owned self.now }
        ensures told { Tells (N.telling out.old) (N.telling out.new) (map Listed (script_names self.now.heap)) }
        ensures count { result ≡ length (script_names self.now.heap) }
        ensures few { result ≤ 2000000 }
    {
        let mut count = 0u32;
        let mut at = self.scripts.first();
        while let Some(key) = at {
            out.tell(Item::Listed(self.scripts.name(key)));
            count += 1;
            at = self.scripts.next(key);
        }
        count
    }

    /// Lists each native by rising number, then each script object in order of making. How many there are.
    pub fn census<N: Notices>(&self, out: &mut N) -> u32
        requires order { (owned : List ℕ) × IsInOrder owned self.now }
        ensures told { Tells (N.telling out.old) (N.telling out.new) (map Listed (census_names self.now.heap)) }
        ensures count { result ≡ length (census_names self.now.heap) }
    {
        let natives = self.list_natives(out);
        let scripts = self.list_scripts(out);
        natives + scripts
    }
}
