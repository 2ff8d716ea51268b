//! What objects refer to: their slots, and behind them the preserved reflector of a native, or the delegate of a proxy and
//! the native of a reflector.
ghost use Rattle.std.specs.Prelude.{◌≡◌, ◌<◌, ℕ, List, length, option_map, slice_index_or, Some, None};
ghost use Rattle.cc_counted.specs.declared.held.Held.TheVariants as held;
ghost use Rattle.cc_heaps.specs.Keyed.{IsInOrder};
ghost use Rattle.cc_heaps.specs.Changes.{IsThere, held_name};
ghost use Rattle.cc_heaps.specs.Places.{places_at};

use crate::heaps::Heaps;
use cc_counted::Held;
use cc_names::{SKey, SlotNo};

// A script object that may be there, as a place holds it.
fn held_script(content: Option<SKey>) -> Option<Held>
    ensures { result ≡ option_map held.Script content }
{
    match content {
        Some(key) => Some(Held::Script(key)),
        None => None,
    }
}

impl Heaps {
    /// How many places an object has in which it may refer to another: its slots and one more of a native, and its slots and
    /// two more of a script object, 1 to 258.
    pub fn places(&self, object: Held) -> SlotNo
        requires order { (owned : List ℕ) × IsInOrder owned self.now }
        requires there { IsThere self.now (Some object) }
        ensures { result ≡ length (places_at self.now object) }
    {
        match object {
            Held::Native(key) => self.counted.slots(key) + 1,
            Held::Script(key) => self.scripts.slots(key) + 2,
        }
    }

    /// What an object refers to at place `i`, counted from 0: what each slot holds, in their order, and behind the last
    /// slot the reflector of a native, where it is preserved, or the delegate of a proxy, and behind that the native of a
    /// reflector.
    #[inline(always)]
    pub fn place(&self, object: Held, i: SlotNo) -> Option<Held>
        requires order { (owned : List ℕ) × IsInOrder owned self.now }
        requires there { IsThere self.now (Some object) }
        requires within { i < length (places_at self.now object) }
        ensures name { held_name self.now result ≡ slice_index_or (places_at self.now object) i None }
        ensures there { IsThere self.now result }
    {
        match object {
            Held::Native(key) => self.counted.reference(key, i),
            Held::Script(key) => self.script_place(key, i),
        }
    }

    // The same of a script object.
    fn script_place(&self, key: SKey, i: SlotNo) -> Option<Held>
        requires order { (owned : List ℕ) × IsInOrder owned self.now }
        requires there { IsThere self.now (Some (held.Script key)) }
        requires within { i < length (places_at self.now (held.Script key)) }
        ensures name { held_name self.now result ≡ slice_index_or (places_at self.now (held.Script key)) i None }
        ensures there { IsThere self.now result }
    {
        let slots = self.scripts.slots(key);
        if i < slots {
            return held_script(self.scripts.slot(key, i));
        }
        if i == slots {
            return held_script(self.scripts.delegate(key));
        }
        Held::of_native(self.scripts.native_of(key))
    }
}
