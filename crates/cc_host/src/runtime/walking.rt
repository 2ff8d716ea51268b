//! Walks over all objects and over the entries of a weak map, the bytes held, and whether a collection is worth it.
ghost use Rattle.std.specs.Prelude.{◌≡◌, ◌<◌, ◌≤◌, count_by, length, min, sum_by, Some, None, IfNone, IfOk, IfSome, OnOk};
ghost use Rattle.cc_lists.specs.Members.{Among};
ghost use Rattle.cc_lists.specs.Walks.{first_of};
ghost use Rattle.cc_model.specs.Checks.{value_at};
ghost use Rattle.cc_model.specs.Heap.{objects_of};
ghost use Rattle.cc_names.specs.Names.{same_name};
ghost use Rattle.cc_names.specs.declared.name.Name.{Name as TheName};
ghost use Rattle.cc_weakmaps.specs.Index.{IsPlaceOf};
ghost use Rattle.cc_heaps.specs.Changes.{IsNativeThere, IsScriptThere};
ghost use Rattle.cc_heaps.specs.Keyed.{the_name_at};
ghost use Rattle.cc_host.specs.declared.object.Object.{Object as TheObject};
ghost use Rattle.cc_host.specs.Hosted.{IsThereIfAny, named};
ghost use Rattle.cc_host.specs.Stops.{IsStoppedBy, stop_at, stop_entry, stop_if_any, stop_map};
ghost use Rattle.cc_host.specs.Walks.{IsEntryPlace, IsPairThere, behind, behind_entry, behind_key, bytes_held, bytes_of_native, bytes_of_script};
ghost use Rattle.cc_host.specs.Walks.{entries_of, is_due, is_entry_at, names_from, objects_in, pair_named, pairs_from, value_of};

use crate::object::Object;
use crate::runtime::Runtime;
use crate::stop::Stop;
use cc_model::Item;
use cc_names::{NKey, Name, SKey};
use std::mem::size_of;

// The estimate of `bytes` is of these. Sizes of a native's and of a script object's own parts are proved beside their types.

// four items are the room for what can be told of an object
const _: () = prove!(size_of::<Item>() == 32);

/// A native, its slots aside: 112 bytes and 8 in the table of holders; 24 that the allocator adds for the block of its slots; and 128 for
/// what can be told of it.
const NATIVE_BYTES: u64 = 272;

/// A script object, its slots aside: 94 bytes and 8 in the index of entries, and the same 24 and 128.
const SCRIPT_BYTES: u64 = 254;

/// A slot of either.
const SLOT_BYTES: u64 = 8;

/// An entry of a weak map.
const ENTRY_BYTES: u64 = 44;

// So many natives in the buffer are worth a collection, however many natives there are.
const MANY: usize = 1000;

// Fewer than these never are.
const FEW: usize = 16;

impl Runtime {
    // The first native from this one on that was not unlinked; where all were, the first script object. It takes a step for each native
    // that it passes over.
    fn first_from(&self, start: Option<NKey>) -> Option<Object>
        requires { IsNativeThere self.now.heaps start }
        ensures name { named result ≡ first_of (names_from self.now.heaps start) }
        ensures there { IsThereIfAny self.now result }
    {
        let mut at = start;
        while let Some(key) = at {
            if !self.heaps.counted().unlinked(key) {
                return self.of_native(Some(key));
            }
            at = self.heaps.counted().next(key);
        }
        self.of_script(self.heaps.scripts().first())
    }

    /// The first object that is there; none exactly where there is none. Natives come first, by rising number, and then script objects, in
    /// the order in which they were made.
    ///
    /// A walk by `next_object` has all that each call takes (`whole`), each once (`once`), and nothing else (`taken`).
    pub fn first_object(&self) -> Option<Object>
        ensures name { named result ≡ first_of (objects_in self.now.heaps.heap) }
        ensures there { IsThereIfAny self.now result }
        ensures taken { stop_if_any stop_at self.now result ≡ None }
        ensures whole { (x : TheObject) → stop_at self.now x ≡ None → Among x.name (objects_in self.now.heaps.heap) }
        ensures once { (x : TheName) → count_by (same_name x) (objects_in self.now.heaps.heap) ≤ 1 }
    {
        self.first_from(self.heaps.counted().first())
    }

    /// The object that is there behind another; none exactly where that is the last. It takes as many steps as unlinked natives, which are
    /// not freed yet, stand between, and one more.
    pub fn next_object(&self, x: Object) -> Result<Option<Object>, Stop>
        ensures stops { IsStoppedBy (stop_at self.now x) result }
        ensures name { IfOk result (λ next. named next ≡ behind x.name (objects_in self.now.heaps.heap)) }
        ensures there { IfOk result (λ next. IsThereIfAny self.now next) }
        ensures taken { IfOk result (λ next. stop_if_any stop_at self.now next ≡ None) }
    {
        self.look(x)?;
        match x.name {
            Name::Native(_) => {
                let key = self.native(x)?;
                Ok(self.first_from(self.heaps.counted().next(key)))
            }
            Name::Script(_) | Name::Reflector(_) => {
                let key = self.script(x)?;
                Ok(self.of_script(self.heaps.scripts().next(key)))
            }
        }
    }

    // A key and its value, as a program keeps them.
    fn pair(&self, key: SKey, value: SKey) -> Option<(Object, Object)>
        requires key { IsScriptThere self.now.heaps (Some key) }
        requires value { IsScriptThere self.now.heaps (Some value) }
        ensures names { pair_named result ≡ Some (the_name_at self.now.heaps.scripts key.0, the_name_at self.now.heaps.scripts value.0) }
        ensures there { IsPairThere self.now result }
    {
        Some((self.of_script(Some(key))?, self.of_script(Some(value))?))
    }

    // Whether the entry at a place is that of a map and a key.
    fn is_entry_at(&self, place: usize, the_map: SKey, key: SKey) -> bool
        requires { place < length self.now.heaps.entries }
        ensures { result ≡ is_entry_at self.now.heaps.entries the_map.0 key.0 place }
    {
        let (of, with, _, _) = self.heaps.weak().entry(place);
        of == the_map && with == key
    }

    // Where the entry of a map and a key stands; none where there is none. It takes as many steps as the one of the two has entries that
    // has fewer.
    fn place_of(&self, the_map: SKey, key: SKey) -> Option<usize>
        ensures found { IfSome result (IsEntryPlace self.now.heaps.entries the_map.0 key.0) }
        ensures none { IfNone result (behind_entry self.now.heaps.entries the_map.0 key.0 ≡ None) }
    {
        let mut of_map = self.heaps.weak().first_with(the_map);
        let mut of_key = self.heaps.weak().first_with(key);
        while let Some(place) = of_map {
            let other = of_key?;
            if self.is_entry_at(place, the_map, key) {
                return Some(place);
            }
            if self.is_entry_at(other, the_map, key) {
                return Some(other);
            }
            of_map = self.heaps.weak().next_with(the_map, place);
            of_key = self.heaps.weak().next_with(key, other);
        }
        None
    }

    // The first entry of a map from a place of it on, by falling places. A map may be key or value of an entry of another one too.
    fn entry_from(&self, the_map: SKey, start: Option<usize>) -> Option<(Object, Object)>
        requires { IfSome start (IsPlaceOf self.now.heaps.entries the_map.0) }
        ensures names { pair_named result ≡ first_of (pairs_from self.now.heaps the_map.0 start) }
        ensures there { IsPairThere self.now result }
    {
        let mut at = start;
        while let Some(place) = at {
            let (of, key, _, value) = self.heaps.weak().entry(place);
            if of == the_map {
                return self.pair(key, value);
            }
            at = self.heaps.weak().next_with(the_map, place);
        }
        None
    }

    /// The first entry of a weak map, its key and its value; none exactly where it has none. The entry that was set first comes last.
    pub fn first_entry(&self, the_map: Object) -> Result<Option<(Object, Object)>, Stop>
        ensures stops { IsStoppedBy (stop_map self.now the_map) result }
        ensures names { IfOk result (λ entry. pair_named entry ≡ first_of (entries_of self.now.heaps.heap the_map.name)) }
        ensures there { IfOk result (λ entry. IsPairThere self.now entry) }
        ensures whole { OnOk result ((k : TheName) → value_of k (entries_of self.now.heaps.heap the_map.name)
            ≡ value_at (objects_of self.now.heaps.heap) (Some the_map.name) (Some k)) }
        ensures once { OnOk result ((k : TheName) → count_by (λ entry. same_name entry.0 k) (entries_of self.now.heaps.heap the_map.name) ≤ 1) }
    {
        let key = self.map(the_map)?;
        Ok(self.entry_from(key, self.heaps.weak().first_with(key)))
    }

    /// The entry of a weak map behind that of a key; none exactly where that is the last, or where the key has none.
    pub fn next_entry(&self, the_map: Object, key: Object) -> Result<Option<(Object, Object)>, Stop>
        ensures stops { IsStoppedBy (stop_entry self.now the_map key) result }
        ensures names { IfOk result (λ entry. pair_named entry ≡ behind_key key.name (entries_of self.now.heaps.heap the_map.name)) }
        ensures there { IfOk result (λ entry. IsPairThere self.now entry) }
    {
        let the_map = self.map(the_map)?;
        let key = self.script(key)?;
        match self.place_of(the_map, key) {
            Some(place) => {
                let next = self.heaps.weak().next_with(the_map, place);
                Ok(self.entry_from(the_map, next))
            }
            None => Ok(None),
        }
    }

    // The bytes of all natives.
    fn bytes_of_natives(&self) -> u64
        ensures sum { result ≡ sum_by bytes_of_native self.now.heaps.heap.natives }
        ensures few { result ≤ 2320000000 }
    {
        let mut sum = 0;
        let mut at = self.heaps.counted().first();
        while let Some(key) = at {
            sum += NATIVE_BYTES + SLOT_BYTES * self.heaps.counted().slots(key) as u64;
            at = self.heaps.counted().next(key);
        }
        sum
    }

    // The bytes of all script objects.
    fn bytes_of_scripts(&self) -> u64
        ensures sum { result ≡ sum_by bytes_of_script self.now.heaps.heap.scripts }
        ensures few { result ≤ 4604000000 }
    {
        let mut sum = 0;
        let mut at = self.heaps.scripts().first();
        while let Some(key) = at {
            sum += SCRIPT_BYTES + SLOT_BYTES * self.heaps.scripts().slots(key) as u64;
            at = self.heaps.scripts().next(key);
        }
        sum
    }

    /// How many bytes the heaps hold, as an estimate. It looks at each object once.
    pub fn bytes(&self) -> u64
        ensures { result ≡ bytes_held self.now.heaps.heap }
    {
        let objects = self.bytes_of_natives() + self.bytes_of_scripts();
        let entries = ENTRY_BYTES.saturating_mul(self.heaps.weak().len() as u64);
        objects.saturating_add(entries)
    }

    // How many natives are in the buffer, counted up to a thousand.
    fn count_suspects(&self) -> usize
        ensures { result ≡ min (length self.now.heaps.heap.buffer) 1000 }
    {
        let mut count = 0;
        let mut at = self.heaps.counted().first_in_buffer();
        while let Some(key) = at {
            count += 1;
            if count == MANY {
                return count;
            }
            at = self.heaps.counted().next_in_buffer(key);
        }
        count
    }

    /// Whether a collection is worth it, as a hint. It takes a thousand steps at most.
    pub fn is_collection_due(&self) -> bool
        ensures { result ≡ is_due self.now }
    {
        if self.collector.running() {
            return true;
        }
        let waiting = self.count_suspects();
        waiting == MANY || (waiting >= FEW && 8 * waiting >= self.natives())
    }
}
