//! Walks over all objects and over the entries of a weak map, the bytes held, and whether a collection is worth it.
ghost use Rattle.std.specs.Prelude.{◌≡◌, ◌≤◌, count_by, Some, None, IfOk, OnOk};
ghost use Rattle.cc_lists.specs.Members.{Among};
ghost use Rattle.cc_lists.specs.Walks.{first_of};
ghost use Rattle.cc_model.specs.Checks.{value_at};
ghost use Rattle.cc_model.specs.Heap.{objects_of};
ghost use Rattle.cc_names.specs.Names.{same_name};
ghost use Rattle.cc_names.specs.declared.name.Name.{Name as TheName};
ghost use Rattle.cc_host.specs.declared.object.Object.{Object as TheObject};
ghost use Rattle.cc_host.specs.Hosted.{IsThereIfAny, named};
ghost use Rattle.cc_host.specs.Stops.{IsStoppedBy, stop_at, stop_entry, stop_if_any, stop_map};
ghost use Rattle.cc_host.specs.Walks.{IsPairThere, behind, behind_key, bytes_held, entries_of, is_due, objects_in, pair_named, value_of};

use crate::host::Host;
use crate::object::Object;
use crate::stop::Stop;

impl Host {
    /// The first object that is there; none exactly where there is none. From it `next_object` goes on to the others.
    ///
    /// The walk goes over the natives, by rising number, and then over the script objects, in the order in which they were made. As long as
    /// nothing changes it comes to each object that the calls take (`whole`), to each once (`once`), and to nothing else (`taken`). Some
    /// of it may be garbage that is not freed yet. It takes as many steps as natives that were unlinked, and are not freed yet, stand in front.
    pub fn first_object(&self) -> Option<Object>
        ensures name { named result ≡ first_of (objects_in self.now.host.heaps.heap) }
        ensures there { IsThereIfAny self.now.host result }
        ensures taken { stop_if_any stop_at self.now.host result ≡ None }
        ensures whole { (x : TheObject) → stop_at self.now.host x ≡ None → Among x.name (objects_in self.now.host.heaps.heap) }
        ensures once { (x : TheName) → count_by (same_name x) (objects_in self.now.host.heaps.heap) ≤ 1 }
    {
        self.runtime.first_object()
    }

    /// The object that is there behind another, in the order of `first_object`; none exactly where that is the last. It takes as many steps
    /// as natives that were unlinked, and are not freed yet, stand between, and one more.
    ///
    /// Where a program changes something between two calls, it meets this:
    ///
    /// - An object that is gone by then is `Gone` here too, and the walk has lost its place. So hold the object at which it stands by a root
    ///   until the next one is asked for: whatever lets go of something, and each collection, may take it.
    /// - What is made comes last of its kind. So a walk at natives comes to new natives, and each walk to new script objects; a walk that
    ///   makes an object at each step goes on until a limit stops it. A walk that has left the natives comes to no new one.
    /// - A reflector that was freed and made anew comes last again: the walk may come to it twice or, where it stood at it and did not hold
    ///   it, end there.
    /// - What it comes to may be garbage. `root` takes any native; hand in script objects only where a root reaches them (`why`).
    pub fn next_object(&self, x: Object) -> Result<Option<Object>, Stop>
        ensures stops { IsStoppedBy (stop_at self.now.host x) result }
        ensures name { IfOk result (λ next. named next ≡ behind x.name (objects_in self.now.host.heaps.heap)) }
        ensures there { IfOk result (λ next. IsThereIfAny self.now.host next) }
        ensures taken { IfOk result (λ next. stop_if_any stop_at self.now.host next ≡ None) }
    {
        self.runtime.next_object(x)
    }

    /// The first entry of a weak map, its key and its value; none exactly where it has none. From it `next_entry` goes on to the others.
    ///
    /// The order is against that in which entries were first set: the one that was set first comes last. An entry that is set again keeps
    /// its place. Keys and values may be garbage that is not freed yet. It takes a step for each entry of another map that it passes over,
    /// one that has this map for its key, or for the delegate of its key.
    pub fn first_entry(&self, the_map: Object) -> Result<Option<(Object, Object)>, Stop>
        ensures stops { IsStoppedBy (stop_map self.now.host the_map) result }
        ensures names { IfOk result (λ entry. pair_named entry ≡ first_of (entries_of self.now.host.heaps.heap the_map.name)) }
        ensures there { IfOk result (λ entry. IsPairThere self.now.host entry) }
        ensures whole { OnOk result ((k : TheName) → value_of k (entries_of self.now.host.heaps.heap the_map.name)
            ≡ value_at (objects_of self.now.host.heaps.heap) (Some the_map.name) (Some k)) }
        ensures once { OnOk result ((k : TheName) → count_by (λ entry. same_name entry.0 k) (entries_of self.now.host.heaps.heap the_map.name) ≤ 1) }
    {
        self.runtime.first_entry(the_map)
    }

    /// The entry of a weak map behind that of a key, in the order of `first_entry`; none exactly where that is the last, or where the key
    /// has no entry in this map.
    ///
    /// To find the entry takes as many steps as there are entries with the map in them, or with the key, whichever are fewer; the rest is
    /// as in `first_entry`.
    ///
    /// Where a program changes entries between two calls: ask for the next one before the one at which the walk stands is taken out, since
    /// its key has none then, and the answer is none, as at the end. What frees a key takes out its entries. An entry that is set for a new
    /// key comes first, so the walk does not come to it; and where the one at which it stands was taken out and set again, it begins anew.
    pub fn next_entry(&self, the_map: Object, key: Object) -> Result<Option<(Object, Object)>, Stop>
        ensures stops { IsStoppedBy (stop_entry self.now.host the_map key) result }
        ensures names { IfOk result (λ entry. pair_named entry ≡ behind_key key.name (entries_of self.now.host.heaps.heap the_map.name)) }
        ensures there { IfOk result (λ entry. IsPairThere self.now.host entry) }
    {
        self.runtime.next_entry(the_map, key)
    }

    /// How many bytes the host holds for its objects, as an estimate: 272 for a native and 254 for a script object, 8 for each slot, and 44
    /// for each entry of a weak map; 2^64 - 1 where it would be more. Of a process 275 to 335 bytes were measured for an object.
    ///
    /// It looks at each object once, those that were unlinked too. What it does not count: that rooms double as they grow, and stay when
    /// objects go, so that up to twice as much may be taken; the nodes of a collection, 68 bytes each, whose room stays for the next
    /// one; and what roots and the program's numbers take.
    pub fn bytes(&self) -> u64
        ensures { result ≡ bytes_held self.now.host.heaps.heap }
    {
        self.runtime.bytes()
    }

    /// Whether a collection is worth it, as a hint: one runs already; or a thousand natives at least stand in the buffer of suspects; or 16 at
    /// least, and an eighth of all natives. It takes a thousand steps at most.
    ///
    /// Natives stand there, too, that were made since the last collection began, or to which a reference was taken. So the answer is
    /// `true` where much was done to natives, whether they became garbage or not. Of script objects it says nothing: `gc` frees them.
    pub fn is_collection_due(&self) -> bool
        ensures { result ≡ is_due self.now.host }
    {
        self.runtime.is_collection_due()
    }
}
