//! The counted heap as callers see it.
ghost use Rattle.std.specs.Prelude.{◌≡◌, ◌≢◌, false, ℕ, ◌+◌, ◌<◌, ◌≤◌, [], ◌∷◌, ◌++◌, length, Some, None, option_map, option_and_then, slice_index_or, IsSome, IsTrue, IfNone, IfSome, MatchOption, OnOk, IfOk, OnErr};
ghost use Rattle.cc_names.specs.Names.{native};
ghost use Rattle.cc_names.specs.Sizes.{most_slots};
ghost use Rattle.cc_model.specs.Telling.{TellsEvents};
ghost use Rattle.cc_model.specs.Slots.{empty_slots};
ghost use Rattle.cc_model.specs.Heap.{HeapNative, set_preserved, set_slot, suspect, touch, with_mark, buffered_as, new_native};
ghost use Rattle.cc_model.specs.Cascade.{add_ref};
ghost use Rattle.cc_model.specs.End.{unlink};
ghost use Rattle.cc_counted.specs.Counts.{no_counts, number_at, reflector_at, the_number, name_of, is_live, numbers_held, heap_of, with_heap, with_reflector, left_with, released, slots_of, count_of, preserved_of, unlinked_of, references_of, first_number, number_after, with_state_of, state_of, unwalked, NoneWaits};
ghost use Rattle.cc_names.specs.declared.kind.Walked.TheVariants.{Waiting, Given};
ghost use Rattle.cc_walk.specs.Walks.{entered, is_walked};
ghost use Rattle.cc_counted.specs.Owning.{CallersOwn, AreOwned, Transfers, HasKeys};
ghost use Rattle.cc_counted.specs.Scripts.{HasNoHolder, IsNextHolder};
ghost use Rattle.cc_counted.specs.Suspects.{is_in_buffer, is_purple_in, front_number, number_behind};
ghost use Rattle.cc_lists.specs.Members.{Among};

use crate::cell::held_reflector;
use crate::held::Held;
use crate::natives::Natives;
use cc_model::{Event, Item, Notices};
use cc_names::{NKey, Name, NativeNo, NoMemory, SKey, SlotNo};
use std::alloc::Global;
use std::marker::Model;

/// The reference-counted heap of natives, by key.
///
/// A caller owns the references that it took, and gives each up once, by `release` or by putting it into a slot. The
/// clause `owned` of each call says which references callers give and which they gain: `create`, `add_ref` and `root`
/// give them one, `release` and `unroot` take one, and `set_slot` takes the new one and gives back the old.
/// Contracts see natives by their numbers, which are never used again; a key comes back once its native is gone.
///
/// A slot may hold a script object too. It is not counted, and this heap knows its key alone: contracts name it `object`
/// of its key, in the place of a number. Crates above give it its own name, and see to it that it is there.
#[derive(Drop)]
pub struct Counted {
    natives: Natives,
    alloc: Global,
}

impl Model for Counted {
    ghost use Rattle.cc_counted.specs.Counts.{Counts};

    ghost Value = { Counts };

    ghost use Rattle.cc_counted.specs.Resting.{shows, IsAtRest};

    ghost view = { λ c. shows c.natives };

    ghost invariant = { λ c. IsAtRest c.natives };
}

impl Counted {
    /// No natives, and no memory taken.
    pub fn new(alloc: Global) -> Counted
        ensures natives { result ≡ no_counts }
        ensures owned { AreOwned [] result }
    {
        Counted {
            natives: Natives::new(alloc),
            alloc,
        }
    }

    /// Makes a native with `slots` empty slots (0 to 256) and the number `no`, which is above that of every native so far.
    ///
    /// Its count is 1: the caller owns that reference. It stands in the buffer without the purple mark.
    /// `NoMemory` changes nothing. No other call takes memory, at any depth of what it deletes.
    pub fn create(&mut self, no: NativeNo, slots: SlotNo) -> Result<NKey, NoMemory>
        requires slots { slots ≤ most_slots }
        requires above { (n : HeapNative) → Among n self.old.natives → n.number < no.0 }
        requires owned { CallersOwn [] self.old }
        ensures natives { OnOk result (self.new.natives ≡ self.old.natives ++ new_native no.0 slots ∷ []) }
        ensures buffer { OnOk result (self.new.buffer ≡ with_mark false no.0 self.old.buffer) }
        ensures key { IfOk result (λ key. number_at self.new key.0 ≡ Some no.0) }
        ensures others { IfOk result (λ key. (q : ℕ) → q ≢ key.0 → number_at self.new q ≡ number_at self.old q) }
        ensures vacant { IfOk result (λ key. number_at self.old key.0 ≡ None) }
        ensures reflector { IfOk result (λ key. reflector_at self.new key.0 ≡ None) }
        ensures other_reflectors { IfOk result (λ key. (q : ℕ) → q ≢ key.0 → reflector_at self.new q ≡ reflector_at self.old q) }
        ensures as_many { OnOk result (length self.new.reflectors ≡ length self.new.keys) }
        ensures walks { OnOk result ((q : ℕ) → state_of self.new q ≡ state_of self.old q) }
        ensures keyed { HasKeys self.old → HasKeys self.new }
        ensures owned { OnOk result (Transfers [] (no.0 ∷ []) self.old self.new) }
        ensures err { OnErr result (self.new ≡ self.old) }
    {
        let key = self.natives.insert(self.alloc, no, slots)?;
        self.natives.touch(key);
        Ok(key)
    }

    /// Takes one more reference, which the caller owns. The native stands in the buffer without the purple mark.
    #[inline(always)]
    pub fn add_ref(&mut self, key: NKey)
        requires live { IsSome (number_at self.old key.0) }
        requires below { count_of self.old key.0 < 4294967295 }
        requires owned { CallersOwn [] self.old }
        ensures heap { self.new ≡ with_heap self.old (add_ref (heap_of self.old) (the_number self.old key.0)) }
        ensures owned { Transfers [] (the_number self.old key.0 ∷ []) self.old self.new }
    {
        self.natives.raise(key);
        self.natives.touch(key);
    }

    /// The native stands in the buffer without the purple mark: it keeps its place there, or goes last.
    ///
    /// A reference that moves from one slot to another changes no count. A collection that runs sees by this that the native
    /// was in use meanwhile. To be touched is no suspicion: no reference was given up.
    pub fn touch(&mut self, key: NKey)
        requires live { IsSome (number_at self.old key.0) }
        ensures heap { self.new ≡ with_heap self.old (touch (heap_of self.old) (the_number self.old key.0)) }
        ensures owned { Transfers [] [] self.old self.new }
    {
        self.natives.touch(key);
    }

    /// Gives up one reference that the caller owns, and deletes what then has none, cascade and all.
    pub fn release<N: Notices>(&mut self, key: NKey, out: &mut N)
        requires live { IsSome (number_at self.old key.0) }
        requires owned { CallersOwn (the_number self.old key.0 ∷ []) self.old }
        ensures heap { self.new ≡ left_with self.old (released self.old (the_number self.old key.0)).heap }
        ensures told { TellsEvents (N.telling out.old) (N.telling out.new) (released self.old (the_number self.old key.0)).events }
        ensures owned { Transfers (the_number self.old key.0 ∷ []) [] self.old self.new }
    {
        self.natives.release(key, out);
    }

    /// What slot `i` of a native holds, counted from 0. The reference stays the slot's.
    pub fn slot(&self, key: NKey, i: SlotNo) -> Option<Held>
        requires live { IsSome (number_at self.now key.0) }
        requires within { i < length (slots_of self.now key.0) }
        ensures name { name_of self.now result ≡ slice_index_or (slots_of self.now key.0) i None }
        ensures live { IsTrue (is_live self.now result) }
    {
        self.natives.at(key).slots[i as usize].held()
    }

    /// Puts `item` into slot `i` of a native, counted from 0, and returns what the slot held.
    ///
    /// The reference to `item` goes from the caller to the slot, that to the old content from the slot to the caller.
    /// To a script object there is none: it needs no owner, neither before nor after.
    pub fn set_slot(&mut self, key: NKey, i: SlotNo, item: Option<Held>) -> Option<Held>
        requires live { IsSome (number_at self.old key.0) }
        requires within { i < length (slots_of self.old key.0) }
        requires item_live { IsTrue (is_live self.old item) }
        requires owned { CallersOwn (numbers_held self.old item) self.old }
        ensures slots { self.new ≡ with_heap self.old (set_slot (heap_of self.old) (Some (native (the_number self.old key.0))) i (name_of self.old item)) }
        ensures name { name_of self.old result ≡ slice_index_or (slots_of self.old key.0) i None }
        ensures live { IsTrue (is_live self.old result) }
        ensures owned { Transfers (numbers_held self.old item) (numbers_held self.old result) self.old self.new }
    {
        self.natives.write(key, i as usize, item)
    }

    /// How many slots a native has: 0 to 256.
    pub fn slots(&self, key: NKey) -> SlotNo
        requires live { IsSome (number_at self.now key.0) }
        ensures { result ≡ length (slots_of self.now key.0) }
    {
        self.natives.at(key).slots.len() as SlotNo
    }

    /// Whether a native's reflector is preserved.
    pub fn preserved(&self, key: NKey) -> bool
        requires live { IsSome (number_at self.now key.0) }
        ensures { result ≡ preserved_of self.now key.0 }
    {
        self.natives.at(key).preserved
    }

    /// A native's reflector is preserved from then on, or is not. `unlink` ends it too.
    pub fn set_preserved(&mut self, key: NKey, on: bool)
        requires live { IsSome (number_at self.old key.0) }
        ensures heap { self.new ≡ with_heap self.old (set_preserved (heap_of self.old) (the_number self.old key.0) on) }
        ensures owned { Transfers [] [] self.old self.new }
    {
        self.natives.preserve(key, on);
    }

    /// Whether a native was unlinked: `unlink` says so, and it stays so as long as the native is there.
    pub fn unlinked(&self, key: NKey) -> bool
        requires live { IsSome (number_at self.now key.0) }
        ensures { result ≡ unlinked_of self.now key.0 }
    {
        self.natives.at(key).unlinked
    }

    /// Where a native's reflector stands in the script heap; none where it has none.
    pub fn reflector(&self, key: NKey) -> Option<SKey>
        requires live { IsSome (number_at self.now key.0) }
        ensures { option_map (λ k. k.0) result ≡ reflector_at self.now key.0 }
    {
        self.natives.at(key).reflector
    }

    /// A native has a reflector from then on, or none.
    ///
    /// This heap does not count it: who makes a reflector owns one reference to its native as long as that has it.
    pub fn set_reflector(&mut self, key: NKey, to: Option<SKey>)
        requires live { IsSome (number_at self.old key.0) }
        ensures reflectors { self.new ≡ with_reflector self.old key.0 (option_map (λ k. k.0) to) }
        ensures owned { Transfers [] [] self.old self.new }
    {
        self.natives.reflect(key, to);
    }

    /// What a native refers to, counted from 0: what each slot holds, in their order, and behind the last slot its
    /// reflector, where that is preserved.
    pub fn reference(&self, key: NKey, i: SlotNo) -> Option<Held>
        requires live { IsSome (number_at self.now key.0) }
        requires within { i ≤ length (slots_of self.now key.0) }
        ensures name { name_of self.now result ≡ slice_index_or (references_of self.now key.0) i None }
        ensures live { IsTrue (is_live self.now result) }
    {
        let cell = self.natives.at(key);
        let place = i as usize;
        if place < cell.slots.len() {
            cell.slots[place].held()
        } else {
            held_reflector(cell)
        }
    }

    /// The count of a native: the slots that hold it and the references that callers own.
    pub fn count(&self, key: NKey) -> u32
        requires live { IsSome (number_at self.now key.0) }
        ensures { result ≡ count_of self.now key.0 }
    {
        self.natives.at(key).count
    }

    /// The number of the native at a key; none exactly where the key holds nothing.
    ///
    /// This is the one call that may be given a key whose native is no more.
    pub fn number(&self, key: NKey) -> Option<NativeNo>
        ensures { option_map (λ n. n.0) result ≡ number_at self.now key.0 }
    {
        self.natives.number(key)
    }

    /// How many natives there are. It takes the same time however many there are.
    pub fn len(&self) -> usize
        ensures { result ≡ length self.now.natives }
    {
        self.natives.len()
    }

    /// The native with the least number; none exactly where there is none.
    pub fn first(&self) -> Option<NKey>
        ensures number { option_and_then (λ k. number_at self.now k.0) result ≡ first_number self.now.natives }
        ensures live { IfSome result (λ k. IsSome (number_at self.now k.0)) }
    {
        self.natives.first()
    }

    /// The native with the next greater number; none exactly where there is none.
    pub fn next(&self, key: NKey) -> Option<NKey>
        requires live { IsSome (number_at self.now key.0) }
        ensures number { option_and_then (λ k. number_at self.now k.0) result ≡ number_after self.now (the_number self.now key.0) }
        ensures live { IfSome result (λ k. IsSome (number_at self.now k.0)) }
    {
        self.natives.next(key)
    }

    /// The native with the least number above that of `after`, of all where there is no `after`, that refers to a script object;
    /// none exactly where there is none. It looks at such natives alone, and at a number for each 32 and each 4096 others.
    pub fn next_holder(&self, after: Option<NKey>) -> Option<NKey>
        requires live { IfSome after (λ k. IsSome (number_at self.now k.0)) }
        ensures next { IfSome result (λ k. IsNextHolder self.now (option_and_then (λ k. number_at self.now k.0) after) k.0) }
        ensures last { IfNone result (HasNoHolder self.now (option_and_then (λ k. number_at self.now k.0) after)) }
    {
        self.natives.next_holder(self.number_of(after))
    }

    /// The number of a native, where there is one.
    fn number_of(&self, at: Option<NKey>) -> Option<u32>
        ensures { result ≡ option_and_then (λ k. number_at self.now k.0) at }
    {
        match at {
            Some(key) => match self.number(key) {
                Some(number) => Some(number.0),
                None => None,
            },
            None => None,
        }
    }

    /// Roots a native for a collection: one more reference, which the caller owns, and no purple mark.
    pub fn root(&mut self, key: NKey)
        requires live { IsSome (number_at self.old key.0) }
        requires below { count_of self.old key.0 < 4294967295 }
        requires owned { CallersOwn [] self.old }
        ensures heap { self.new ≡ with_heap self.old (add_ref (heap_of self.old) (the_number self.old key.0)) }
        ensures owned { Transfers [] (the_number self.old key.0 ∷ []) self.old self.new }
    {
        self.add_ref(key);
    }

    /// Ends what `root` began: gives up the reference that the caller owns, cascade and all.
    pub fn unroot<N: Notices>(&mut self, key: NKey, out: &mut N)
        requires live { IsSome (number_at self.old key.0) }
        requires owned { CallersOwn (the_number self.old key.0 ∷ []) self.old }
        ensures heap { self.new ≡ left_with self.old (released self.old (the_number self.old key.0)).heap }
        ensures told { TellsEvents (N.telling out.old) (N.telling out.new) (released self.old (the_number self.old key.0)).events }
        ensures owned { Transfers (the_number self.old key.0 ∷ []) [] self.old self.new }
    {
        self.release(key, out);
    }

    /// Tells that a native that the caller owns is unlinked, and empties its slots in rising order.
    ///
    /// What a slot held is given up with its cascade before the next slot is emptied. The native itself stays: it is unlinked
    /// for good, and its reflector is preserved no longer.
    pub fn unlink<N: Notices>(&mut self, key: NKey, out: &mut N)
        requires live { IsSome (number_at self.old key.0) }
        requires owned { CallersOwn (the_number self.old key.0 ∷ []) self.old }
        ensures heap { self.new ≡ left_with self.old (unlink (heap_of self.old) (the_number self.old key.0)).heap }
        ensures told { TellsEvents (N.telling out.old) (N.telling out.new) (unlink (heap_of self.old) (the_number self.old key.0)).events }
        ensures owned { Transfers (the_number self.old key.0 ∷ []) (the_number self.old key.0 ∷ []) self.old self.new }
    {
        let cell = self.natives.at(key);
        let number = cell.number;
        let slots = cell.slots.len() as SlotNo;
        out.tell(Item::Event(Event::Unlinked(Name::Native(number))));
        self.natives.empty_each(key, slots, out);
        self.natives.set_unlinked(key);
    }

    /// Takes out the front of the buffer with its mark; none exactly where the buffer is empty.
    pub fn select_next(&mut self) -> Option<(NKey, bool)>
        ensures front { MatchOption result ((self.old.buffer ≡ []) × (self.new ≡ self.old))
            (λ front. (self.old.buffer ≡ buffered_as (the_number self.old front.0.0) front.1 ∷ self.new.buffer) ×
            (self.new ≡ record self.old { buffer = self.new.buffer }) × IsSome (number_at self.old front.0.0)) }
        ensures owned { Transfers [] [] self.old self.new }
    {
        self.natives.select_next()
    }

    /// A native that `select_next` took out goes back into the buffer with the purple mark; one that is there keeps its place.
    pub fn give_back(&mut self, key: NKey)
        requires live { IsSome (number_at self.old key.0) }
        requires owned { CallersOwn [] self.old }
        ensures heap { self.new ≡ with_heap self.old (suspect (heap_of self.old) (the_number self.old key.0)) }
        ensures owned { Transfers [] [] self.old self.new }
    {
        self.natives.suspect(key);
    }

    /// Whether a native stands in the buffer.
    pub fn in_buffer(&self, key: NKey) -> bool
        requires live { IsSome (number_at self.now key.0) }
        ensures { result ≡ is_in_buffer self.now.buffer (the_number self.now key.0) }
    {
        self.natives.holds(key)
    }

    /// Whether a native stands in the buffer with the purple mark.
    pub fn purple(&self, key: NKey) -> bool
        requires live { IsSome (number_at self.now key.0) }
        ensures { result ≡ is_purple_in self.now.buffer (the_number self.now key.0) }
    {
        self.natives.purple(key)
    }

    /// The native in front of the buffer; none exactly where the buffer is empty.
    pub fn first_in_buffer(&self) -> Option<NKey>
        ensures number { option_and_then (λ k. number_at self.now k.0) result ≡ front_number self.now.buffer }
        ensures live { IfSome result (λ k. IsSome (number_at self.now k.0)) }
    {
        self.natives.first_suspect()
    }

    /// The native behind a native of the buffer, in buffer order; none exactly where that is the last.
    pub fn next_in_buffer(&self, key: NKey) -> Option<NKey>
        requires live { IsSome (number_at self.now key.0) }
        requires buffered { IsTrue (is_in_buffer self.now.buffer (the_number self.now key.0)) }
        ensures number { option_and_then (λ k. number_at self.now k.0) result ≡ number_behind self.now.buffer (the_number self.now key.0) }
        ensures live { IfSome result (λ k. IsSome (number_at self.now k.0)) }
    {
        self.natives.next_suspect(key)
    }

    /// No native is in the walk. It takes time by how many were.
    pub fn walk_clear(&mut self)
        ensures walks { self.new ≡ unwalked self.old }
        ensures owned { Transfers [] [] self.old self.new }
    {
        self.natives.walk_clear();
    }

    /// A native that is not in the walk comes into it and waits; one that is in it stays as it stands there.
    pub fn walk_add(&mut self, key: NKey)
        requires live { IsSome (number_at self.old key.0) }
        ensures walks { self.new ≡ with_state_of self.old key.0 (entered (state_of self.old key.0)) }
        ensures came { state_of self.new key.0 ≡ entered (state_of self.old key.0) }
        ensures owned { Transfers [] [] self.old self.new }
    {
        self.natives.walk_add(key);
    }

    /// A native that waits in the walk, which is given from then on; none exactly where none waits.
    pub fn walk_next(&mut self) -> Option<NKey>
        ensures next { MatchOption result (NoneWaits self.old.walks × (self.new ≡ self.old))
            (λ key. (state_of self.old key.0 ≡ Waiting) × (self.new ≡ with_state_of self.old key.0 Given) × IsSome (number_at self.old key.0)) }
        ensures owned { Transfers [] [] self.old self.new }
    {
        self.natives.walk_next()
    }

    /// Whether a native is in the walk, given or not.
    pub fn walked(&self, key: NKey) -> bool
        requires live { IsSome (number_at self.now key.0) }
        ensures { result ≡ is_walked (state_of self.now key.0) }
    {
        self.natives.walks(key)
    }
}
