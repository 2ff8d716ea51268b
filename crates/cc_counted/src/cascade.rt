//! The steps of a cascade over the natives.
ghost use Rattle.std.specs.Prelude.{◌≡◌, ℕ, ◌<◌, true, List, [], ◌∷◌, ◌++◌, length, Option, Some};
ghost use Rattle.cc_lists.specs.Members.{Among};
ghost use Rattle.cc_model.specs.Cascade.{cascade};
ghost use Rattle.cc_laws_heap.specs.Balance.{IsBalanced};
ghost use Rattle.cc_counted.specs.declared.held.Held.{Held};
ghost use Rattle.cc_counted.specs.Counts.{is_live, the_number, heap_of};
ghost use Rattle.cc_counted.specs.Lists.{Placed, cell_at, slots_placed, keyed, numbers_in, draining_of, IsPlaced, with_front};
ghost use Rattle.cc_counted.specs.Resting.{shows, IsAtRest};
ghost use Rattle.cc_counted.specs.Steps.{GivesUp, FreesFront, Drains, ComesTo, EmptiesSlot, EmptiesEach};

use crate::held::native_held;
use crate::natives::Natives;
use crate::slot::Slot;
use cc_model::{Event, Item, Notices};
use cc_names::{NKey, Name, SlotNo};

impl Natives {
    /// Gives up one reference to the native at a key: it is suspected where its count stays above zero; where that falls
    /// to zero it leaves the buffer and waits.
    #[inline(always)]
    fn give_up(&mut self, key: NKey)
        requires placed { IsPlaced self.old.lists }
        requires balanced { (owned : List ℕ) × (c : Placed) × (cell_at self.old.lists.cells key.0 ≡ Some c) ×
            IsBalanced (c.number ∷ owned) (draining_of self.old.lists []) }
        ensures { GivesUp self.old.lists self.new.lists (the_number (keyed self.old.lists.cells) key.0 ∷ []) }
    {
        if self.lower(key) > 0 {
            self.suspect(key);
        } else {
            self.forget(key);
            self.wait(key);
        }
    }

    /// Gives up the references in these slots, in rising order. A script object has none to give up.
    #[inline(always)]
    fn give_up_each(&mut self, slots: &[Slot])
        requires placed { IsPlaced self.old.lists }
        requires live { (x : Option Held) → Among x slots.now → is_live (keyed self.old.lists.cells) x ≡ true }
        requires balanced { (owned : List ℕ) × IsBalanced (numbers_in (keyed self.old.lists.cells) slots.now ++ owned) (draining_of self.old.lists []) }
        ensures { GivesUp self.old.lists self.new.lists (numbers_in (keyed self.old.lists.cells) slots.now) }
    {
        for slot in slots {
            if let Some(native) = native_held(slot.held()) {
                self.give_up(native);
            }
        }
    }

    /// Frees a native that stands in front of those that wait: tells it, takes it out, and gives up what its slots held.
    fn free<N: Notices>(&mut self, key: NKey, out: &mut N)
        requires placed { IsPlaced (with_front key.0 self.old.lists) }
        requires balanced { (owned : List ℕ) × IsBalanced owned (draining_of (with_front key.0 self.old.lists) []) }
        ensures { FreesFront (with_front key.0 self.old.lists) self.new.lists (N.telling out.old) (N.telling out.new) }
    {
        self.walk_leave(key);
        let cell = self.remove(key);
        out.tell(Item::Event(Event::Freed(Name::Native(cell.number))));
        self.give_up_each(cell.slots.as_slice());
    }

    /// Frees a native that stands in front of those that wait, and then those that wait, until none does.
    // it needs no place in the queue, in which most natives would be alone; this stands apart, so that a release that deletes
    // nothing pays for none of it
    #[inline(never)]
    fn free_from<N: Notices>(&mut self, key: NKey, out: &mut N)
        requires placed { IsPlaced (with_front key.0 self.old.lists) }
        requires balanced { (owned : List ℕ) × IsBalanced owned (draining_of (with_front key.0 self.old.lists) []) }
        ensures { Drains (with_front key.0 self.old.lists) self.new.lists (N.telling out.old) (N.telling out.new) }
    {
        let mut front = Some(key);
        while let Some(key) = front {
            self.free(key, out);
            front = self.next_waiting();
        }
    }

    /// Gives up one reference, with all that it deletes.
    pub(crate) fn release<N: Notices>(&mut self, key: NKey, out: &mut N)
        requires placed { IsPlaced self.old.lists }
        requires balanced { (owned : List ℕ) × (c : Placed) × (cell_at self.old.lists.cells key.0 ≡ Some c) ×
            IsBalanced (c.number ∷ owned) (draining_of self.old.lists []) }
        requires emptied { self.old.lists.queue ≡ [] }
        ensures { ComesTo self.old.lists self.new.lists (N.telling out.old) (N.telling out.new)
            (cascade (heap_of (shows self.old)) (the_number (keyed self.old.lists.cells) key.0)) }
    {
        if self.lower(key) > 0 {
            return self.suspect(key);
        }
        self.forget(key);
        self.free_from(key, out);
    }

    /// Empties slot `i` of a native that is owned, and gives up what was in it, with all that it deletes.
    fn empty_slot<N: Notices>(&mut self, key: NKey, i: SlotNo, out: &mut N)
        requires at_rest { IsAtRest self.old }
        requires within { i < length (slots_placed (cell_at self.old.lists.cells key.0)) }
        requires owned { (others : List ℕ) × (c : Placed) × (cell_at self.old.lists.cells key.0 ≡ Some c) ×
            IsBalanced (c.number ∷ others) (draining_of self.old.lists []) }
        ensures empties { EmptiesSlot self.old.lists self.new.lists key.0 i (N.telling out.old) (N.telling out.new) }
        ensures at_rest { IsAtRest self.new }
    {
        let content = self.write(key, i as usize, None);
        if let Some(native) = native_held(content) {
            self.release(native, out);
        }
    }

    /// Empties the slots of a native that is owned, in rising order, each content given up before the next slot.
    pub(crate) fn empty_each<N: Notices>(&mut self, key: NKey, slots: SlotNo, out: &mut N)
        requires at_rest { IsAtRest self.old }
        requires slots { slots ≡ length (slots_placed (cell_at self.old.lists.cells key.0)) }
        requires owned { (others : List ℕ) × (c : Placed) × (cell_at self.old.lists.cells key.0 ≡ Some c) ×
            IsBalanced (c.number ∷ others) (draining_of self.old.lists []) }
        ensures empties { EmptiesEach self.old.lists self.new.lists key.0 (N.telling out.old) (N.telling out.new) }
        ensures at_rest { IsAtRest self.new }
    {
        for i in 0..slots {
            self.empty_slot(key, i, out);
        }
    }
}
