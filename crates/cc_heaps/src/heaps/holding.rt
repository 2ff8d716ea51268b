//! Native registers and slots of natives written.
ghost use Rattle.std.specs.Prelude.{◌≡◌, ◌<◌, ◌≤◌, ℕ, List, ◌∷◌, ◌++◌, length, map, slice_index_or, Some, None, IsSome, ◌+◌, option_map};
ghost use Rattle.cc_names.specs.Names.{native};
ghost use Rattle.cc_names.specs.declared.register.Reg.TheVariants.{N as n_register};
ghost use Rattle.cc_model.specs.Heap.{native_at, register, set_register, set_slot, touch};
ghost use Rattle.cc_model.specs.Cascade.{add_ref, take_up, let_go};
ghost use Rattle.cc_model.specs.End.{slots_now};
ghost use Rattle.cc_model.specs.Counts.{times};
ghost use Rattle.cc_model.specs.Effects.{hold_native, put_in_register, touched};
ghost use Rattle.cc_model.specs.Telling.{TellsEvents};
ghost use Rattle.cc_model.specs.Graph as graph;
ghost use Rattle.cc_laws_heap.specs.Sound.{numbers_of};
ghost use Rattle.cc_counted.specs.Counts.{key_left, slots_of};
ghost use Rattle.cc_heaps.specs.Keyed.{IsInOrder, counts_of, number_at, the_number, changed_to, left_with};
ghost use Rattle.cc_heaps.specs.Changes.{IsNativeThere, IsThere, KeepsKeys, held_name, moved_in, native_name, slot_held, stored_in, taken_from, IsBlackHeld};
ghost use Rattle.cc_heaps.specs.Standing.{IsReached, MayBeHeld, StandsAfter};
ghost use Rattle.cc_heaps.specs.Few.{AreOwnedOnce};
ghost use Rattle.cc_heaps.specs.Marks.{KeepsMarks, MarksGoOn};
ghost use Rattle.cc_heaps.specs.NewMarks.{marks_of};
ghost use Rattle.cc_model.specs.Marking.{exposed_marks};
ghost use Rattle.cc_heaps.specs.Keeping.{KeepsAll, KeepsAllIf, KeepsAllIfReached};
ghost use Rattle.cc_heaps.specs.Leaving.{TellsWhatIsFreed};

use crate::heaps::Heaps;
use cc_counted::{Held, native_held};
use cc_model::Notices;
use cc_names::{NKey, RegNo, SlotNo};

impl Heaps {
    // One more reference to a native, which the caller owns; it owns one at most so far.
    pub(super) fn take_reference(&mut self, key: NKey)
        requires live { IsSome (number_at self.old key.0) }
        requires owned { (owned : List ℕ) × IsInOrder owned self.old × (times (the_number self.old key.0) owned ≤ 1) }
        ensures heap { self.new ≡ changed_to self.old (add_ref self.old.heap (the_number self.old key.0)) }
        ensures order { (owned : List ℕ) → IsInOrder owned self.old → IsInOrder (the_number self.old key.0 ∷ owned) self.new }
    {
        self.counted.root(key);
    }

    // A reference to what a register or a slot is to hold.
    fn take_up(&mut self, content: Option<Held>)
        requires order { (owned : List ℕ) × IsInOrder owned self.old × AreOwnedOnce owned }
        requires there { IsThere self.old content }
        ensures heap { self.new ≡ changed_to self.old (take_up self.old.heap (held_name self.old content)) }
        ensures order { (owned : List ℕ) → IsInOrder owned self.old → IsInOrder (numbers_of (held_name self.old content) ++ owned) self.new }
    {
        match native_held(content) {
            Some(key) => self.take_reference(key),
            None => {}
        }
    }

    // What a register or a slot held, given up.
    fn let_go<N: Notices>(&mut self, content: Option<Held>, out: &mut N)
        requires order { (owned : List ℕ) × IsInOrder (numbers_of (held_name self.old content) ++ owned) self.old }
        requires there { IsThere self.old content }
        ensures heap { self.new ≡ left_with self.old (let_go self.old.heap (held_name self.old content)).heap }
        ensures told { TellsEvents (N.telling out.old) (N.telling out.new) (let_go self.old.heap (held_name self.old content)).events }
        ensures order { (owned : List ℕ) → IsInOrder (numbers_of (held_name self.old content) ++ owned) self.old → IsInOrder owned self.new }
    {
        match native_held(content) {
            Some(key) => self.unroot(key, out),
            None => {}
        }
    }

    // A register written, whose new reference was taken before; what it held.
    fn replace_register(&mut self, r: RegNo, content: Option<NKey>) -> Option<NKey>
        requires within { r < length self.old.heap.native_registers }
        requires order { (owned : List ℕ) × IsInOrder (numbers_of (native_name self.old content) ++ owned) self.old }
        requires there { IsNativeThere self.old content }
        ensures heap { self.new ≡ changed_to self.old (set_register self.old.heap (n_register r) (native_name self.old content)) }
        ensures held { native_name self.old result ≡ register self.old.heap (n_register r) }
        ensures there { IsNativeThere self.new result }
        ensures order { (owned : List ℕ) → IsInOrder (numbers_of (native_name self.old content) ++ owned) self.old →
            IsInOrder (numbers_of (native_name self.new result) ++ owned) self.new }
    {
        let held = self.native_reg(r);
        self.native_registers[r as usize] = content;
        held
    }

    // A register written, whose new reference was taken before: what it held is given up.
    pub(super) fn put_in_register<N: Notices>(
        &mut self,
        r: RegNo,
        content: Option<NKey>,
        out: &mut N,
    )
        requires within { r < length self.old.heap.native_registers }
        requires order { (owned : List ℕ) × IsInOrder (numbers_of (native_name self.old content) ++ owned) self.old }
        requires there { IsNativeThere self.old content }
        ensures heap { self.new ≡ left_with self.old (put_in_register self.old.heap r (native_name self.old content)).heap }
        ensures told { TellsEvents (N.telling out.old) (N.telling out.new) (put_in_register self.old.heap r (native_name self.old content)).events }
        ensures order { (owned : List ℕ) → IsInOrder (numbers_of (native_name self.old content) ++ owned) self.old → IsInOrder owned self.new }
    {
        let held = self.replace_register(r, content);
        self.let_go(Held::of_native(held), out);
    }

    // Slot i of a native written, whose new reference was taken before; what it held.
    fn replace_slot(&mut self, key: NKey, i: SlotNo, content: Option<Held>) -> Option<Held>
        requires order { (owned : List ℕ) × IsInOrder (numbers_of (held_name self.old content) ++ owned) self.old }
        requires live { IsSome (number_at self.old key.0) }
        requires within { i < length (slots_now (native_at self.old.heap (the_number self.old key.0))) }
        requires there { IsThere self.old content }
        ensures heap { self.new ≡ changed_to self.old (set_slot self.old.heap (Some (native (the_number self.old key.0))) i (held_name self.old content)) }
        ensures held { held_name self.old result ≡ slice_index_or (slots_now (native_at self.old.heap (the_number self.old key.0))) i None }
        ensures there { IsThere self.new result }
        ensures order { (owned : List ℕ) → IsInOrder (numbers_of (held_name self.old content) ++ owned) self.old →
            IsInOrder (numbers_of (held_name self.new result) ++ owned) self.new }
    {
        self.counted.set_slot(key, i, content)
    }

    /// Register `r` holds a native from then on, or nothing.
    ///
    /// The new reference is taken first, then the register is written, then what it held is given up with all that it
    /// deletes. Takes no memory. The heaps stand for the graph with the register written where what comes in is reached, or was
    /// not unlinked: then it is whole, whether something reaches it or not.
    pub fn set_native_reg<N: Notices>(&mut self, r: RegNo, content: Option<NKey>, out: &mut N)
        requires within { r < length self.old.heap.native_registers }
        requires order { (owned : List ℕ) × IsInOrder owned self.old × AreOwnedOnce owned }
        requires there { IsNativeThere self.old content }
        ensures heap { self.new ≡ left_with self.old (hold_native self.old.heap r (native_name self.old content)).heap }
        ensures told { TellsEvents (N.telling out.old) (N.telling out.new)
            (hold_native self.old.heap r (native_name self.old content)).events }
        ensures tells { TellsWhatIsFreed self.old.heap self.new.heap (N.telling out.old) (N.telling out.new) }
        ensures kept { KeepsAll self.old self.new }
        ensures marks { KeepsMarks self.old self.new }
        ensures stands { MayBeHeld self.old.heap (native_name self.old content) →
            StandsAfter self.old.heap self.new.heap (λ g. graph.set_register g (n_register r) (native_name self.old content)) }
    {
        self.take_up(Held::of_native(content));
        self.put_in_register(r, content, out);
    }

    /// Slot `i` of a native, counted from 0, holds a native or a script object from then on, or nothing.
    ///
    /// The new reference is taken first, then the slot is written, then what it held is given up with all that it
    /// deletes. Takes no memory. A gray script object that came in would have a holder of which a snapshot knows nothing:
    /// snapshots stay fresh where a script object that comes in is black. A native that is not reached could lose its mark
    /// by coming into the slot of another such one: none is forgotten where the native whose slot is written is reached.
    pub fn store_native<N: Notices>(
        &mut self,
        key: NKey,
        i: SlotNo,
        content: Option<Held>,
        out: &mut N,
    )
        requires order { (owned : List ℕ) × IsInOrder owned self.old × AreOwnedOnce owned }
        requires live { IsSome (number_at self.old key.0) }
        requires within { i < length (slots_of (counts_of self.old) key.0) }
        requires there { IsThere self.old content }
        ensures heap { self.new ≡ left_with self.old (stored_in self.old.heap (the_number self.old key.0) i (held_name self.old content)).heap }
        ensures told { TellsEvents (N.telling out.old) (N.telling out.new)
            (stored_in self.old.heap (the_number self.old key.0) i (held_name self.old content)).events }
        ensures tells { TellsWhatIsFreed self.old.heap self.new.heap (N.telling out.old) (N.telling out.new) }
        ensures kept { KeepsAllIf (IsBlackHeld self.old content) (IsReached self.old.heap (Some (native (the_number self.old key.0)))) self.old self.new }
        ensures marks { KeepsMarks self.old self.new }
        ensures stands { IsReached self.old.heap (Some (native (the_number self.old key.0))) → IsReached self.old.heap (held_name self.old content) →
            StandsAfter self.old.heap self.new.heap (λ g. graph.set_slot g (Some (native (the_number self.old key.0))) i (held_name self.old content)) }
    {
        self.take_up(content);
        let held = self.replace_slot(key, i, content);
        self.let_go(held, out);
    }

    // A native stands in the buffer from then on, without the purple mark.
    fn touch(&mut self, key: NKey)
        requires live { IsSome (number_at self.old key.0) }
        requires owned { (owned : List ℕ) × IsInOrder owned self.old }
        ensures heap { self.new ≡ changed_to self.old (touch self.old.heap (the_number self.old key.0)) }
        ensures order { (owned : List ℕ) → IsInOrder owned self.old → IsInOrder owned self.new }
    {
        self.counted.touch(key);
    }

    // What is to move: a native is touched, and a script object exposed.
    fn touch_content(&mut self, content: Option<Held>)
        requires order { (owned : List ℕ) × IsInOrder owned self.old }
        requires there { IsThere self.old content }
        ensures heap { self.new.heap ≡ touched self.old.heap (held_name self.old content) }
        ensures natives { self.new.keys ≡ self.old.keys }
        ensures keys { KeepsKeys self.old self.new }
        ensures marks { MarksGoOn self.old self.new }
        ensures marking { marks_of self.new ≡ option_map (exposed_marks self.old.heap (held_name self.old content)) (marks_of self.old) }
        ensures order { (owned : List ℕ) → IsInOrder owned self.old → IsInOrder owned self.new }
    {
        match content {
            Some(Held::Native(key)) => self.touch(key),
            Some(Held::Script(key)) => self.expose(key),
            None => {}
        }
    }

    // What slot j of a native holds, touched or exposed, and taken out of it. The reference to a native is the caller's.
    fn take_out(&mut self, key: NKey, j: SlotNo) -> Option<Held>
        requires order { (owned : List ℕ) × IsInOrder owned self.old }
        requires live { IsSome (number_at self.old key.0) }
        requires within { j < length (slots_of (counts_of self.old) key.0) }
        ensures heap { self.new.heap ≡ taken_from self.old.heap (the_number self.old key.0) j }
        ensures natives { self.new.keys ≡ self.old.keys }
        ensures keys { KeepsKeys self.old self.new }
        ensures marks { MarksGoOn self.old self.new }
        ensures marking { marks_of self.new ≡ option_map (exposed_marks self.old.heap (slot_held self.old.heap (the_number self.old key.0) j))
            (marks_of self.old) }
        ensures name { held_name self.new result ≡ slot_held self.old.heap (the_number self.old key.0) j }
        ensures there { IsThere self.new result }
        ensures order { (owned : List ℕ) → IsInOrder owned self.old → IsInOrder (numbers_of (held_name self.new result) ++ owned) self.new }
    {
        let content = self.counted().slot(key, j);
        self.touch_content(content);
        self.replace_slot(key, j, None)
    }

    /// Slot `i` of `to`, counted from 0, holds from then on what slot `j` of `from` held, which is empty then. Where both are
    /// one place nothing moves, but what is there is touched or exposed.
    ///
    /// What moves is seen by a collection that runs: a native stands in the buffer without the purple mark, a script object
    /// is black, with all that an exposure makes black, by the new mark too where a marking goes on in slices. Then it leaves
    /// slot `j`, and its reference goes into slot `i`, so no count changes; then what slot `i` held is given up with all that it
    /// deletes. Takes no memory.
    ///
    /// A move can leave natives unreached that only hold each other, and to be touched is no suspicion: none is forgotten
    /// where `to` is reached once slot `j` is empty. So it is where a register holds `to`, whatever slot is emptied. That
    /// `to` is reached before is not enough: it could be reached over slot `j` alone, and be what moves.
    pub fn move_slot<N: Notices>(&mut self, to: NKey, i: SlotNo, from: NKey, j: SlotNo, out: &mut N)
        requires order { (owned : List ℕ) × IsInOrder owned self.old }
        requires to_live { IsSome (number_at self.old to.0) }
        requires to_within { i < length (slots_of (counts_of self.old) to.0) }
        requires from_live { IsSome (number_at self.old from.0) }
        requires from_within { j < length (slots_of (counts_of self.old) from.0) }
        ensures heap { self.new.heap ≡ (moved_in self.old.heap (the_number self.old to.0) i (the_number self.old from.0) j).heap }
        ensures natives { self.new.keys ≡ map (key_left self.new.heap) self.old.keys }
        ensures told { TellsEvents (N.telling out.old) (N.telling out.new)
            (moved_in self.old.heap (the_number self.old to.0) i (the_number self.old from.0) j).events }
        ensures tells { TellsWhatIsFreed self.old.heap self.new.heap (N.telling out.old) (N.telling out.new) }
        ensures kept { KeepsAllIfReached
            (IsReached (taken_from self.old.heap (the_number self.old from.0) j) (Some (native (the_number self.old to.0)))) self.old self.new }
        ensures marking { marks_of self.new ≡ option_map (exposed_marks self.old.heap (slot_held self.old.heap (the_number self.old from.0) j))
            (marks_of self.old) }
        ensures stands { IsReached self.old.heap (Some (native (the_number self.old to.0))) →
            IsReached self.old.heap (Some (native (the_number self.old from.0))) →
            StandsAfter self.old.heap self.new.heap (λ g. graph.move_slot g (Some (native (the_number self.old to.0))) i
            (Some (native (the_number self.old from.0))) j (slot_held self.old.heap (the_number self.old from.0) j)) }
    {
        let content = self.take_out(from, j);
        let held = self.replace_slot(to, i, content);
        self.let_go(held, out);
    }
}
