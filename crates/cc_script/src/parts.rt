//! The parts of the script heap, and the marking that raises colours.
ghost use Rattle.std.specs.Prelude.{◌≡◌, ◌↔◌, ℕ, ◌<◌, ◌≤◌, false, List, [], ◌∷◌, ◌++◌, length, map, Some, None, IfNone, IfOk, IfSome, IsTrue, OnErr, option_map, replicate, slice_index_or, vec_capacity};
ghost use Rattle.cc_lists.specs.Members.{Among};
ghost use Rattle.cc_names.specs.declared.kind.Colour.{Colour};
ghost use Rattle.cc_names.specs.declared.kind.Colour.TheVariants.{White, Black};
ghost use Rattle.cc_names.specs.Sizes.{most_slots};
ghost use Rattle.cc_walk.specs.Walks.{is_walked};
ghost use Rattle.cc_script.specs.Beings.{delegate_key_of, kind_of, name_of, native_key_of};
ghost use Rattle.cc_script.specs.Objects.{Object, AreWhole, IsGiven, IsNotBelow, NoObjectWaits, change_object, colour_at, entering, first_key, is_there, key_after, new_object, places_at, raised_among, slots_at, unwalked, walked_at, whitened, with_new_mark, with_slot, without_object};
ghost use Rattle.cc_lists.specs.Walks.{first_of};
ghost use Rattle.cc_script.specs.Underway.{with_first_looked_into};
ghost use Rattle.cc_script.specs.Walking.{keys_reached};
ghost use Rattle.cc_script.specs.NewMarks.{exchanged, keys_to_blacken, newly_blackened};
ghost use Rattle.cc_script.specs.ColourOrder.{HasColourOrder};
ghost use Rattle.cc_script.specs.Cells.{Content, Label, filled, in_colour, in_new_mark};
ghost use Rattle.cc_script.specs.Lists.{IsPlaced, cell_at};
ghost use Rattle.cc_script.specs.Marking.{raise_each, raise_key, raise_slot};

use crate::being::Being;
use crate::cell::{Body, Cell, is_below};
use crate::cells::Cells;
use crate::links::{Order, Waiting, Walking};
use cc_chain::{Chain, Neighbours};
use cc_names::{Colour, NoMemory, SKey, SlotNo};
use cc_walk::WalkList;
use std::alloc::Global;

/// The objects by key, their list in order of making, the list of those that a marking raised and has not looked into, and
/// those that a walk over both heaps came to.
///
/// Each list goes through the objects, so the objects alone take memory.
#[derive(Drop)]
pub(crate) struct ScriptParts {
    cells: Cells,
    order: Chain<Order>,
    waiting: Chain<Waiting>,
    walk: WalkList<Walking>,
}

impl ScriptParts {
    ghost use Rattle.cc_script.specs.Parts.{lists_of, shows, marking_of, IsAtRest, IsBegun, IsUnderWay};

    /// No objects, and no memory taken.
    pub(crate) fn new(alloc: Global) -> ScriptParts
        ensures shows { shows result ≡ [] }
        ensures at_rest { IsAtRest result }
    {
        ScriptParts {
            cells: Cells::new(alloc),
            order: Chain::new(),
            waiting: Chain::new(),
            walk: WalkList::new(),
        }
    }

    /// Makes an object with so many empty slots, black, and by the new mark too, which goes last. The delegate of a proxy is
    /// black.
    pub(crate) fn create(
        &mut self,
        alloc: Global,
        being: Being,
        slots: SlotNo,
    ) -> Result<SKey, NoMemory>
        requires at_rest { IsAtRest self.old }
        requires slots { slots ≤ most_slots }
        requires delegate { (q : ℕ) → delegate_key_of being ≡ Some q → colour_at (shows self.old) q ≡ Some Black }
        ensures made { IfOk result (λ key. shows self.new ≡ shows self.old ++ new_object key.0 (name_of being) (kind_of being) (native_key_of being)
            (delegate_key_of being) slots ∷ []) }
        ensures vacant { IfOk result (λ key. is_there (shows self.old) key.0 ≡ false) }
        ensures err { OnErr result (shows self.new ≡ shows self.old) }
        ensures at_rest { IsAtRest self.new }
    {
        let empty = empty_slots(alloc, slots)?;
        let is_proxy = being.delegate().is_some();
        let cell = Cell {
            being,
            order: Neighbours::of(None),
            walk: Neighbours::of(None),
        };
        let body = Body {
            slots: empty,
            is_proxy,
            waiting: Neighbours::of(None),
        };
        let key = self.cells.insert(cell, body, Colour::Black)?;
        self.order.push_back(&mut self.cells, key);
        Ok(SKey(key))
    }

    /// Whether an object stands at a key.
    pub(crate) fn contains(&self, key: SKey) -> bool
        requires placed { IsPlaced (lists_of self.now) }
        ensures { result ≡ is_there (shows self.now) key.0 }
    {
        self.cells.contains(key.0)
    }

    /// How many objects there are.
    pub(crate) fn len(&self) -> usize
        requires placed { IsPlaced (lists_of self.now) }
        ensures { result ≡ length (shows self.now) }
    {
        self.cells.len()
    }

    /// What the object at a key is.
    pub(crate) fn cell(&self, key: SKey) -> &Cell
        requires placed { IsPlaced (lists_of self.now) }
        requires live { IsTrue (is_there (shows self.now) key.0) }
        ensures { (colour : Colour) × ((mark : Colour) × ((content : Content) ×
            (cell_at (lists_of self.now).cells key.0 ≡ Some (in_colour colour (in_new_mark mark (filled content result.now))).placed))) }
    {
        self.cells.cell(key.0)
    }

    /// What marking looks at of it.
    pub(crate) fn body(&self, key: SKey) -> &Body
        requires placed { IsPlaced (lists_of self.now) }
        requires live { IsTrue (is_there (shows self.now) key.0) }
        ensures { (colour : Colour) × ((mark : Colour) × ((label : Label) ×
            (cell_at (lists_of self.now).cells key.0 ≡ Some (in_colour colour (in_new_mark mark (filled result.now label))).placed))) }
    {
        self.cells.body(key.0)
    }

    /// Its colour.
    pub(crate) fn colour(&self, key: SKey) -> Colour
        requires placed { IsPlaced (lists_of self.now) }
        requires live { IsTrue (is_there (shows self.now) key.0) }
        ensures { option_map (λ c. c.colour) (cell_at (lists_of self.now).cells key.0) ≡ Some result }
    {
        self.cells.colour(key.0)
    }

    /// Its new mark.
    pub(crate) fn new_mark(&self, key: SKey) -> Colour
        requires placed { IsPlaced (lists_of self.now) }
        requires live { IsTrue (is_there (shows self.now) key.0) }
        ensures { option_map (λ c. c.new_mark) (cell_at (lists_of self.now).cells key.0) ≡ Some result }
    {
        self.cells.new_mark(key.0)
    }

    /// Its delegate, where it is a proxy.
    pub(crate) fn delegate(&self, key: SKey) -> Option<SKey>
        requires placed { IsPlaced (lists_of self.now) }
        requires live { IsTrue (is_there (shows self.now) key.0) }
        ensures { option_map (λ c. c.delegate) (cell_at (lists_of self.now).cells key.0) ≡ Some (option_map (λ k. k.0) result) }
    {
        self.cells.delegate(key.0)
    }

    /// Whether there is an object of this colour.
    pub(crate) fn has_colour(&self, colour: Colour) -> bool
        requires at_rest { IsAtRest self.now }
        ensures found { IsTrue result ↔ ((o : Object) × (Among o (shows self.now) × (o.colour ≡ colour))) }
    {
        self.cells.has_colour(colour)
    }

    /// The object that was made first; none exactly where there is none.
    pub(crate) fn first(&self) -> Option<SKey>
        requires at_rest { IsAtRest self.now }
        ensures key { option_map (λ k. k.0) result ≡ first_key (shows self.now) }
        ensures live { IfSome result (λ k. IsTrue (is_there (shows self.now) k.0)) }
    {
        let key = self.order.first(&self.cells)?;
        Some(SKey(key))
    }

    /// The object that was made next after another; none exactly where that is the last.
    pub(crate) fn next(&self, key: SKey) -> Option<SKey>
        requires at_rest { IsAtRest self.now }
        requires live { IsTrue (is_there (shows self.now) key.0) }
        ensures key { option_map (λ k. k.0) result ≡ key_after (shows self.now) key.0 }
        ensures live { IfSome result (λ k. IsTrue (is_there (shows self.now) k.0)) }
    {
        let next = self.order.next(&self.cells, key.0)?;
        Some(SKey(next))
    }

    /// Writes slot `i` of the object at a key.
    pub(crate) fn set_slot(&mut self, key: SKey, i: SlotNo, item: Option<SKey>)
        requires at_rest { IsAtRest self.old }
        requires live { IsTrue (is_there (shows self.old) key.0) }
        requires within { i < length (slots_at (shows self.old) key.0) }
        requires item_live { IfSome item (λ k. IsTrue (is_there (shows self.old) k.0)) }
        requires colours { IfSome item (λ k. IsNotBelow (colour_at (shows self.old) k.0) (colour_at (shows self.old) key.0)) }
        ensures shows { shows self.new ≡ change_object (shows self.old) key.0 (with_slot i (option_map (λ k. k.0) item)) }
        ensures at_rest { IsAtRest self.new }
    {
        self.cells.write(key, i as usize, item);
    }

    /// Gives the object at a key a new mark.
    pub(crate) fn set_new_mark(&mut self, key: SKey, mark: Colour)
        requires at_rest { IsAtRest self.old }
        requires live { IsTrue (is_there (shows self.old) key.0) }
        ensures shows { shows self.new ≡ change_object (shows self.old) key.0 (with_new_mark mark) }
        ensures at_rest { IsAtRest self.new }
    {
        self.cells.set_new_mark(key, mark);
    }

    /// Makes all objects white.
    pub(crate) fn clear_marks(&mut self)
        requires at_rest { IsAtRest self.old }
        ensures shows { shows self.new ≡ whitened (shows self.old) }
        ensures at_rest { IsAtRest self.new }
    {
        self.cells.whiten();
    }

    /// Makes all objects white by the new mark.
    pub(crate) fn unmark_new(&mut self)
        requires at_rest { IsAtRest self.old }
        ensures shows { shows self.new ≡ map (with_new_mark White) (shows self.old) }
        ensures at_rest { IsAtRest self.new }
    {
        self.cells.unmark_new();
    }

    /// The new marks become the colours, and the colours the new marks.
    pub(crate) fn exchange_marks(&mut self)
        requires at_rest { IsAtRest self.old }
        requires order { HasColourOrder (map exchanged (shows self.old)) }
        ensures shows { shows self.new ≡ map exchanged (shows self.old) }
        ensures at_rest { IsAtRest self.new }
    {
        self.cells.exchange_marks();
    }

    /// Takes out the object at a key, which is white.
    pub(crate) fn remove(&mut self, key: SKey)
        requires at_rest { IsAtRest self.old }
        requires white { colour_at (shows self.old) key.0 ≡ Some White }
        ensures shows { shows self.new ≡ without_object (shows self.old) key.0 }
        ensures at_rest { IsAtRest self.new }
    {
        self.walk.leave(&mut self.cells, key.0);
        self.order.unlink_at(&mut self.cells, key.0);
        self.cells.remove(key.0);
    }

    /// No object is in the walk then.
    pub(crate) fn walk_clear(&mut self)
        requires at_rest { IsAtRest self.old }
        ensures shows { shows self.new ≡ unwalked (shows self.old) }
        ensures at_rest { IsAtRest self.new }
    {
        self.walk.clear(&mut self.cells);
    }

    /// The object at a key comes into the walk and waits, where it was not in it.
    pub(crate) fn walk_add(&mut self, key: SKey)
        requires at_rest { IsAtRest self.old }
        requires live { IsTrue (is_there (shows self.old) key.0) }
        ensures shows { shows self.new ≡ change_object (shows self.old) key.0 entering }
        ensures at_rest { IsAtRest self.new }
    {
        self.walk.add(&mut self.cells, key.0);
    }

    /// One that waits, which is given from then on; none exactly where none waits.
    pub(crate) fn walk_next(&mut self) -> Option<SKey>
        requires at_rest { IsAtRest self.old }
        ensures some { IfSome result (λ k. IsGiven (shows self.old) (shows self.new) k.0) }
        ensures none { IfNone result (NoObjectWaits (shows self.old) × (shows self.new ≡ shows self.old)) }
        ensures at_rest { IsAtRest self.new }
    {
        let key = self.walk.give(&self.cells)?;
        Some(SKey(key))
    }

    /// Whether the object at a key is in the walk.
    pub(crate) fn walked(&self, key: SKey) -> bool
        requires at_rest { IsAtRest self.now }
        requires live { IsTrue (is_there (shows self.now) key.0) }
        ensures { option_map is_walked (walked_at (shows self.now) key.0) ≡ Some result }
    {
        self.walk.holds(&self.cells, key.0)
    }

    /// Raises the object at a key where it is below `to`; it waits last then.
    pub(crate) fn raise(&mut self, key: SKey, to: Colour)
        requires under_way { IsUnderWay to self.old }
        requires live { IsTrue (is_there (shows self.old) key.0) }
        ensures raises { marking_of self.new ≡ raise_key to key.0 (marking_of self.old) }
        ensures under_way { IsUnderWay to self.new }
    {
        if is_below(self.colour(key), to) {
            self.cells.paint(key, to);
            self.waiting.push_back(&mut self.cells, key.0);
        }
    }

    /// Raises in the same way what slot `i` of the object at a key holds.
    fn raise_slot(&mut self, key: SKey, i: usize, to: Colour)
        requires under_way { IsUnderWay to self.old }
        requires live { IsTrue (is_there (shows self.old) key.0) }
        requires within { i < length (slots_at (shows self.old) key.0) }
        requires held { (q : ℕ) → Among (Some q) (slots_at (shows self.old) key.0) → IsTrue (is_there (shows self.old) q) }
        ensures raises { marking_of self.new ≡ raise_slot to (slice_index_or (slots_at (shows self.old) key.0) i None) (marking_of self.old) }
        ensures under_way { IsUnderWay to self.new }
    {
        if let Some(item) = self.body(key).slots[i] {
            self.raise(item, to);
        }
    }

    /// Raises in the same way what each slot of the object at a key holds, in rising order.
    fn raise_each(&mut self, key: SKey, to: Colour)
        requires under_way { IsUnderWay to self.old }
        requires live { IsTrue (is_there (shows self.old) key.0) }
        requires held { (q : ℕ) → Among (Some q) (slots_at (shows self.old) key.0) → IsTrue (is_there (shows self.old) q) }
        ensures raises { marking_of self.new ≡ raise_each to (slots_at (shows self.old) key.0) (marking_of self.old) }
        ensures under_way { IsUnderWay to self.new }
    {
        let slots = self.body(key).slots.len();
        for i in 0..slots {
            self.raise_slot(key, i, to);
        }
    }

    /// Raises in the same way what each place of the object at a key leads to: what its slots hold, and its delegate then.
    fn raise_places(&mut self, key: SKey, to: Colour)
        requires under_way { IsUnderWay to self.old }
        requires live { IsTrue (is_there (shows self.old) key.0) }
        requires held { (q : ℕ) → Among (Some q) (places_at (shows self.old) key.0) → IsTrue (is_there (shows self.old) q) }
        ensures raises { marking_of self.new ≡ raise_each to (places_at (shows self.old) key.0) (marking_of self.old) }
        ensures under_way { IsUnderWay to self.new }
    {
        self.raise_each(key, to);
        if let Some(delegate) = self.delegate(key) {
            self.raise(delegate, to);
        }
    }

    /// Takes out the first of those that wait, and raises in the same way what it leads to; none exactly where none waits.
    // the colours need not be in order
    fn follow_first(&mut self, to: Colour) -> Option<SKey>
        requires under_way { IsUnderWay to self.old }
        requires there { (k : ℕ) → Among k (marking_of self.old).waiting → IsTrue (is_there (shows self.old) k) }
        requires whole { AreWhole (shows self.old) }
        ensures first { option_map (λ k. k.0) result ≡ first_of (marking_of self.old).waiting }
        ensures looked { marking_of self.new ≡ with_first_looked_into to (marking_of self.old) }
        ensures under_way { IsUnderWay to self.new }
    {
        let key = self.waiting.pop_front(&mut self.cells)?;
        self.raise_places(SKey(key), to);
        Some(SKey(key))
    }

    /// Takes out the first of those that wait, and raises in the same way what it leads to; none exactly where none waits.
    pub(crate) fn look_into_first(&mut self, to: Colour) -> Option<SKey>
        requires begun { IsBegun to self.old }
        requires whole { AreWhole (shows self.old) }
        ensures first { option_map (λ k. k.0) result ≡ first_of (marking_of self.old).waiting }
        ensures looked { marking_of self.new ≡ with_first_looked_into to (marking_of self.old) }
        ensures begun { IsBegun to self.new }
    {
        self.follow_first(to)
    }

    /// Raises the object at a key, and all that it reaches over slots and delegates, to at least the colour `to`.
    pub(crate) fn mark_from(&mut self, key: SKey, to: Colour)
        requires at_rest { IsAtRest self.old }
        requires live { IsTrue (is_there (shows self.old) key.0) }
        requires whole { AreWhole (shows self.old) }
        ensures shows { shows self.new ≡ raised_among (keys_reached (shows self.old) (key.0 ∷ [])) to (shows self.old) }
        ensures at_rest { IsAtRest self.new }
    {
        self.raise(key, to);
        while self.look_into_first(to).is_some() {}
    }

    /// Makes the object at a key black, with all that it reaches over slots and delegates past objects that are not black.
    // goes on from what it made black alone, so the colours need not be in order
    fn blacken_from(&mut self, key: SKey)
        requires under_way { IsUnderWay Black self.old }
        requires emptied { (marking_of self.old).waiting ≡ [] }
        requires live { IsTrue (is_there (shows self.old) key.0) }
        requires whole { AreWhole (shows self.old) }
        ensures shows { shows self.new ≡ raised_among (keys_to_blacken (map exchanged (shows self.old)) key.0) Black (shows self.old) }
        ensures under_way { IsUnderWay Black self.new }
        ensures emptied { (marking_of self.new).waiting ≡ [] }
    {
        self.raise(key, Colour::Black);
        while self.follow_first(Colour::Black).is_some() {}
    }

    /// Makes the object at a key black by the new mark, with all that it reaches over slots and delegates past objects that are
    /// not black so.
    // meanwhile the new marks stand in for the colours
    pub(crate) fn expose_new(&mut self, key: SKey)
        requires at_rest { IsAtRest self.old }
        requires live { IsTrue (is_there (shows self.old) key.0) }
        requires whole { AreWhole (shows self.old) }
        ensures shows { shows self.new ≡ newly_blackened (keys_to_blacken (shows self.old) key.0) (shows self.old) }
        ensures at_rest { IsAtRest self.new }
    {
        self.cells.exchange_marks();
        self.blacken_from(key);
        self.cells.exchange_marks();
    }
}

/// The slots of a new object: so many, nothing in them, and no room for more.
fn empty_slots(alloc: Global, slots: SlotNo) -> Result<Vec<Option<SKey>>, NoMemory>
    ensures items { IfOk result (λ v. v.items ≡ replicate slots None) }
    ensures room { IfOk result (λ v. vec_capacity v ≡ slots) }
{
    let mut empty = Vec::with_capacity(alloc, slots as usize)?;
    while empty.len() < slots as usize {
        empty.push_reserved(None);
    }
    Ok(empty)
}
