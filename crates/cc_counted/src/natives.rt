//! The natives by key, the lists that go through them, and a table of those that refer to script objects.
ghost use Rattle.std.specs.Prelude.{◌≡◌, ◌≢◌, true, false, ℕ, ◌+◌, ◌<◌, ◌≤◌, ◌==◌, [], ◌∷◌, ◌++◌, length, count_by, drop, Some, None, is_some, option_map, if◌then◌else◌, IsSome, IsTrue, IfNone, IfOk, IfSome, OnErr, replicate, slice_index_or, vec_capacity, vec_len};
ghost use Rattle.cc_lists.specs.Members.{Among, has};
ghost use Rattle.cc_lists.specs.Walks.{first_of};
ghost use Rattle.cc_names.specs.Sizes.{most_slots};
ghost use Rattle.cc_chain.specs.Chains.{behind};
ghost use Rattle.cc_holders.specs.Entries.{count_of};
ghost use Rattle.cc_holders.specs.Known.{entry_at};
ghost use Rattle.cc_purple.specs.Marks.{Marked, marked_as, first_key, holds_key, is_purple, key_after, with_mark, without_key};
ghost use Rattle.cc_counted.specs.Lists.{Placed, new_placed, cell_at, count_placed, slots_placed, with_one_less, with_one_more, with_slot, with_flag, placed_unlinked, reflected_by};
ghost use Rattle.cc_counted.specs.Stored.{Inserts, with_cell, with_queue, with_marks, without_cell, with_walk};
ghost use Rattle.cc_walk.specs.Walks.{members, no_walk, with_member, without_member, gone_on};
ghost use Rattle.cc_counted.specs.Scripts.{IsNextPlaced, HasNonePlaced, is_script, recounted, refers_by_reflector};

use crate::cell::Cell;
use crate::held::Held;
use crate::node::{Members, Node, Nodes, Order, Queue};
use crate::slot::Slot;
use cc_chain::{Chain, Neighbours};
use cc_holders::Holders;
use cc_names::{NKey, NativeNo, NoMemory, SKey, SlotNo, narrow_key};
use cc_purple::Buffer;
use cc_walk::WalkList;
use slab::Slab;
use std::alloc::{AllocError, Global};
use std::marker::Model;

/// The natives by key; all of them by rising number, those that wait to be deleted, the buffer of suspects, and a walk.
///
/// The lists go through the natives themselves. A table has for each number the key of its native, and counts the script
/// objects that the native refers to: in slots, and as its reflector, where that is preserved. `insert` alone takes memory.
#[derive(Drop)]
pub(crate) struct Natives {
    nodes: Nodes,
    order: Chain<Order>,
    queue: Chain<Queue>,
    buffer: Buffer,
    walk: WalkList<Members>,
    holders: Holders,
}

impl Model for Natives {
    ghost use Rattle.cc_counted.specs.Stored.{Stored};

    ghost Value = { Stored };

    ghost use Rattle.cc_counted.specs.Natives.{stored_of, IsKept};

    ghost view = { stored_of };

    ghost invariant = { IsKept };
}

impl Natives {
    /// No natives, and room for none.
    pub(crate) fn new(alloc: Global) -> Natives
        ensures { result ≡ record { lists = record { cells = []; order = []; queue = []; marks = []; walk = no_walk }; capacity = 0 } }
    {
        Natives {
            nodes: Nodes {
                slab: Slab::new(alloc),
            },
            order: Chain::new(),
            queue: Chain::new(),
            buffer: Buffer::new(),
            walk: WalkList::new(),
            holders: Holders::new(alloc),
        }
    }

    // A native

    /// The native at a key.
    pub(crate) fn at(&self, key: NKey) -> &Cell
        requires { IsSome (cell_at self.now.lists.cells key.0) }
        ensures { cell_at self.now.lists.cells key.0 ≡ Some result.now }
    {
        &self.nodes.slab[key.0 as usize].cell
    }

    /// The number of the native at a key; none where the key holds nothing.
    pub(crate) fn number(&self, key: NKey) -> Option<NativeNo>
        ensures { option_map (λ n. n.0) result ≡ option_map (λ c. c.number) (cell_at self.now.lists.cells key.0) }
    {
        match self.nodes.slab.get(key.0 as usize) {
            Some(node) => Some(node.cell.number),
            None => None,
        }
    }

    /// How many natives there are.
    pub(crate) fn len(&self) -> usize
        ensures { result ≡ count_by is_some self.now.lists.cells }
    {
        self.nodes.slab.len()
    }

    /// Lowers the count of the native at a key, and returns it.
    pub(crate) fn lower(&mut self, key: NKey) -> u32
        requires { 1 ≤ count_placed (cell_at self.old.lists.cells key.0) }
        ensures lists { self.new ≡ with_cell key.0 with_one_less self.old }
        ensures count { result + 1 ≡ count_placed (cell_at self.old.lists.cells key.0) }
    {
        let cell = &mut self.nodes.slab[key.0 as usize].cell;
        cell.count -= 1;
        cell.count
    }

    /// Raises the count of the native at a key.
    pub(crate) fn raise(&mut self, key: NKey)
        requires live { IsSome (cell_at self.old.lists.cells key.0) }
        requires below { count_placed (cell_at self.old.lists.cells key.0) < 4294967295 }
        ensures { self.new ≡ with_cell key.0 with_one_more self.old }
    {
        let cell = &mut self.nodes.slab[key.0 as usize].cell;
        cell.count += 1;
    }

    /// Writes slot `i` of the native at a key, and returns what it held.
    pub(crate) fn write(&mut self, key: NKey, i: usize, item: Option<Held>) -> Option<Held>
        requires live { IsSome (cell_at self.old.lists.cells key.0) }
        requires within { i < length (slots_placed (cell_at self.old.lists.cells key.0)) }
        ensures lists { self.new ≡ with_cell key.0 (with_slot i item) self.old }
        ensures value { result ≡ slice_index_or (slots_placed (cell_at self.old.lists.cells key.0)) i None }
    {
        let cell = &mut self.nodes.slab[key.0 as usize].cell;
        let old = cell.slots[i].held();
        cell.slots[i] = Slot::of(item);
        recount(
            cell,
            &mut self.holders,
            holds_script(old),
            holds_script(item),
        );
        old
    }

    /// Writes whether the reflector of the native at a key is preserved.
    pub(crate) fn preserve(&mut self, key: NKey, on: bool)
        requires { IsSome (cell_at self.old.lists.cells key.0) }
        ensures { self.new ≡ with_cell key.0 (with_flag on) self.old }
    {
        if self.at(key).preserved == on {
            return;
        }
        let cell = &mut self.nodes.slab[key.0 as usize].cell;
        let before = refers_by_reflector(cell);
        cell.preserved = on;
        let after = refers_by_reflector(cell);
        recount(cell, &mut self.holders, before, after);
    }

    /// The native at a key is unlinked for good, and its reflector is preserved no longer.
    pub(crate) fn set_unlinked(&mut self, key: NKey)
        requires { IsSome (cell_at self.old.lists.cells key.0) }
        ensures { self.new ≡ with_cell key.0 placed_unlinked self.old }
    {
        let cell = &mut self.nodes.slab[key.0 as usize].cell;
        let before = refers_by_reflector(cell);
        cell.preserved = false;
        cell.unlinked = true;
        recount(cell, &mut self.holders, before, false);
    }

    /// Writes where the reflector of the native at a key stands.
    pub(crate) fn reflect(&mut self, key: NKey, to: Option<SKey>)
        requires { IsSome (cell_at self.old.lists.cells key.0) }
        ensures { self.new ≡ with_cell key.0 (reflected_by (option_map (λ k. k.0) to)) self.old }
    {
        let cell = &mut self.nodes.slab[key.0 as usize].cell;
        let before = refers_by_reflector(cell);
        cell.reflector = to;
        let after = refers_by_reflector(cell);
        recount(cell, &mut self.holders, before, after);
    }

    // What natives refer to

    /// The native with the least number above `after` that refers to a script object, of all where there is no `after`.
    pub(crate) fn next_holder(&self, after: Option<u32>) -> Option<NKey>
        ensures next { IfSome result (λ k. IsNextPlaced self.now.lists.cells after k.0) }
        ensures last { IfNone result (HasNonePlaced self.now.lists.cells after) }
    {
        match self.holders.next_marked_after(after) {
            Some((_, key)) => Some(NKey(key)),
            None => None,
        }
    }

    // The order

    /// Makes a native with so many empty slots, no reflector and count one, which goes last in the order. `NoMemory`
    /// comes also where its key needs more than 32 bits.
    pub(crate) fn insert(
        &mut self,
        alloc: Global,
        no: NativeNo,
        slots: SlotNo,
    ) -> Result<NKey, NoMemory>
        requires slots { slots ≤ most_slots }
        requires fresh { (key : ℕ) (c : Placed) → cell_at self.old.lists.cells key ≡ Some c → c.number ≢ no.0 }
        ensures inserts { IfOk result (λ key. Inserts self.old.lists self.new.lists key.0
            (new_placed no.0 slots)) }
        ensures err { OnErr result (self.new.lists ≡ self.old.lists) }
    {
        let empty = empty_slots(alloc, slots)?;
        self.nodes.slab.reserve(1)?;
        let key = narrow_key(self.nodes.slab.vacant_key())?;
        self.holders.add(no.0, key)?;
        self.nodes.slab.insert_reserved(Node {
            cell: Cell {
                slots: empty,
                number: no,
                count: 1,
                reflector: None,
                preserved: false,
                unlinked: false,
            },
            order: Neighbours::of(None),
            queue: Neighbours::of(None),
            suspects: Neighbours::of(None),
            walk: Neighbours::of(None),
            purple: false,
        });
        self.order.push_back(&mut self.nodes, key);
        Ok(NKey(key))
    }

    /// Takes out a native that neither waits nor is in the buffer or in the walk.
    #[inline(always)]
    pub(crate) fn remove(&mut self, key: NKey) -> Cell
        requires live { IsSome (cell_at self.old.lists.cells key.0) }
        requires order { Among key.0 self.old.lists.order }
        requires queue { ¬ (Among key.0 self.old.lists.queue) }
        requires buffer { (m : Marked) → Among m self.old.lists.marks → m.key ≢ key.0 }
        requires walk { ¬ (Among key.0 (members self.old.lists.walk)) }
        ensures value { cell_at self.old.lists.cells key.0 ≡ Some result }
        ensures lists { self.new ≡ without_cell key.0 self.old }
    {
        self.order.unlink_at(&mut self.nodes, key.0);
        let node = self.nodes.slab.remove(key.0 as usize);
        self.holders.remove(node.cell.number.0);
        node.cell
    }

    /// The key of the native with the least number.
    pub(crate) fn first(&self) -> Option<NKey>
        ensures { option_map (λ k. k.0) result ≡ first_of self.now.lists.order }
    {
        match self.order.first(&self.nodes) {
            Some(key) => Some(NKey(key)),
            None => None,
        }
    }

    /// The key behind one of the order.
    pub(crate) fn next(&self, key: NKey) -> Option<NKey>
        requires { Among key.0 self.now.lists.order }
        ensures { option_map (λ k. k.0) result ≡ first_of (behind key.0 self.now.lists.order) }
    {
        match self.order.next(&self.nodes, key.0) {
            Some(next) => Some(NKey(next)),
            None => None,
        }
    }

    // The queue

    /// The native at a key, which does not wait, waits from then on.
    pub(crate) fn wait(&mut self, key: NKey)
        requires live { IsSome (cell_at self.old.lists.cells key.0) }
        requires queue { ¬ (Among key.0 self.old.lists.queue) }
        ensures { self.new ≡ with_queue (λ keys. keys ++ key.0 ∷ []) self.old }
    {
        self.queue.push_back(&mut self.nodes, key.0);
    }

    /// The native that has waited longest waits no longer.
    #[inline(always)]
    pub(crate) fn next_waiting(&mut self) -> Option<NKey>
        ensures first { option_map (λ k. k.0) result ≡ first_of self.old.lists.queue }
        ensures lists { self.new ≡ with_queue (drop 1) self.old }
    {
        match self.queue.pop_front(&mut self.nodes) {
            Some(key) => Some(NKey(key)),
            None => None,
        }
    }

    // The buffer

    /// The native at a key is in the buffer with the purple mark: it keeps its place, or goes last.
    pub(crate) fn suspect(&mut self, key: NKey)
        requires { IsSome (cell_at self.old.lists.cells key.0) }
        ensures { self.new ≡ with_marks (with_mark true key.0) self.old }
    {
        self.buffer.suspect(&mut self.nodes, key);
    }

    /// The native at a key is in the buffer without the mark: it keeps its place, or goes last.
    pub(crate) fn touch(&mut self, key: NKey)
        requires { IsSome (cell_at self.old.lists.cells key.0) }
        ensures { self.new ≡ with_marks (with_mark false key.0) self.old }
    {
        self.buffer.touch(&mut self.nodes, key);
    }

    /// The native at a key is not in the buffer.
    #[inline(always)]
    pub(crate) fn forget(&mut self, key: NKey)
        requires { IsSome (cell_at self.old.lists.cells key.0) }
        ensures { self.new ≡ with_marks (without_key key.0) self.old }
    {
        self.buffer.forget(&mut self.nodes, key);
    }

    /// Takes out the front of the buffer with its mark.
    pub(crate) fn select_next(&mut self) -> Option<(NKey, bool)>
        ensures front { option_map (λ front. marked_as front.0.0 front.1) result ≡ first_of self.old.lists.marks }
        ensures lists { self.new ≡ with_marks (drop 1) self.old }
    {
        self.buffer.select_next(&mut self.nodes)
    }

    /// Whether the native at a key is in the buffer.
    pub(crate) fn holds(&self, key: NKey) -> bool
        requires { IsSome (cell_at self.now.lists.cells key.0) }
        ensures { result ≡ holds_key self.now.lists.marks key.0 }
    {
        self.buffer.holds(&self.nodes, key)
    }

    /// Whether the native at a key is in the buffer with the purple mark.
    pub(crate) fn purple(&self, key: NKey) -> bool
        requires { IsSome (cell_at self.now.lists.cells key.0) }
        ensures { result ≡ is_purple self.now.lists.marks key.0 }
    {
        self.buffer.purple(&self.nodes, key)
    }

    /// The first key of the buffer.
    pub(crate) fn first_suspect(&self) -> Option<NKey>
        ensures { option_map (λ k. k.0) result ≡ first_key self.now.lists.marks }
    {
        self.buffer.first(&self.nodes)
    }

    /// The key behind one of the buffer.
    pub(crate) fn next_suspect(&self, key: NKey) -> Option<NKey>
        requires { IsTrue (holds_key self.now.lists.marks key.0) }
        ensures { option_map (λ k. k.0) result ≡ key_after self.now.lists.marks key.0 }
    {
        self.buffer.next(&self.nodes, key)
    }

    // The walk

    /// The native at a key is in the walk: it stays as it stands there, or comes in and waits.
    pub(crate) fn walk_add(&mut self, key: NKey)
        requires { IsSome (cell_at self.old.lists.cells key.0) }
        ensures { self.new ≡ with_walk (with_member key.0) self.old }
    {
        self.walk.add(&mut self.nodes, key.0);
    }

    /// The native that has waited longest in the walk, which is given from then on.
    pub(crate) fn walk_next(&mut self) -> Option<NKey>
        ensures first { option_map (λ k. k.0) result ≡ first_of self.old.lists.walk.waiting }
        ensures new { IfSome result (λ k. ¬ (Among k.0 self.old.lists.walk.given)) }
        ensures lists { self.new ≡ with_walk gone_on self.old }
    {
        match self.walk.give(&self.nodes) {
            Some(key) => Some(NKey(key)),
            None => None,
        }
    }

    /// The native at a key is not in the walk.
    #[inline(always)]
    pub(crate) fn walk_leave(&mut self, key: NKey)
        requires { IsSome (cell_at self.old.lists.cells key.0) }
        ensures { self.new ≡ with_walk (without_member key.0) self.old }
    {
        self.walk.leave(&mut self.nodes, key.0);
    }

    /// No native is in the walk.
    pub(crate) fn walk_clear(&mut self)
        ensures { self.new ≡ with_walk (λ w. no_walk) self.old }
    {
        self.walk.clear(&mut self.nodes);
    }

    /// Whether the native at a key is in the walk.
    pub(crate) fn walks(&self, key: NKey) -> bool
        requires { IsSome (cell_at self.now.lists.cells key.0) }
        ensures { result ≡ has ◌==◌ (members self.now.lists.walk) key.0 }
    {
        self.walk.holds(&self.nodes, key.0)
    }
}

/// So many empty slots, and no room for more.
fn empty_slots(alloc: Global, slots: SlotNo) -> Result<Vec<Slot>, AllocError>
    ensures items { IfOk result (λ v. v.items ≡ replicate slots None) }
    ensures room { IfOk result (λ v. vec_capacity v ≡ vec_len v) }
{
    let mut empty = Vec::with_capacity(alloc, slots as usize)?;
    for _ in 0..slots {
        empty.push_reserved(Slot::of(None));
    }
    Ok(empty)
}

/// Whether a slot holds a script object.
fn holds_script(slot: Option<Held>) -> bool
    ensures { result ≡ is_script slot }
{
    match slot {
        Some(Held::Script(_)) => true,
        _ => false,
    }
}

/// Whether a native has a reflector, and that is preserved.
fn refers_by_reflector(cell: &Cell) -> bool
    ensures { result ≡ refers_by_reflector cell.now }
{
    cell.preserved && cell.reflector.is_some()
}

/// Counts the script objects that a native refers to, where one place of it referred to one before, or does after.
#[inline(always)]
fn recount(cell: &Cell, holders: &mut Holders, before: bool, after: bool)
    requires { count_of (entry_at holders.old cell.now.number) < 65535 }
    ensures { (n : ℕ) → entry_at holders.new n ≡ (if cell.now.number == n then recounted before after
        (entry_at holders.old cell.now.number) else entry_at holders.old n) }
{
    match (before, after) {
        (false, true) => holders.raise(cell.number.0),
        (true, false) => holders.lower(cell.number.0),
        _ => {}
    }
}
