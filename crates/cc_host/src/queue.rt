//! A receiver of items that keeps them until they are fetched.

ghost use Rattle.std.specs.Prelude.{◌≡◌, ◌≤◌, ◌<◌, ◌+◌, false, [], ◌∷◌, length, None, Some, OnErr, OnOk, if◌then◌else◌};
ghost use Rattle.cc_model.specs.declared.item.Item.{Item};
ghost use Rattle.cc_host.specs.Queues.{LosesNone};

use cc_model::{Item, Notices};
use cc_names::NoMemory;
use std::alloc::Global;
use std::collections::VecDeque;
use std::marker::Model;

/// A receiver that keeps the items that were not fetched yet, in the order in which they were told.
///
/// It has room for so many items: while fewer wait, none is left out. It breaks where it wants memory for an item that is not
/// there: that item is left out, and so is each later one, until `mend` is called.
#[derive(Drop)]
pub struct Queue {
    items: VecDeque<Item>,
    room: usize,
    broken: bool,
}

impl Model for Queue {
    ghost use Rattle.std.specs.Prelude.{◌≤◌};
    ghost use Rattle.std_alloc.specs.VecDeque.{deque_capacity};
    ghost use Rattle.cc_host.specs.Queues.{Queued, LosesNone};

    ghost Value = { Queued };

    ghost view = { λ q. record { items = q.items.items; room = q.room; broken = q.broken } };

    ghost invariant = { λ q. (q.room ≤ deque_capacity q.items) × LosesNone (record { items = q.items.items; room = q.room; broken = q.broken }) };
}

impl Queue {
    /// Nothing was told, and there is room for nothing.
    pub fn new(alloc: Global) -> Queue
        ensures { result ≡ record { items = []; room = 0; broken = false } }
    {
        Queue {
            items: VecDeque::new(alloc),
            room: 0,
            broken: false,
        }
    }

    /// What a queue keeps, for the proofs of who calls. It does nothing.
    pub fn keeps(&self)
        ensures { LosesNone self.now }
    {
        let _ = &self.items;
    }

    /// The first item that was not fetched, which is fetched then; none where there is none. The room stays; a queue that is
    /// broken has none then.
    pub fn next(&mut self) -> Option<Item>
        ensures next { (x : Item) → result ≡ Some x → self.old.items ≡ x ∷ self.new.items }
        ensures none { result ≡ None → (self.new.items ≡ self.old.items) × (self.old.items ≡ []) }
        ensures broken { self.new.broken ≡ self.old.broken }
        ensures room { self.new.room ≡ (if self.old.broken then 0 else self.old.room) }
    {
        if self.broken {
            self.room = 0;
        }
        self.items.pop_front()
    }

    /// Takes room for so many items more than wait now; a queue that is broken has none. `NoMemory` where there is none, and then
    /// nothing changes.
    pub fn reserve(&mut self, more: usize) -> Result<(), NoMemory>
        ensures items { self.new.items ≡ self.old.items }
        ensures broken { self.new.broken ≡ self.old.broken }
        ensures room { self.old.room ≤ self.new.room }
        ensures ok { OnOk result (self.old.broken ≡ false → length self.old.items + more ≤ self.new.room) }
        ensures same { OnErr result (self.new ≡ self.old) }
        // it is refused only where more is wanted than there is room for
        ensures full { OnErr result (self.old.room < length self.old.items + more) }
    {
        self.items.reserve(more)?;
        let all = self.items.len() + more;
        if !self.broken && self.room < all {
            self.room = all;
        }
        Ok(())
    }

    /// How many items may wait, so that none is left out while fewer do.
    pub fn room(&self) -> usize
        ensures { result ≡ self.now.room }
    {
        self.room
    }

    /// Whether an item was left out.
    pub fn is_broken(&self) -> bool
        ensures { result ≡ self.now.broken }
    {
        self.broken
    }

    /// Items are kept again.
    pub fn mend(&mut self)
        ensures { self.new ≡ record self.old { broken = false } }
    {
        self.broken = false;
    }
}

impl Notices for Queue {
    ghost use Rattle.cc_host.specs.Queues.{telling_of};

    ghost telling = { telling_of };

    fn tell(&mut self, item: Item) {
        if self.broken {
            return;
        }
        if self.items.push_back(item).is_err() {
            self.broken = true;
        }
    }
}
