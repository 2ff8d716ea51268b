//! A receiver of items that keeps them.

ghost use Rattle.std.specs.Prelude.{◌≡◌, false, [], None, Some};

use crate::item::Item;
use crate::notices::Notices;
use std::alloc::Global;
use std::marker::Model;

/// A receiver that keeps its items in order, and none of their lines.
///
/// It breaks where it wants memory for an item that is not there; that item is left out.
#[derive(Drop)]
pub struct ItemList {
    items: Vec<Item>,
    broken: bool,
    faults: u64,
}

impl Model for ItemList {
    ghost use Rattle.std.specs.Prelude.{Some, None};
    ghost use Rattle.cc_model.specs.Telling.{Telling};

    ghost Value = { Telling };

    ghost view = { λ l. record { told = None; broken = l.broken; faults = l.faults; sink = 0; sums = None; items = Some l.items.items } };
}

impl ItemList {
    /// An empty list.
    pub fn new(alloc: Global) -> ItemList
        ensures { result ≡ record { told = None; broken = false; faults = 0; sink = 0; sums = None; items = Some [] } }
    {
        ItemList {
            items: Vec::new(alloc),
            broken: false,
            faults: 0,
        }
    }

    /// The items so far, in the order in which they were told.
    pub fn items(&self) -> &[Item]
        ensures { self.now.items ≡ Some result.now }
    {
        self.items.as_slice()
    }

    /// Whether an item was left out.
    pub fn is_broken(&self) -> bool
        ensures { result ≡ self.now.broken }
    {
        self.broken
    }
}

impl Notices for ItemList {
    ghost telling = { λ l. l };

    fn tell(&mut self, item: Item) {
        if self.broken {
            return;
        }
        if self.items.push(item).is_err() {
            self.broken = true;
            self.faults = self.faults.saturating_add(1);
        }
    }
}
