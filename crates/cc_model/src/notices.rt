//! The trait of those that are told items.

ghost use Rattle.std.specs.Prelude.{[], ◌∷◌};
ghost use Rattle.cc_model.specs.Telling.{Telling, Tells};

use crate::item::Item;

/// Those that are told items, one at a time, in the order in which they are to be written.
pub trait Notices {
    /// The bytes so far, whether a write failed, how many writes failed, the sums of a summary, and the items themselves:
    /// each of the three where the receiver tells it.
    ghost telling: { Self → Telling };

    /// Tells an item: the bytes grow by the item's line, the sums by the item's part, and the items by the item; or a
    /// write fails within the line, then the receiver is broken from then on, and later calls change nothing.
    fn tell(&mut self, item: Item)
        ensures { Tells (telling self.old) (telling self.new) (item ∷ []) };
}
