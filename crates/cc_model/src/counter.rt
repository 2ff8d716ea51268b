//! A receiver of items that counts them.

ghost use Rattle.std.specs.Prelude.{◌≡◌, false, None, Some};
ghost use Rattle.cc_model.specs.Summed.{none_summed};

use crate::item::Item;
use crate::notices::Notices;
use crate::sums::Sums;
use std::marker::Model;

/// A receiver that counts its items, and keeps neither them nor their lines. It never breaks, and is seen as its sums.
#[derive(Drop)]
pub struct Counter {
    sums: Sums,
}

impl Model for Counter {
    ghost use Rattle.cc_model.specs.declared.sums.Sums.{Sums};

    ghost Value = { Sums };

    ghost view = { λ c. c.sums };
}

impl Counter {
    /// A counter that was told nothing: ten zeros.
    pub fn new() -> Counter
        ensures { result ≡ none_summed }
    {
        Counter { sums: Sums::new() }
    }

    /// The sums over the items that it was told.
    pub fn sums(&self) -> Sums
        ensures { result ≡ self.now }
    {
        self.sums
    }
}

impl Notices for Counter {
    ghost telling = { λ c. record { told = None; broken = false; faults = 0; sink = 0; sums = Some c; items = None } };

    fn tell(&mut self, item: Item) {
        match item {
            Item::Event(event) => self.sums.count_event(event),
            Item::Listed(_) | Item::Step(_, _) => {}
            Item::Reply(reply) => self.sums.count_reply(reply),
        }
    }
}
