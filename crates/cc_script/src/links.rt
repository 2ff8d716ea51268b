//! The lists that go through the objects: each object has its neighbours in each of them.

use crate::cells::Cells;
use cc_chain::{Link, LinkStore, Neighbours};

/// The list of all objects, in order of making.
pub(crate) struct Order;

/// The list of those that a marking raised and has not looked into, in the order in which it raised them.
pub(crate) struct Waiting;

/// The list of those that a walk over both heaps came to.
pub(crate) struct Walking;

impl LinkStore<Order> for Cells {
    ghost use Rattle.cc_script.specs.Threads.{of_order};
    ghost use Rattle.cc_script.specs.Cells.{Beside, beside, links_in};

    ghost links = { λ s. links_in of_order s.slots };

    ghost Rest = { Beside };

    ghost rest = { beside of_order };

    fn get(&self, key: u32) -> Option<Link> {
        self.slab[key as usize].order.link()
    }

    fn set(&mut self, key: u32, link: Option<Link>) {
        self.slab[key as usize].order = Neighbours::of(link);
    }
}

impl LinkStore<Waiting> for Cells {
    ghost use Rattle.cc_script.specs.Threads.{of_waiting};
    ghost use Rattle.cc_script.specs.Cells.{Beside, beside, links_in};

    ghost links = { λ s. links_in of_waiting s.slots };

    ghost Rest = { Beside };

    ghost rest = { beside of_waiting };

    fn get(&self, key: u32) -> Option<Link> {
        self.bodies[key as usize].waiting.link()
    }

    fn set(&mut self, key: u32, link: Option<Link>) {
        self.bodies[key as usize].waiting = Neighbours::of(link);
    }
}

impl LinkStore<Walking> for Cells {
    ghost use Rattle.cc_script.specs.Threads.{of_walk};
    ghost use Rattle.cc_script.specs.Cells.{Beside, beside, links_in};

    ghost links = { λ s. links_in of_walk s.slots };

    ghost Rest = { Beside };

    ghost rest = { beside of_walk };

    fn get(&self, key: u32) -> Option<Link> {
        self.slab[key as usize].walk.link()
    }

    fn set(&mut self, key: u32, link: Option<Link>) {
        self.slab[key as usize].walk = Neighbours::of(link);
    }
}
