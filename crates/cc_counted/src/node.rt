//! A native with its neighbours in each list that goes through the natives.

use crate::cell::Cell;
use cc_chain::{Link, LinkStore, Neighbours};
use cc_purple::{MarkStore, Suspects};
use slab::Slab;
use std::mem::size_of;

/// The list of all natives, by rising number.
pub(crate) struct Order;

/// The list of those that wait to be deleted.
pub(crate) struct Queue;

/// The members of a walk.
pub(crate) struct Members;

/// A native, and where it stands in each list: none where it is not in it.
#[derive(Drop)]
pub(crate) struct Node {
    pub(crate) cell: Cell,
    pub(crate) order: Neighbours,
    pub(crate) queue: Neighbours,
    pub(crate) suspects: Neighbours,
    pub(crate) walk: Neighbours,
    /// The purple mark. It says nothing of a native that is not in the buffer.
    pub(crate) purple: bool,
}

// the slab adds 8 bytes to each
const _: () = prove!(size_of::<Node>() == 104);

/// The natives by key, as a store of the links of each list.
#[derive(Drop)]
pub(crate) struct Nodes {
    pub(crate) slab: Slab<Node>,
}

impl LinkStore<Order> for Nodes {
    ghost use Rattle.cc_counted.specs.Nodes.{Threads, order_links, beside_order};

    ghost links = { λ s. order_links s.slab.slots };

    ghost Rest = { Threads };

    ghost rest = { λ s. beside_order s.slab };

    fn get(&self, key: u32) -> Option<Link> {
        self.slab[key as usize].order.link()
    }

    fn set(&mut self, key: u32, link: Option<Link>) {
        self.slab[key as usize].order = Neighbours::of(link);
    }
}

impl LinkStore<Queue> for Nodes {
    ghost use Rattle.cc_counted.specs.Nodes.{Threads, queue_links, beside_queue};

    ghost links = { λ s. queue_links s.slab.slots };

    ghost Rest = { Threads };

    ghost rest = { λ s. beside_queue s.slab };

    fn get(&self, key: u32) -> Option<Link> {
        self.slab[key as usize].queue.link()
    }

    fn set(&mut self, key: u32, link: Option<Link>) {
        self.slab[key as usize].queue = Neighbours::of(link);
    }
}

impl LinkStore<Suspects> for Nodes {
    ghost use Rattle.cc_counted.specs.Nodes.{Threads, suspect_links, beside_suspects};

    ghost links = { λ s. suspect_links s.slab.slots };

    ghost Rest = { Threads };

    ghost rest = { λ s. beside_suspects s.slab };

    fn get(&self, key: u32) -> Option<Link> {
        self.slab[key as usize].suspects.link()
    }

    fn set(&mut self, key: u32, link: Option<Link>) {
        self.slab[key as usize].suspects = Neighbours::of(link);
    }
}

impl LinkStore<Members> for Nodes {
    ghost use Rattle.cc_counted.specs.Nodes.{Threads, walk_links, beside_walk};

    ghost links = { λ s. walk_links s.slab.slots };

    ghost Rest = { Threads };

    ghost rest = { λ s. beside_walk s.slab };

    fn get(&self, key: u32) -> Option<Link> {
        self.slab[key as usize].walk.link()
    }

    fn set(&mut self, key: u32, link: Option<Link>) {
        self.slab[key as usize].walk = Neighbours::of(link);
    }
}

impl MarkStore for Nodes {
    ghost use Rattle.std.proofs.Common.{ap};
    ghost use Rattle.cc_counted.specs.Nodes.{Threads, marks_in, beside_suspects, without_marks};

    ghost marks = { λ s. marks_in s.slab.slots };

    ghost Beside = { Threads };

    ghost beside = { λ s. without_marks (beside_suspects s.slab) };

    fn mark(&self, key: u32) -> bool {
        self.slab[key as usize].purple
    }

    fn set_mark(&mut self, key: u32, on: bool) {
        self.slab[key as usize].purple = on;
    }

    ghost marks_in_rest = { λ s t e. ap (λ (r : Threads). r.marks) e };

    ghost beside_in_rest = { λ s t e. ap without_marks e };
}
