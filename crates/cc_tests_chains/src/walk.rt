//! A set for a walk through a vector of links: each call once.
ghost use Rattle.std.specs.Prelude.{◌≡◌, true, slice_get, IfOk, IsTrue};
ghost use Rattle.cc_chain.specs.Links.{is_live};
ghost use Rattle.cc_walk.specs.WalkLists.{IsSomeWalk};

use crate::chain::{All, Row, free};
use cc_walk::WalkList;
use std::alloc::{AllocError, Global};

/// A set with its store. A key that is not live is left alone.
#[derive(Drop)]
struct Kept {
    row: Row,
    walk: WalkList<All>,
}

impl Kept {
    fn new(alloc: Global, keys: usize) -> Result<Kept, AllocError>
        ensures { IfOk result (λ kept. IsSomeWalk (slice_get kept.row.links.items) kept.walk) }
    {
        Ok(Kept {
            row: Row {
                links: free(alloc, keys)?,
                name: 7,
            },
            walk: WalkList::new(),
        })
    }

    fn has(&self, key: u32) -> bool
        ensures { result ≡ true → IsTrue (is_live (slice_get self.now.row.links.items) key) }
    {
        (key as usize) < self.row.links.len()
    }

    fn add(&mut self, key: u32)
        requires { IsSomeWalk (slice_get self.old.row.links.items) self.old.walk }
        ensures { IsSomeWalk (slice_get self.new.row.links.items) self.new.walk }
    {
        if self.has(key) {
            self.walk.add(&mut self.row, key);
        }
    }

    fn give(&mut self) -> Option<u32>
        requires { IsSomeWalk (slice_get self.old.row.links.items) self.old.walk }
        ensures { IsSomeWalk (slice_get self.new.row.links.items) self.new.walk }
    {
        self.walk.give(&self.row)
    }

    fn leave(&mut self, key: u32)
        requires { IsSomeWalk (slice_get self.old.row.links.items) self.old.walk }
        ensures { IsSomeWalk (slice_get self.new.row.links.items) self.new.walk }
    {
        if self.has(key) {
            self.walk.leave(&mut self.row, key);
        }
    }

    fn clear(&mut self)
        requires { IsSomeWalk (slice_get self.old.row.links.items) self.old.walk }
        ensures { IsSomeWalk (slice_get self.new.row.links.items) self.new.walk }
    {
        self.walk.clear(&mut self.row);
    }

    fn holds(&self, key: u32) -> bool {
        self.has(key) && self.walk.holds(&self.row, key)
    }
}

/// Whether keys come in once, and one is given.
fn fills(kept: &mut Kept) -> bool
    requires { IsSomeWalk (slice_get kept.old.row.links.items) kept.old.walk }
    ensures { IsSomeWalk (slice_get kept.new.row.links.items) kept.new.walk }
{
    let empty = kept.give().is_none();
    kept.add(4);
    kept.add(1);
    kept.add(5);
    kept.add(1);
    empty & (kept.give() == Some(4)) & kept.holds(4) & kept.holds(1) & !kept.holds(2)
}

/// Whether one that was to be given next leaves, the one behind it is given, and no other.
fn passes(kept: &mut Kept) -> bool
    requires { IsSomeWalk (slice_get kept.old.row.links.items) kept.old.walk }
    ensures { IsSomeWalk (slice_get kept.new.row.links.items) kept.new.walk }
{
    kept.leave(1);
    let left = !kept.holds(1);
    left & (kept.give() == Some(5)) & kept.give().is_none()
}

/// Whether no member is left, given or waiting.
fn empties(kept: &mut Kept) -> bool
    requires { IsSomeWalk (slice_get kept.old.row.links.items) kept.old.walk }
    ensures { IsSomeWalk (slice_get kept.new.row.links.items) kept.new.walk }
{
    kept.add(3);
    kept.clear();
    let left = kept.holds(4) | kept.holds(5) | kept.holds(3);
    !left & kept.give().is_none()
}

/// Whether keys come in again, and are given in their new order.
fn refills(kept: &mut Kept) -> bool
    requires { IsSomeWalk (slice_get kept.old.row.links.items) kept.old.walk }
{
    kept.clear();
    kept.add(5);
    kept.add(4);
    let first = kept.give() == Some(5);
    first & kept.holds(4) & !kept.holds(3) & (kept.give() == Some(4))
}

#[test]
fn each_member_is_given_once_unless_it_leaves(rt: HostRuntime) {
    let made = Kept::new(rt.alloc(), 6);
    assert!(rt; made.is_ok());
    if let Ok(mut kept) = made {
        let filled = fills(&mut kept);
        let passed = passes(&mut kept);
        assert!(rt; filled & passed & empties(&mut kept));
        assert!(rt; refills(&mut kept));
        assert_eq!(rt; kept.row.name, 7);
    }
}
