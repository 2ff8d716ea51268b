//! A chain through a vector of links: each call once.
ghost use Rattle.std.specs.Prelude.{◌≡◌, true, slice_get, replicate, IfOk, IsTrue};
ghost use Rattle.cc_chain.specs.Links.{is_linked};
ghost use Rattle.cc_chain.specs.Chains.{IsSomeChain};

use cc_chain::{
    Chain, Link, LinkStore, Neighbours, a_chain_is_told_by_links, a_walk_gives_the_list,
    a_walk_goes_on,
};
use std::alloc::{AllocError, Global};
use std::test::Fail;

/// The one list of a row.
pub(crate) struct All;

/// A store of links in a vector: the live keys are its places.
#[derive(Drop)]
pub(crate) struct Row {
    pub(crate) links: Vec<Option<Link>>,
    pub(crate) name: u32,
}

impl LinkStore<All> for Row {
    ghost use Rattle.std.specs.Prelude.{ℕ, slice_get};

    ghost links = { λ row. slice_get row.links.items };

    ghost Rest = { ℕ };

    ghost rest = { λ row. row.name };

    fn get(&self, key: u32) -> Option<Link> {
        self.links[key as usize]
    }

    fn set(&mut self, key: u32, link: Option<Link>) {
        self.links[key as usize] = link;
    }
}

/// Links of so many keys, each in no list.
pub(crate) fn free(alloc: Global, keys: usize) -> Result<Vec<Option<Link>>, AllocError>
    ensures { IfOk result (λ links. links.items ≡ replicate keys None) }
{
    vec![in alloc; None; keys]
}

/// A chain with its store. What no chain allows is left undone.
#[derive(Drop)]
struct Kept {
    row: Row,
    chain: Chain<All>,
}

impl Kept {
    fn new(alloc: Global, keys: usize) -> Result<Kept, AllocError>
        ensures { IfOk result (λ kept. IsSomeChain (slice_get kept.row.links.items) kept.chain) }
    {
        Ok(Kept {
            row: Row {
                links: free(alloc, keys)?,
                name: 7,
            },
            chain: Chain::new(),
        })
    }

    fn has(&self, key: u32) -> bool
        ensures { result ≡ true → IsTrue (is_linked (slice_get self.now.row.links.items) key) }
    {
        (key as usize) < self.row.links.len() && self.chain.holds(&self.row, key)
    }

    fn push(&mut self, key: u32)
        requires { IsSomeChain (slice_get self.old.row.links.items) self.old.chain }
        ensures { IsSomeChain (slice_get self.new.row.links.items) self.new.chain }
    {
        if (key as usize) < self.row.links.len() && self.row.get(key).is_none() {
            self.chain.push_back(&mut self.row, key);
        }
    }

    fn first(&self) -> Option<u32> {
        self.chain.first(&self.row)
    }

    fn pop(&mut self) -> Option<u32>
        requires { IsSomeChain (slice_get self.old.row.links.items) self.old.chain }
        ensures { IsSomeChain (slice_get self.new.row.links.items) self.new.chain }
    {
        self.chain.pop_front(&mut self.row)
    }

    fn unlink(&mut self, key: u32)
        requires { IsSomeChain (slice_get self.old.row.links.items) self.old.chain }
        ensures { IsSomeChain (slice_get self.new.row.links.items) self.new.chain }
    {
        if self.has(key) {
            self.chain.unlink_at(&mut self.row, key);
        }
    }

    fn clear(&mut self)
        requires { IsSomeChain (slice_get self.old.row.links.items) self.old.chain }
        ensures { IsSomeChain (slice_get self.new.row.links.items) self.new.chain }
    {
        self.chain.clear(&mut self.row);
    }

    fn next(&self, key: u32) -> Option<u32> {
        if self.has(key) {
            self.chain.next(&self.row, key)
        } else {
            None
        }
    }
}

/// Whether keys go last, and the next ones are found.
fn fills(kept: &mut Kept) -> bool
    requires { IsSomeChain (slice_get kept.old.row.links.items) kept.old.chain }
    ensures { IsSomeChain (slice_get kept.new.row.links.items) kept.new.chain }
{
    let empty = kept.pop().is_none();
    kept.push(4);
    kept.push(1);
    kept.push(5);
    empty & kept.has(1) & (kept.next(4) == Some(1))
}

/// Whether one leaves from the middle, and one from the front.
fn empties(kept: &mut Kept) -> bool
    requires { IsSomeChain (slice_get kept.old.row.links.items) kept.old.chain }
    ensures { IsSomeChain (slice_get kept.new.row.links.items) kept.new.chain }
{
    kept.unlink(1);
    let left = !kept.has(1) & (kept.next(4) == Some(5));
    left & (kept.pop() == Some(4)) & (kept.first() == Some(5))
}

/// Whether all leave at once.
fn clears(kept: &mut Kept) -> bool
    requires { IsSomeChain (slice_get kept.old.row.links.items) kept.old.chain }
    ensures { IsSomeChain (slice_get kept.new.row.links.items) kept.new.chain }
{
    kept.push(2);
    kept.clear();
    let left = kept.has(5) | kept.has(2);
    !left & kept.first().is_none()
}

/// Whether keys go into an emptied list as into a new one.
fn refills(kept: &mut Kept) -> bool
    requires { IsSomeChain (slice_get kept.old.row.links.items) kept.old.chain }
{
    kept.clear();
    kept.push(2);
    kept.push(4);
    let first = (kept.first() == Some(2)) & (kept.next(2) == Some(4));
    first & kept.next(4).is_none() & !kept.has(5)
}

#[test]
fn keys_go_last_and_leave_from_any_place_or_all_at_once(rt: HostRuntime) {
    let made = Kept::new(rt.alloc(), 6);
    assert!(rt; made.is_ok());
    if let Ok(mut kept) = made {
        let filled = fills(&mut kept);
        assert!(rt; filled & empties(&mut kept));
        let cleared = clears(&mut kept);
        assert!(rt; cleared & refills(&mut kept));
        assert_eq!(rt; kept.row.name, 7);
    }
}

#[test]
fn link_is_printed(rt: HostRuntime) -> Result<(), Fail> {
    let link = Link {
        before: Some(3),
        after: None,
    };
    let text = format!(in rt.alloc(); "{:?}", link)?;
    assert_eq!(rt; text.as_str(), "Link { before: Some(3), after: None }");
    Ok(())
}

/// Whether a link is kept as it is.
fn is_kept(link: Option<Link>) -> bool {
    Neighbours::of(link).link() == link
}

#[test]
fn neighbours_keep_each_link(rt: HostRuntime) {
    assert!(rt; is_kept(None));
    for before in [None, Some(3)] {
        for after in [None, Some(u32::MAX)] {
            assert!(rt; is_kept(Some(Link { before, after })));
        }
    }
}

#[test]
fn laws_can_be_called() {
    a_chain_is_told_by_links::<All>();
    a_walk_goes_on();
    a_walk_gives_the_list::<All>();
}
