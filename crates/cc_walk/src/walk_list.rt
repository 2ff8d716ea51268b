//! The set: its chain, and the first member that waits.
ghost use Rattle.std.specs.Prelude.{◌≡◌, ◌==◌, ℕ, List, IsTrue};
ghost use Rattle.cc_lists.specs.Members.{has};
ghost use Rattle.cc_lists.specs.Walks.{first_of};
ghost use Rattle.cc_chain.specs.Links.{HasNone, Links, is_live, is_linked, SameLive};
ghost use Rattle.cc_chain.specs.Chains.{IsChain, behind};
ghost use Rattle.cc_walk.specs.Walks.{Walk, no_walk, members, with_member, without_member, gone_on};
ghost use Rattle.cc_walk.specs.WalkLists.{IsWalk, IsSomeWalk};

use cc_chain::{Chain, LinkStore};

/// A set of keys, each of which was given or waits, kept in a store by the links of its keys.
///
/// Each call takes the store that the set is kept in; nothing else may write its links there. `R` names the set among the
/// lists that the store holds.
#[derive(Drop)]
pub struct WalkList<R> {
    // those that were given, and behind them those that wait
    chain: Chain<R>,
    next: Option<u32>,
}

impl<R> WalkList<R> {
    /// An empty set, for a store in which no key has a link for it.
    pub fn new() -> WalkList<R>
        ensures { (links : Links) → HasNone links → IsWalk links result no_walk }
    {
        WalkList {
            chain: Chain::new(),
            next: None,
        }
    }

    /// A live key is in the set: it stays as it stands, or comes in and waits.
    pub fn add<T: LinkStore<R>>(&mut self, store: &mut T, key: u32)
        requires walk { IsSomeWalk (T.links store.old) self.old }
        requires live { IsTrue (is_live (T.links store.old) key) }
        ensures walk { (w : Walk) → IsWalk (T.links store.old) self.old w → IsWalk (T.links store.new) self.new (with_member key w) }
        ensures live { SameLive (T.links store.old) (T.links store.new) }
        ensures rest { T.rest store.new ≡ T.rest store.old }
    {
        if self.chain.holds(store, key) {
            return;
        }
        self.chain.push_back(store, key);
        if self.next.is_none() {
            self.next = Some(key);
        }
    }

    /// The member that has waited longest, which is given from then on; none exactly where none waits.
    pub fn give<T: LinkStore<R>>(&mut self, store: &T) -> Option<u32>
        requires { IsSomeWalk (T.links store.now) self.old }
        ensures first { (w : Walk) → IsWalk (T.links store.now) self.old w → result ≡ first_of w.waiting }
        ensures walk { (w : Walk) → IsWalk (T.links store.now) self.old w → IsWalk (T.links store.now) self.new (gone_on w) }
    {
        let key = self.next?;
        self.pass(store, key);
        Some(key)
    }

    /// A live key is not in the set; the others stay as they stand.
    pub fn leave<T: LinkStore<R>>(&mut self, store: &mut T, key: u32)
        requires walk { IsSomeWalk (T.links store.old) self.old }
        requires live { IsTrue (is_live (T.links store.old) key) }
        ensures walk { (w : Walk) → IsWalk (T.links store.old) self.old w → IsWalk (T.links store.new) self.new (without_member key w) }
        ensures live { SameLive (T.links store.old) (T.links store.new) }
        ensures rest { T.rest store.new ≡ T.rest store.old }
    {
        if !self.chain.holds(store, key) {
            return;
        }
        if self.next == Some(key) {
            self.pass(store, key);
        }
        self.chain.unlink_at(store, key);
    }

    /// No key is in the set then. It takes time by its members: each one's link is read once and written once.
    pub fn clear<T: LinkStore<R>>(&mut self, store: &mut T)
        requires { IsSomeWalk (T.links store.old) self.old }
        ensures walk { IsWalk (T.links store.new) self.new no_walk }
        ensures live { SameLive (T.links store.old) (T.links store.new) }
        ensures rest { T.rest store.new ≡ T.rest store.old }
    {
        self.chain.clear(store);
        self.next = None;
    }

    /// Whether a live key is in the set.
    pub fn holds<T: LinkStore<R>>(&self, store: &T, key: u32) -> bool
        requires { IsTrue (is_live (T.links store.now) key) }
        ensures { (w : Walk) → IsWalk (T.links store.now) self.now w → result ≡ has ◌==◌ (members w) key }
    {
        self.chain.holds(store, key)
    }

    /// What stands behind a member is the first that waits then.
    fn pass<T: LinkStore<R>>(&mut self, store: &T, key: u32)
        requires { IsTrue (is_linked (T.links store.now) key) }
        ensures chain { self.new.chain ≡ self.old.chain }
        ensures next { (keys : List ℕ) → IsChain (T.links store.now) self.old.chain keys → self.new.next ≡ first_of (behind key keys) }
    {
        self.next = self.chain.next(store, key);
    }
}
