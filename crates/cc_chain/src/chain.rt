//! The chain: its two ends, and what it does to the links of its keys.
ghost use Rattle.std.specs.Prelude.{◌≡◌, ◌==◌, ◌<◌, ◌^◌, None, IsTrue, IfSome, List, ℕ, [], ◌∷◌, ◌++◌, drop, option_and_then};
ghost use Rattle.cc_lists.specs.Members.{has, without};
ghost use Rattle.cc_lists.specs.Walks.{first_of};
ghost use Rattle.cc_chain.specs.Links.{HasNone, Links, is_live, is_linked, link_at, IsFree, SameLive, with_after, with_before, with_changed, with_link};
ghost use Rattle.cc_chain.specs.Chains.{IsChain, IsSomeChain, behind, with_next, with_previous};

use crate::link::Link;
use crate::store::LinkStore;
use std::marker::PhantomData;

/// A list of distinct keys, kept in a store by the links of its keys. It has the two ends alone.
///
/// Each call takes the store that the list is kept in; nothing else may write its links there. `R` names the list among
/// those that the store holds.
#[derive(Drop)]
pub struct Chain<R> {
    first: Option<u32>,
    last: Option<u32>,
    list: PhantomData<R>,
}

impl<R> Chain<R> {
    /// An empty list, for a store in which no key has a link for it.
    pub fn new() -> Chain<R>
        ensures { (links : Links) → HasNone links → IsChain links result [] }
    {
        Chain {
            first: None,
            last: None,
            list: PhantomData,
        }
    }

    /// The key, which is live and in no list, goes last.
    pub fn push_back<T: LinkStore<R>>(&mut self, store: &mut T, key: u32)
        requires chain { IsSomeChain (T.links store.old) self.old }
        requires free { IsFree (T.links store.old) key }
        ensures keys { (keys : List ℕ) → IsChain (T.links store.old) self.old keys →
            IsChain (T.links store.new) self.new (keys ++ key ∷ []) }
        ensures live { SameLive (T.links store.old) (T.links store.new) }
        ensures rest { T.rest store.new ≡ T.rest store.old }
    {
        let last = self.last;
        store.set(
            key,
            Some(Link {
                before: last,
                after: None,
            }),
        );
        self.set_next(store, last, Some(key));
        self.last = Some(key);
    }

    /// Takes out the first key; none exactly where the list is empty.
    pub fn pop_front<T: LinkStore<R>>(&mut self, store: &mut T) -> Option<u32>
        requires { IsSomeChain (T.links store.old) self.old }
        ensures first { (keys : List ℕ) → IsChain (T.links store.old) self.old keys → result ≡ first_of keys }
        ensures keys { (keys : List ℕ) → IsChain (T.links store.old) self.old keys →
            IsChain (T.links store.new) self.new (drop 1 keys) }
        ensures live { SameLive (T.links store.old) (T.links store.new) }
        ensures rest { T.rest store.new ≡ T.rest store.old }
    {
        let key = self.first?;
        self.unlink_at(store, key);
        Some(key)
    }

    /// Takes out all keys, in time by how many there are: each one's link is read once and written once, and nothing else is.
    pub fn clear<T: LinkStore<R>>(&mut self, store: &mut T)
        requires { IsSomeChain (T.links store.old) self.old }
        ensures keys { IsChain (T.links store.new) self.new [] }
        ensures live { SameLive (T.links store.old) (T.links store.new) }
        ensures rest { T.rest store.new ≡ T.rest store.old }
    {
        let mut next = self.first;
        'keys: while let Some(key) = next {
            next = take_link(store, key);
        }
        self.first = None;
        self.last = None;
    }

    /// Takes out a key, which must be in the list. It looks at the key's neighbours alone.
    #[inline(always)]
    pub fn unlink_at<T: LinkStore<R>>(&mut self, store: &mut T, key: u32)
        requires chain { IsSomeChain (T.links store.old) self.old }
        requires linked { IsTrue (is_linked (T.links store.old) key) }
        ensures keys { (keys : List ℕ) → IsChain (T.links store.old) self.old keys →
            IsChain (T.links store.new) self.new (without ◌==◌ key keys) }
        ensures live { SameLive (T.links store.old) (T.links store.new) }
        ensures rest { T.rest store.new ≡ T.rest store.old }
    {
        if let Some(link) = store.get(key) {
            store.set(key, None);
            self.set_next(store, link.before, link.after);
            self.set_previous(store, link.after, link.before);
        }
    }

    /// The first key; none exactly where the list is empty.
    pub fn first<T: LinkStore<R>>(&self, _store: &T) -> Option<u32>
        ensures { (keys : List ℕ) → IsChain (T.links _store.now) self.now keys → result ≡ first_of keys }
    {
        self.first
    }

    /// The key after `key`, which must be in the list; none exactly where `key` is last.
    pub fn next<T: LinkStore<R>>(&self, store: &T, key: u32) -> Option<u32>
        requires { IsTrue (is_linked (T.links store.now) key) }
        ensures { (keys : List ℕ) → IsChain (T.links store.now) self.now keys → result ≡ first_of (behind key keys) }
    {
        store.get(key)?.after
    }

    /// Whether a live key is in the list.
    pub fn holds<T: LinkStore<R>>(&self, store: &T, key: u32) -> bool
        requires { IsTrue (is_live (T.links store.now) key) }
        ensures linked { result ≡ is_linked (T.links store.now) key }
        ensures keys { (keys : List ℕ) → IsChain (T.links store.now) self.now keys → result ≡ has ◌==◌ keys key }
    {
        store.get(key).is_some()
    }

    /// Behind `before` stands `after` now, or none. With none before, `after` is the first of the list.
    fn set_next<T: LinkStore<R>>(&mut self, store: &mut T, before: Option<u32>, after: Option<u32>)
        requires { IfSome before (λ key. IsTrue (is_live (T.links store.old) key)) }
        ensures links { T.links store.new ≡ with_changed (T.links store.old) before (with_after after) }
        ensures ends { self.new ≡ with_next self.old before after }
        ensures rest { T.rest store.new ≡ T.rest store.old }
    {
        match before {
            Some(key) => set_after(store, key, after),
            None => self.first = after,
        }
    }

    /// In front of `after` stands `before` now, or none. With none after, `before` is the last of the list.
    fn set_previous<T: LinkStore<R>>(
        &mut self,
        store: &mut T,
        after: Option<u32>,
        before: Option<u32>,
    )
        requires { IfSome after (λ key. IsTrue (is_live (T.links store.old) key)) }
        ensures links { T.links store.new ≡ with_changed (T.links store.old) after (with_before before) }
        ensures ends { self.new ≡ with_previous self.old after before }
        ensures rest { T.rest store.new ≡ T.rest store.old }
    {
        match after {
            Some(key) => set_before(store, key, before),
            None => self.last = before,
        }
    }
}

/// Writes what stands behind a live key, if it has a link.
fn set_after<R, T: LinkStore<R>>(store: &mut T, key: u32, after: Option<u32>)
    requires { IsTrue (is_live (T.links store.old) key) }
    ensures links { T.links store.new ≡ with_changed (T.links store.old) (Some key) (with_after after) }
    ensures rest { T.rest store.new ≡ T.rest store.old }
{
    if let Some(link) = store.get(key) {
        store.set(key, Some(Link { after, ..link }));
    }
}

/// Writes what stands before a live key, if it has a link.
fn set_before<R, T: LinkStore<R>>(store: &mut T, key: u32, before: Option<u32>)
    requires { IsTrue (is_live (T.links store.old) key) }
    ensures links { T.links store.new ≡ with_changed (T.links store.old) (Some key) (with_before before) }
    ensures rest { T.rest store.new ≡ T.rest store.old }
{
    if let Some(link) = store.get(key) {
        store.set(key, Some(Link { before, ..link }));
    }
}

/// Takes away the link of a live key, and answers the key that stood behind it. A key is below 2 ^ 32, so a loop that takes
/// away links ends.
fn take_link<R, T: LinkStore<R>>(store: &mut T, key: u32) -> Option<u32>
    requires { IsTrue (is_live (T.links store.old) key) }
    ensures after { result ≡ option_and_then (λ link. link.after) (link_at (T.links store.old) key) }
    ensures links { T.links store.new ≡ with_link (T.links store.old) key None }
    ensures rest { T.rest store.new ≡ T.rest store.old }
    ensures below { key < 2 ^ 32 }
{
    let link = store.get(key);
    store.set(key, None);
    link?.after
}
