//! The buffer of suspects.
ghost use Rattle.std.specs.Prelude.{◌≡◌, ◌==◌, true, false, [], IsTrue, List, ℕ, drop, option_map};
ghost use Rattle.cc_lists.specs.Members.{with_last};
ghost use Rattle.cc_lists.specs.Walks.{first_of};
ghost use Rattle.cc_chain.specs.Links.{HasNone, Links, is_live, is_linked, SameLive};
ghost use Rattle.cc_chain.specs.Chains.{IsChain, IsSomeChain};
ghost use Rattle.cc_purple.specs.Stores.{Marks};
ghost use Rattle.cc_purple.specs.Marks.{Marked, first_key, holds_key, is_purple, key_after, marked_as, with_mark, without_key};
ghost use Rattle.cc_purple.specs.Buffers.{IsBuffer, IsSomeBuffer};

use crate::store::{MarkStore, Suspects};
use cc_chain::Chain;
use cc_names::NKey;

/// The suspects in buffer order, each with the purple mark or without. Links and marks are kept in the store, which each
/// call takes; nothing else may write those of its keys.
#[derive(Drop)]
pub struct Buffer {
    keys: Chain<Suspects>,
}

impl Buffer {
    /// An empty buffer, for a store in which no key has a link for it. Which keys have the mark does not matter.
    pub fn new() -> Buffer
        ensures { (links : Links) (marks : Marks) → HasNone links → IsBuffer links marks result [] }
    {
        Buffer { keys: Chain::new() }
    }

    /// The key is in the buffer with the purple mark: it keeps its place, or goes last.
    pub fn suspect<T: MarkStore>(&mut self, store: &mut T, key: NKey)
        requires buffer { IsSomeBuffer (T.links store.old) (T.marks store.old) self.old }
        requires live { IsTrue (is_live (T.links store.old) key.0) }
        ensures marks { (ms : List Marked) → IsBuffer (T.links store.old) (T.marks store.old) self.old ms →
            IsBuffer (T.links store.new) (T.marks store.new) self.new (with_mark true key.0 ms) }
        ensures live { SameLive (T.links store.old) (T.links store.new) }
        ensures beside { T.beside store.new ≡ T.beside store.old }
    {
        self.put(store, key, true);
    }

    /// The key is in the buffer without the purple mark: it keeps its place, or goes last.
    pub fn touch<T: MarkStore>(&mut self, store: &mut T, key: NKey)
        requires buffer { IsSomeBuffer (T.links store.old) (T.marks store.old) self.old }
        requires live { IsTrue (is_live (T.links store.old) key.0) }
        ensures marks { (ms : List Marked) → IsBuffer (T.links store.old) (T.marks store.old) self.old ms →
            IsBuffer (T.links store.new) (T.marks store.new) self.new (with_mark false key.0 ms) }
        ensures live { SameLive (T.links store.old) (T.links store.new) }
        ensures beside { T.beside store.new ≡ T.beside store.old }
    {
        self.put(store, key, false);
    }

    /// A key that was taken out comes back with the purple mark: it goes last, or keeps its place where it is here again.
    pub fn give_back<T: MarkStore>(&mut self, store: &mut T, key: NKey)
        requires buffer { IsSomeBuffer (T.links store.old) (T.marks store.old) self.old }
        requires live { IsTrue (is_live (T.links store.old) key.0) }
        ensures marks { (ms : List Marked) → IsBuffer (T.links store.old) (T.marks store.old) self.old ms →
            IsBuffer (T.links store.new) (T.marks store.new) self.new (with_mark true key.0 ms) }
        ensures live { SameLive (T.links store.old) (T.links store.new) }
        ensures beside { T.beside store.new ≡ T.beside store.old }
    {
        self.suspect(store, key);
    }

    /// The key is not in the buffer; the others stay in order.
    #[inline(always)]
    pub fn forget<T: MarkStore>(&mut self, store: &mut T, key: NKey)
        requires buffer { IsSomeBuffer (T.links store.old) (T.marks store.old) self.old }
        requires live { IsTrue (is_live (T.links store.old) key.0) }
        ensures marks { (ms : List Marked) → IsBuffer (T.links store.old) (T.marks store.old) self.old ms →
            IsBuffer (T.links store.new) (T.marks store.new) self.new (without_key key.0 ms) }
        ensures live { SameLive (T.links store.old) (T.links store.new) }
        ensures beside { T.beside store.new ≡ T.beside store.old }
    {
        if self.keys.holds(store, key.0) {
            self.keys.unlink_at(store, key.0);
        }
    }

    /// Takes out the front, and answers it with its mark; none exactly where the buffer is empty.
    pub fn select_next<T: MarkStore>(&mut self, store: &mut T) -> Option<(NKey, bool)>
        requires { IsSomeBuffer (T.links store.old) (T.marks store.old) self.old }
        ensures front { (ms : List Marked) → IsBuffer (T.links store.old) (T.marks store.old) self.old ms →
            option_map (λ front. marked_as front.0.0 front.1) result ≡ first_of ms }
        ensures marks { (ms : List Marked) → IsBuffer (T.links store.old) (T.marks store.old) self.old ms →
            IsBuffer (T.links store.new) (T.marks store.new) self.new (drop 1 ms) }
        ensures live { SameLive (T.links store.old) (T.links store.new) }
        ensures beside { T.beside store.new ≡ T.beside store.old }
    {
        let key = self.keys.pop_front(store)?;
        Some((NKey(key), store.mark(key)))
    }

    /// Whether a live key is in the buffer.
    pub fn holds<T: MarkStore>(&self, store: &T, key: NKey) -> bool
        requires { IsTrue (is_live (T.links store.now) key.0) }
        ensures { (ms : List Marked) → IsBuffer (T.links store.now) (T.marks store.now) self.now ms →
            result ≡ holds_key ms key.0 }
    {
        self.keys.holds(store, key.0)
    }

    /// Whether a live key is in the buffer with the purple mark.
    pub fn purple<T: MarkStore>(&self, store: &T, key: NKey) -> bool
        requires { IsTrue (is_live (T.links store.now) key.0) }
        ensures { (ms : List Marked) → IsBuffer (T.links store.now) (T.marks store.now) self.now ms →
            result ≡ is_purple ms key.0 }
    {
        self.holds(store, key) && store.mark(key.0)
    }

    /// The first key in buffer order; none exactly where the buffer is empty.
    pub fn first<T: MarkStore>(&self, store: &T) -> Option<NKey>
        ensures { (ms : List Marked) → IsBuffer (T.links store.now) (T.marks store.now) self.now ms →
            option_map (λ k. k.0) result ≡ first_key ms }
    {
        Some(NKey(self.keys.first(store)?))
    }

    /// The key after `key`, which must be in the buffer, in buffer order; none exactly where `key` is last.
    pub fn next<T: MarkStore>(&self, store: &T, key: NKey) -> Option<NKey>
        requires { IsTrue (is_linked (T.links store.now) key.0) }
        ensures { (ms : List Marked) → IsBuffer (T.links store.now) (T.marks store.now) self.now ms →
            option_map (λ k. k.0) result ≡ key_after ms key.0 }
    {
        Some(NKey(self.keys.next(store, key.0)?))
    }

    /// A live key is in the buffer: it keeps its place, or goes last.
    fn enter<T: MarkStore>(&mut self, store: &mut T, key: u32)
        requires chain { IsSomeChain (T.links store.old) self.old.keys }
        requires live { IsTrue (is_live (T.links store.old) key) }
        ensures keys { (keys : List ℕ) → IsChain (T.links store.old) self.old.keys keys →
            IsChain (T.links store.new) self.new.keys (with_last ◌==◌ keys key) }
        ensures live { SameLive (T.links store.old) (T.links store.new) }
        ensures rest { T.rest store.new ≡ T.rest store.old }
    {
        if !self.keys.holds(store, key) {
            self.keys.push_back(store, key);
        }
    }

    /// Puts a mark to a live key, which keeps its place or goes last.
    fn put<T: MarkStore>(&mut self, store: &mut T, key: NKey, purple: bool)
        requires buffer { IsSomeBuffer (T.links store.old) (T.marks store.old) self.old }
        requires live { IsTrue (is_live (T.links store.old) key.0) }
        ensures marks { (ms : List Marked) → IsBuffer (T.links store.old) (T.marks store.old) self.old ms →
            IsBuffer (T.links store.new) (T.marks store.new) self.new (with_mark purple key.0 ms) }
        ensures live { SameLive (T.links store.old) (T.links store.new) }
        ensures beside { T.beside store.new ≡ T.beside store.old }
    {
        self.enter(store, key.0);
        store.set_mark(key.0, purple);
    }
}
