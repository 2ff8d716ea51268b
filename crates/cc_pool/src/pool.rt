//! The pool: values by place, in blocks.

ghost use Rattle.std.specs.Prelude.{◌≡◌, ℕ, ◌+◌, ◌*◌, ◌<◌, ◌≤◌, ◌^◌, ◌==◌, ◌++◌, [], ◌∷◌, length, max, slice_index_or, slice_set, vec_capacity, vec_len, IsOk, OnErr, OnOk};
ghost use Rattle.cc_pool.specs.Blocks.{AreEmptied, HasMore, HasOneMore};

use cc_names::NoMemory;
use std::alloc::Global;
use std::marker::Model;

/// Values by place, from 0, in blocks of `N`, which is above 0.
///
/// A block is a vector that was made with room for `N` values and is never given more: so it stays where it is.
#[derive(Drop)]
pub struct Pool<T, const N: usize> {
    // all before the one in which the next value goes are full, and all behind it are empty
    blocks: Vec<Vec<T>>,
    len: usize,
    // how many values the blocks have room for
    capacity: usize,
}

impl<T, const N: usize> Model for Pool<T, N> {
    ghost use Rattle.std.specs.Prelude.{vec_capacity};
    ghost use Rattle.cc_pool.specs.Pooled.{Pooled, pooled_code};

    ghost Value = { Pooled T };

    ghost coded = { pooled_code T.code };

    ghost use Rattle.cc_pool.specs.Blocks.{joined, IsPooled};

    ghost view = { λ p. record { items = joined p.blocks.items; capacity = p.capacity; places = vec_capacity p.blocks } };

    ghost invariant = { λ p. IsPooled N p.len p.capacity p.blocks.items };
}

impl<T: Drop, const N: usize> Pool<T, N> {
    /// A pool with no value, and room for none. Takes no memory.
    pub fn new(alloc: Global) -> Pool<T, N>
        requires { 0 < N }
        ensures { result ≡ record { items = []; capacity = 0; places = 0 } }
    {
        Pool {
            blocks: Vec::new(alloc),
            len: 0,
            capacity: 0,
        }
    }

    /// How many values there are.
    pub fn len(&self) -> usize
        ensures count { result ≡ length self.now.items }
        ensures within { result ≤ self.now.capacity }
        ensures small { self.now.capacity < 2 ^ 64 }
    {
        self.len
    }

    /// How many values there is room for.
    pub fn capacity(&self) -> usize
        ensures value { result ≡ self.now.capacity }
        ensures whole { (blocks : ℕ) × (result ≡ N * blocks) }
    {
        self.capacity
    }

    /// Whether there is no value.
    pub fn is_empty(&self) -> bool
        ensures { result ≡ (length self.now.items == 0) }
    {
        self.len == 0
    }

    /// Room for `additional` more values, in whole blocks: it takes no block more than that needs.
    ///
    /// `NoMemory` where one of them is not to be had; the room is then what it was, but for places in the list of blocks. Of
    /// these it takes no more than twice as many as the blocks need, and two.
    pub fn reserve(&mut self, additional: usize) -> Result<(), NoMemory>
        ensures items { self.new.items ≡ self.old.items }
        ensures room { OnOk result (length self.new.items + additional ≤ self.new.capacity) }
        ensures within { length self.old.items ≤ self.old.capacity }
        ensures kept { self.old.capacity ≤ self.new.capacity }
        ensures no_need { length self.old.items + additional ≤ self.old.capacity → IsOk result }
        ensures had_room { length self.old.items + additional ≤ self.old.capacity → self.new ≡ self.old }
        ensures bounded { self.new.capacity < max (self.old.capacity + 1) (length self.old.items + additional + N) }
        ensures places { N * self.new.places ≤ max (N * self.old.places) (2 * (length self.old.items + additional + N)) }
        ensures err { OnErr result (self.new ≡ record self.old { places = self.new.places }) }
    {
        let spare = self.capacity - self.len;
        if additional <= spare {
            return Ok(());
        }
        let count = (additional - spare - 1) / N + 1;
        let more = N.checked_mul(count).ok_or(NoMemory)?;
        let capacity = self.capacity.checked_add(more).ok_or(NoMemory)?;
        add_blocks::<T, N>(&mut self.blocks, count)?;
        self.capacity = capacity;
        Ok(())
    }

    /// Room for `capacity` values, which is that of whole blocks, in place of more: the blocks behind are given back.
    pub fn shrink_to(&mut self, capacity: usize)
        requires whole { (blocks : ℕ) × (capacity ≡ N * blocks) }
        requires enough { length self.old.items ≤ capacity }
        requires within { capacity ≤ self.old.capacity }
        ensures { self.new ≡ record self.old { capacity = capacity } }
    {
        self.blocks.truncate(capacity / N);
        self.capacity = capacity;
    }

    /// A value goes last. Takes no memory (`reserve` took it).
    pub fn push(&mut self, value: T)
        requires { length self.old.items < self.old.capacity }
        ensures { self.new ≡ record self.old { items = self.old.items ++ value ∷ [] } }
    {
        self.blocks[self.len / N].push_reserved(value);
        self.len += 1;
    }

    /// No value any more. The blocks in which values stood stay, empty, so that there is room for as many; the others are
    /// given back.
    pub fn clear(&mut self)
        ensures items { self.new.items ≡ [] }
        ensures room { length self.old.items ≤ self.new.capacity }
        ensures given_back { self.new.capacity < length self.old.items + N }
        ensures places { self.new.places ≡ self.old.places }
    {
        let used = self.len.div_ceil(N);
        self.blocks.truncate(used);
        empty::<T>(&mut self.blocks);
        self.capacity = N * used;
        self.len = 0;
    }

    /// The value at a place.
    pub fn at(&self, i: usize) -> &T
        requires { i < length self.now.items }
        ensures { result.now ≡ slice_index_or self.now.items i result.now }
    {
        &self.blocks[i / N][i % N]
    }

    /// Another value at a place, in place of the one that is there. Takes no memory.
    pub fn set(&mut self, i: usize, value: T)
        requires { i < length self.old.items }
        ensures { self.new ≡ record self.old { items = slice_set self.old.items i value } }
    {
        self.blocks[i / N][i % N] = value;
    }
}

// So many more blocks, which are empty. Where one is not to be had, none is taken.
fn add_blocks<T: Drop, const N: usize>(
    blocks: &mut Vec<Vec<T>>,
    count: usize,
) -> Result<(), NoMemory>
    ensures added { OnOk result (HasMore N count blocks.old.items blocks.new.items) }
    ensures places { vec_capacity blocks.new ≤ max (vec_capacity blocks.old) (length blocks.old.items + max count (length blocks.old.items)) }
    ensures err { OnErr result (blocks.new.items ≡ blocks.old.items) }
{
    add_places(blocks, count)?;
    let had = blocks.len();
    for _ in 0..count {
        if add_block::<T, N>(blocks).is_err() {
            blocks.truncate(had);
            return Err(NoMemory);
        }
    }
    Ok(())
}

// Places in the list for so many more blocks. Where there are too few, it is given as many as there are blocks, at least:
// so it is moved seldom.
fn add_places<T>(blocks: &mut Vec<Vec<T>>, count: usize) -> Result<(), NoMemory>
    ensures items { blocks.new.items ≡ blocks.old.items }
    ensures room { OnOk result (length blocks.new.items + count ≤ vec_capacity blocks.new) }
    ensures bounded { vec_capacity blocks.new ≤ max (vec_capacity blocks.old) (length blocks.old.items + max count (length blocks.old.items)) }
{
    if count > blocks.capacity() - blocks.len() {
        blocks.reserve_exact(count.max(blocks.len()))?;
    }
    Ok(())
}

// One more block, which is empty, in its place in the list.
fn add_block<T, const N: usize>(blocks: &mut Vec<Vec<T>>) -> Result<(), NoMemory>
    requires { length blocks.old.items < vec_capacity blocks.old }
    ensures added { OnOk result (HasOneMore N blocks.old.items blocks.new.items) }
    ensures places { vec_capacity blocks.new ≡ vec_capacity blocks.old }
    ensures err { OnErr result (blocks.new.items ≡ blocks.old.items) }
{
    let block = Vec::with_capacity(*blocks.allocator(), N)?;
    blocks.push_reserved(block);
    Ok(())
}

// The blocks, in which nothing stands any more.
fn empty<T: Drop>(blocks: &mut Vec<Vec<T>>)
    ensures emptied { AreEmptied blocks.old.items blocks.new.items }
    ensures places { vec_capacity blocks.new ≡ vec_capacity blocks.old }
{
    for i in 0..blocks.len() {
        blocks[i].clear();
    }
}
