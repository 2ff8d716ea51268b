//! The buffer through a vector of cells: each call once.
ghost use Rattle.std.specs.Prelude.{◌≡◌, replicate, IfOk, IsTrue, true, false, None};
ghost use Rattle.cc_chain.specs.Links.{is_live};
ghost use Rattle.cc_purple.specs.Buffers.{IsSomeBuffer};

use cc_chain::{Link, LinkStore};
use cc_names::NKey;
use cc_purple::{Buffer, MarkStore, Suspects};
use std::alloc::{AllocError, Global};
use std::test::Fail;

/// What a store has for one key.
#[derive(Clone, Copy, Drop)]
struct Cell {
    link: Option<Link>,
    purple: bool,
    count: u32,
}

/// A store in a vector: the live keys are its places.
#[derive(Drop)]
struct Cells {
    cells: Vec<Cell>,
}

impl LinkStore<Suspects> for Cells {
    ghost use Rattle.std.specs.Prelude.{ℕ, Bool, Option};
    ghost use Rattle.cc_chain.specs.Stores.{part_at};

    ghost links = { λ s. part_at (λ c. c.link) s.cells.items };

    ghost Rest = { (ℕ → Option Bool) × (ℕ → Option ℕ) };

    ghost rest = { λ s. (part_at (λ c. c.purple) s.cells.items, part_at (λ c. c.count) s.cells.items) };

    fn get(&self, key: u32) -> Option<Link> {
        self.cells[key as usize].link
    }

    fn set(&mut self, key: u32, link: Option<Link>) {
        self.cells[key as usize].link = link;
    }
}

impl MarkStore for Cells {
    ghost use Rattle.std.specs.Prelude.{ℕ, Option, false};
    ghost use Rattle.std.specs.Option.{unwrap_or};
    ghost use Rattle.std.proofs.Common.{ap};
    ghost use Rattle.cc_chain.specs.Stores.{part_at};

    ghost marks = { λ s k. unwrap_or (part_at (λ c. c.purple) s.cells.items k) false };

    ghost Beside = { ℕ → Option ℕ };

    ghost beside = { λ s. part_at (λ c. c.count) s.cells.items };

    fn mark(&self, key: u32) -> bool {
        self.cells[key as usize].purple
    }

    fn set_mark(&mut self, key: u32, on: bool) {
        self.cells[key as usize].purple = on;
    }

    ghost marks_in_rest = { λ s t e. ap (λ r k. unwrap_or (r.0 k) false) e };

    ghost beside_in_rest = { λ s t e. ap (λ r. r.1) e };
}

/// Cells of so many keys, each without a mark and in no list.
fn free(alloc: Global, keys: usize) -> Result<Vec<Cell>, AllocError>
    ensures { IfOk result (λ cells. cells.items ≡ replicate keys (record { link = None; purple = false; count = 1 })) }
{
    vec![in alloc; Cell {
        link: None,
        purple: false,
        count: 1
    }; keys]
}

/// A buffer with its store. A key that is not live is left alone.
#[derive(Drop)]
struct Kept {
    store: Cells,
    buffer: Buffer,
}

impl Kept {
    fn new(alloc: Global, keys: usize) -> Result<Kept, AllocError>
        ensures { IfOk result (λ kept. IsSomeBuffer (⟦<Cells as LinkStore<Suspects>>⟧.links kept.store) (⟦<Cells as MarkStore>⟧.marks kept.store) kept.buffer) }
    {
        Ok(Kept {
            store: Cells {
                cells: free(alloc, keys)?,
            },
            buffer: Buffer::new(),
        })
    }

    fn has(&self, key: u32) -> bool
        ensures { result ≡ true → IsTrue (is_live (⟦<Cells as LinkStore<Suspects>>⟧.links self.now.store) key) }
    {
        (key as usize) < self.store.cells.len()
    }

    fn suspect(&mut self, key: u32)
        requires { IsSomeBuffer (⟦<Cells as LinkStore<Suspects>>⟧.links self.old.store) (⟦<Cells as MarkStore>⟧.marks self.old.store) self.old.buffer }
        ensures { IsSomeBuffer (⟦<Cells as LinkStore<Suspects>>⟧.links self.new.store) (⟦<Cells as MarkStore>⟧.marks self.new.store) self.new.buffer }
    {
        if self.has(key) {
            self.buffer.suspect(&mut self.store, NKey(key));
        }
    }

    fn touch(&mut self, key: u32)
        requires { IsSomeBuffer (⟦<Cells as LinkStore<Suspects>>⟧.links self.old.store) (⟦<Cells as MarkStore>⟧.marks self.old.store) self.old.buffer }
        ensures { IsSomeBuffer (⟦<Cells as LinkStore<Suspects>>⟧.links self.new.store) (⟦<Cells as MarkStore>⟧.marks self.new.store) self.new.buffer }
    {
        if self.has(key) {
            self.buffer.touch(&mut self.store, NKey(key));
        }
    }

    fn give_back(&mut self, key: u32)
        requires { IsSomeBuffer (⟦<Cells as LinkStore<Suspects>>⟧.links self.old.store) (⟦<Cells as MarkStore>⟧.marks self.old.store) self.old.buffer }
        ensures { IsSomeBuffer (⟦<Cells as LinkStore<Suspects>>⟧.links self.new.store) (⟦<Cells as MarkStore>⟧.marks self.new.store) self.new.buffer }
    {
        if self.has(key) {
            self.buffer.give_back(&mut self.store, NKey(key));
        }
    }

    fn forget(&mut self, key: u32)
        requires { IsSomeBuffer (⟦<Cells as LinkStore<Suspects>>⟧.links self.old.store) (⟦<Cells as MarkStore>⟧.marks self.old.store) self.old.buffer }
        ensures { IsSomeBuffer (⟦<Cells as LinkStore<Suspects>>⟧.links self.new.store) (⟦<Cells as MarkStore>⟧.marks self.new.store) self.new.buffer }
    {
        if self.has(key) {
            self.buffer.forget(&mut self.store, NKey(key));
        }
    }

    fn select_next(&mut self) -> Option<(NKey, bool)>
        requires { IsSomeBuffer (⟦<Cells as LinkStore<Suspects>>⟧.links self.old.store) (⟦<Cells as MarkStore>⟧.marks self.old.store) self.old.buffer }
        ensures { IsSomeBuffer (⟦<Cells as LinkStore<Suspects>>⟧.links self.new.store) (⟦<Cells as MarkStore>⟧.marks self.new.store) self.new.buffer }
    {
        self.buffer.select_next(&mut self.store)
    }

    fn holds(&self, key: u32) -> bool {
        self.has(key) && self.buffer.holds(&self.store, NKey(key))
    }

    fn purple(&self, key: u32) -> bool {
        self.has(key) && self.buffer.purple(&self.store, NKey(key))
    }

    fn first(&self) -> Option<NKey> {
        self.buffer.first(&self.store)
    }

    fn next(&self, key: u32) -> Option<NKey> {
        if self.has(key) && self.store.get(key).is_some() {
            self.buffer.next(&self.store, NKey(key))
        } else {
            None
        }
    }
}

/// Whether a key is suspected in its place, and touched there.
fn suspects(kept: &mut Kept) -> bool
    requires { IsSomeBuffer (⟦<Cells as LinkStore<Suspects>>⟧.links kept.old.store) (⟦<Cells as MarkStore>⟧.marks kept.old.store) kept.old.buffer }
    ensures { IsSomeBuffer (⟦<Cells as LinkStore<Suspects>>⟧.links kept.new.store) (⟦<Cells as MarkStore>⟧.marks kept.new.store) kept.new.buffer }
{
    let empty = kept.select_next().is_none();
    kept.suspect(7);
    kept.suspect(2);
    kept.touch(7);
    let places = (kept.first() == Some(NKey(7))) & (kept.next(7) == Some(NKey(2)));
    empty & places & kept.holds(7) & !kept.purple(7) & kept.purple(2)
}

/// Whether a key is taken out, and given back with the mark.
fn selects(kept: &mut Kept) -> bool
    requires { IsSomeBuffer (⟦<Cells as LinkStore<Suspects>>⟧.links kept.old.store) (⟦<Cells as MarkStore>⟧.marks kept.old.store) kept.old.buffer }
{
    kept.forget(2);
    let touched = kept.select_next() == Some((NKey(7), false));
    kept.give_back(7);
    touched & (kept.select_next() == Some((NKey(7), true))) & kept.first().is_none()
}

#[test]
fn suspects_keep_their_places_and_lose_or_gain_the_mark(rt: HostRuntime) {
    let made = Kept::new(rt.alloc(), 8);
    assert!(rt; made.is_ok());
    if let Ok(mut kept) = made {
        let suspected = suspects(&mut kept);
        assert!(rt; suspected & selects(&mut kept));
    }
}
