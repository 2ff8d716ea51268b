//! A walk over both heaps: a set of objects, each of which is given once.
ghost use Rattle.std.specs.Prelude.{◌≡◌, ℕ, List, Some, MatchOption};
ghost use Rattle.cc_names.specs.declared.kind.Walked.TheVariants.{Waiting, Given};
ghost use Rattle.cc_walk.specs.Walks.{entered, is_walked};
ghost use Rattle.cc_heaps.specs.Keyed.{IsInOrder};
ghost use Rattle.cc_heaps.specs.Changes.{IsThere};
ghost use Rattle.cc_heaps.specs.Marks.{KeepsMarks};
ghost use Rattle.cc_heaps.specs.Keeping.{KeepsAll};
ghost use Rattle.cc_heaps.specs.Walking.{NothingWaits, state_in, unwalked, with_state_in};

use crate::heaps::Heaps;
use cc_counted::Held;

impl Heaps {
    /// No object is in the walk. It takes time by how many were.
    pub fn walk_clear(&mut self)
        ensures walk { self.new ≡ unwalked self.old }
        ensures heap { self.new.heap ≡ self.old.heap }
        ensures kept { KeepsAll self.old self.new }
        ensures marks { KeepsMarks self.old self.new }
    {
        self.counted.walk_clear();
        self.scripts.walk_clear();
    }

    /// An object that is not in the walk comes into it and waits; one that is in it stays as it stands there. Takes no memory.
    ///
    /// An object that leaves its heap leaves the walk.
    pub fn walk_add(&mut self, object: Held)
        requires there { IsThere self.old (Some object) }
        ensures walk { self.new ≡ with_state_in self.old object entered }
        ensures came { state_in self.new object ≡ entered (state_in self.old object) }
        ensures heap { self.new.heap ≡ self.old.heap }
        ensures kept { KeepsAll self.old self.new }
        ensures marks { KeepsMarks self.old self.new }
    {
        match object {
            Held::Native(key) => self.counted.walk_add(key),
            Held::Script(key) => self.scripts.walk_add(key),
        }
    }

    /// An object that waits in the walk, natives before script objects, which is given from then on; none exactly where none
    /// waits.
    pub fn walk_next(&mut self) -> Option<Held>
        ensures next { MatchOption result (NothingWaits self.old × (self.new ≡ self.old))
            (λ object. (state_in self.old object ≡ Waiting) × (self.new ≡ with_state_in self.old object (λ state. Given)) × IsThere self.old (Some object)) }
        ensures heap { self.new.heap ≡ self.old.heap }
        ensures kept { KeepsAll self.old self.new }
        ensures marks { KeepsMarks self.old self.new }
    {
        if let Some(key) = self.counted.walk_next() {
            return Some(Held::Native(key));
        }
        match self.scripts.walk_next() {
            Some(key) => Some(Held::Script(key)),
            None => None,
        }
    }

    /// Whether an object is in the walk, given or not.
    pub fn walked(&self, object: Held) -> bool
        requires there { IsThere self.now (Some object) }
        ensures { result ≡ is_walked (state_in self.now object) }
    {
        match object {
            Held::Native(key) => self.counted.walked(key),
            Held::Script(key) => self.scripts.walked(key),
        }
    }
}
