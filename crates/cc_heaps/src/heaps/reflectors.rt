//! Reflectors made and preserved.
ghost use Rattle.std.specs.Prelude.{◌≡◌, true, false, ℕ, List, Some, IsSome, IfOk, OnOk, OnErr};
ghost use Rattle.cc_names.specs.Names.{native, reflector};
ghost use Rattle.cc_model.specs.Heap.{has_reflector, is_gray_in, set_preserved};
ghost use Rattle.cc_model.specs.Effects.{with_reflector};
ghost use Rattle.cc_model.specs.Graph as graph;
ghost use Rattle.cc_script.specs.Objects.{name_at};
ghost use Rattle.cc_heaps.specs.Keyed.{IsInOrder, number_at, the_number, changed_to};
ghost use Rattle.cc_heaps.specs.Changes.{IsScriptThere};
ghost use Rattle.cc_heaps.specs.Standing.{IsReached, StandsAfter};
ghost use Rattle.cc_heaps.specs.Few.{AreOwnedOnce};
ghost use Rattle.cc_heaps.specs.Marks.{KeepsMarks};
ghost use Rattle.cc_heaps.specs.Keeping.{KeepsAllIfBlack, KeepsAllIfReached};

use crate::heaps::Heaps;
use cc_names::{NKey, NoMemory, SKey};

impl Heaps {
    /// Makes the reflector of a native that has none: black, with four empty slots, last in the order of making. It owns
    /// one reference to its native, which goes into the buffer without the purple mark. Where it stands.
    ///
    /// `NoMemory` changes nothing.
    pub fn new_reflector(&mut self, key: NKey) -> Result<SKey, NoMemory>
        requires order { (owned : List ℕ) × IsInOrder owned self.old × AreOwnedOnce owned }
        requires live { IsSome (number_at self.old key.0) }
        requires lacks { has_reflector self.old.heap (the_number self.old key.0) ≡ false }
        ensures heap { OnOk result (self.new.heap ≡ with_reflector self.old.heap (the_number self.old key.0)) }
        ensures name { IfOk result (λ made. name_at self.new.scripts made.0 ≡ Some (reflector (the_number self.old key.0))) }
        ensures there { IfOk result (λ made. IsScriptThere self.new (Some made)) }
        ensures natives { self.new.keys ≡ self.old.keys }
        ensures kept { KeepsAllIfReached (IsReached self.old.heap (Some (native (the_number self.old key.0)))) self.old self.new }
        ensures marks { KeepsMarks self.old self.new }
        ensures same { OnErr result (self.new ≡ self.old) }
        ensures stands { OnOk result (IsReached self.old.heap (Some (native (the_number self.old key.0))) →
            StandsAfter self.old.heap self.new.heap (λ g. graph.wrapped g (Some (native (the_number self.old key.0))))) }
    {
        let Some(number) = self.counted.number(key) else {
            unreachable!()
        };
        self.to_scan.reserve(self.scripts.len() + 1)?;
        let made = self.scripts.create_reflector(key, number)?;
        self.counted.set_reflector(key, Some(made));
        self.counted.add_ref(key);
        Ok(made)
    }

    /// The reflector of a native, which is there, is preserved from then on: the native refers to it, until it is
    /// unlinked. A gray one would have a holder of which a snapshot knows nothing: snapshots stay fresh where it is not
    /// gray. Takes no memory.
    pub fn set_preserved(&mut self, key: NKey)
        requires order { (owned : List ℕ) × IsInOrder owned self.old }
        requires live { IsSome (number_at self.old key.0) }
        requires has { has_reflector self.old.heap (the_number self.old key.0) ≡ true }
        ensures heap { self.new ≡ changed_to self.old (set_preserved self.old.heap (the_number self.old key.0) true) }
        ensures kept { KeepsAllIfBlack (is_gray_in self.old.heap (reflector (the_number self.old key.0)) ≡ false) self.old self.new }
        ensures marks { KeepsMarks self.old self.new }
        ensures stands { IsReached self.old.heap (Some (native (the_number self.old key.0))) →
            StandsAfter self.old.heap self.new.heap (λ g. graph.preserve g (Some (reflector (the_number self.old key.0)))) }
    {
        self.counted.set_preserved(key, true);
    }
}
