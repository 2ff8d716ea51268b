//! Entries of weak maps set and taken out.
ghost use Rattle.std.specs.Prelude.{◌≡◌, ℕ, List, None, Some, IsOk, IsSome, IsTrue, OnErr, OnOk};
ghost use Rattle.cc_names.specs.declared.kind.Kind.TheVariants.{Map};
ghost use Rattle.cc_model.specs.Checks.{value_at};
ghost use Rattle.cc_model.specs.Entries.{with_entry};
ghost use Rattle.cc_model.specs.Heap.{delegate_at, objects_of, preserve};
ghost use Rattle.cc_model.specs.Effects.{set_entry};
ghost use Rattle.cc_model.specs.Graph as graph;
ghost use Rattle.cc_script.specs.Objects.{is_there, kind_at, name_at};
ghost use Rattle.cc_counted.specs.declared.held.Held.TheVariants as held;
ghost use Rattle.cc_heaps.specs.Keyed.{IsInOrder, changed_to, the_name_at};
ghost use Rattle.cc_heaps.specs.Changes.{IsBlackHeld};
ghost use Rattle.cc_heaps.specs.Standing.{IsReached, StandsAfter};
ghost use Rattle.cc_heaps.specs.Marks.{KeepsMarks};
ghost use Rattle.cc_heaps.specs.Keeping.{KeepsAll, KeepsAllIfBlack};

use crate::heaps::Heaps;
use cc_names::{NoMemory, SKey};

impl Heaps {
    // An entry keeps its place with another value, or goes last where there was none. Its key is not preserved.
    fn put_entry(&mut self, the_map: SKey, key: SKey, value: SKey) -> Result<(), NoMemory>
        requires order { (owned : List ℕ) × IsInOrder owned self.old }
        requires the_map { kind_at self.old.scripts the_map.0 ≡ Some Map }
        requires key { IsTrue (is_there self.old.scripts key.0) }
        requires value { IsTrue (is_there self.old.scripts value.0) }
        ensures heap { OnOk result (self.new.heap ≡ record self.old.heap {
          entries = with_entry self.old.heap.entries (the_name_at self.old.scripts the_map.0) (the_name_at self.old.scripts key.0)
              (delegate_at self.old.heap (the_name_at self.old.scripts key.0)) (the_name_at self.old.scripts value.0);
        }) }
        ensures in_place { IsSome (value_at (objects_of self.old.heap) (name_at self.old.scripts the_map.0) (name_at self.old.scripts key.0)) → IsOk result }
        ensures natives { self.new.keys ≡ self.old.keys }
        ensures scripts { self.new.scripts ≡ self.old.scripts }
        ensures marks { KeepsMarks self.old self.new }
        ensures same { OnErr result (self.new ≡ self.old) }
        ensures order { (owned : List ℕ) → IsInOrder owned self.old → IsInOrder owned self.new }
    {
        self.weak
            .set(the_map, key, self.scripts.delegate(key), value)
    }

    // A script object that is a reflector is preserved.
    pub(crate) fn preserve(&mut self, key: SKey)
        requires order { (owned : List ℕ) × IsInOrder owned self.old }
        requires live { IsTrue (is_there self.old.scripts key.0) }
        ensures heap { self.new ≡ changed_to self.old (preserve self.old.heap (name_at self.old.scripts key.0)) }
        ensures order { (owned : List ℕ) → IsInOrder owned self.old → IsInOrder owned self.new }
    {
        if let Some(native) = self.scripts.native_of(key) {
            self.set_preserved(native);
        }
    }

    /// A key has a value in a weak map from then on: its entry keeps its place, or goes last where there was none. Where the
    /// key is a proxy, its entry has its delegate. A key that is a reflector is preserved: one that is not preserved is the key of no entry, so that it can be made again.
    ///
    /// `NoMemory` changes nothing, and comes only where there was no entry. A gray value would have an entry of which a
    /// snapshot knows nothing, and a gray reflector a holder: snapshots stay fresh where key and value are black.
    pub fn set_entry(&mut self, the_map: SKey, key: SKey, value: SKey) -> Result<(), NoMemory>
        requires order { (owned : List ℕ) × IsInOrder owned self.old }
        requires the_map { kind_at self.old.scripts the_map.0 ≡ Some Map }
        requires key { IsTrue (is_there self.old.scripts key.0) }
        requires value { IsTrue (is_there self.old.scripts value.0) }
        ensures heap { OnOk result (self.new.heap ≡ set_entry self.old.heap (name_at self.old.scripts the_map.0) (name_at self.old.scripts key.0)
            (name_at self.old.scripts value.0)) }
        ensures in_place { IsSome (value_at (objects_of self.old.heap) (name_at self.old.scripts the_map.0) (name_at self.old.scripts key.0)) → IsOk result }
        ensures natives { self.new.keys ≡ self.old.keys }
        ensures kept { KeepsAllIfBlack (IsBlackHeld self.old (Some (held.Script key)) × IsBlackHeld self.old (Some (held.Script value))) self.old self.new }
        ensures marks { KeepsMarks self.old self.new }
        ensures same { OnErr result (self.new ≡ self.old) }
        ensures stands { OnOk result (IsReached self.old.heap (name_at self.old.scripts the_map.0) → IsReached self.old.heap (name_at self.old.scripts key.0) →
            IsReached self.old.heap (name_at self.old.scripts value.0) →
            StandsAfter self.old.heap self.new.heap (λ g. graph.set_entry g (name_at self.old.scripts the_map.0) (name_at self.old.scripts key.0)
            (name_at self.old.scripts value.0))) }
    {
        self.put_entry(the_map, key, value)?;
        self.preserve(key);
        Ok(())
    }

    /// A key has no value in a weak map from then on; later entries close up. Nothing is preserved. Takes no memory.
    pub fn unset_entry(&mut self, the_map: SKey, key: SKey)
        requires order { (owned : List ℕ) × IsInOrder owned self.old }
        requires the_map { kind_at self.old.scripts the_map.0 ≡ Some Map }
        requires key { IsTrue (is_there self.old.scripts key.0) }
        ensures heap { self.new.heap ≡ set_entry self.old.heap (name_at self.old.scripts the_map.0) (name_at self.old.scripts key.0) None }
        ensures natives { self.new.keys ≡ self.old.keys }
        ensures kept { KeepsAll self.old self.new }
        ensures marks { KeepsMarks self.old self.new }
        ensures stands { IsReached self.old.heap (name_at self.old.scripts the_map.0) → IsReached self.old.heap (name_at self.old.scripts key.0) →
            StandsAfter self.old.heap self.new.heap (λ g. graph.set_entry g (name_at self.old.scripts the_map.0) (name_at self.old.scripts key.0) None) }
    {
        self.weak.unset(the_map, key);
    }
}
