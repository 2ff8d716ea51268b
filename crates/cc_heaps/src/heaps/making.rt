//! Natives made.
ghost use Rattle.std.specs.Prelude.{◌≡◌, ◌+◌, ◌<◌, ◌≤◌, ℕ, List, ◌∷◌, length, Some, Err, IfOk, OnOk, OnErr, nat_le};
ghost use Rattle.cc_names.specs.Names.{native};
ghost use Rattle.cc_names.specs.Sizes.{most_slots};
ghost use Rattle.cc_model.specs.Effects.{make_native, with_native};
ghost use Rattle.cc_model.specs.Telling.{TellsEvents};
ghost use Rattle.cc_model.specs.declared.command.Command.TheVariants as command;
ghost use Rattle.cc_model.specs.Graph as graph;
ghost use Rattle.cc_heaps.specs.Keyed.{IsInOrder, number_at};
ghost use Rattle.cc_heaps.specs.Changes.{IsNativeThere, native_name};
ghost use Rattle.cc_heaps.specs.Standing.{StandsAfter};
ghost use Rattle.cc_heaps.specs.Marks.{KeepsMarks};
ghost use Rattle.cc_heaps.specs.Keeping.{KeepsAll};
ghost use Rattle.cc_heaps.specs.Leaving.{TellsWhatIsFreed};

use crate::heaps::Heaps;
use crate::make_stop::MakeStop;
use cc_model::Notices;
use cc_names::{NKey, Name, NativeNo, NoMemory, RegNo, SlotNo};

impl Heaps {
    // A native with the next number and so many empty slots, in the buffer too; the caller owns the reference to it.
    fn put(&mut self, slots: SlotNo) -> Result<NKey, NoMemory>
        requires order { (owned : List ℕ) × IsInOrder owned self.old }
        requires slots { slots ≤ most_slots }
        requires allowed { self.old.heap.natives_made < self.old.heap.limits.natives }
        ensures made { OnOk result (self.new.heap.natives_made ≡ self.old.heap.natives_made + 1) }
        ensures heap { OnOk result (self.new.heap ≡ with_native self.old.heap slots) }
        ensures name { IfOk result (λ key. native_name self.new (Some key) ≡ Some (native (self.old.heap.natives_made + 1))) }
        ensures there { IfOk result (λ key. IsNativeThere self.new (Some key)) }
        ensures scripts { self.new.scripts ≡ self.old.scripts }
        ensures kept { (key k : ℕ) → number_at self.old key ≡ Some k → number_at self.new key ≡ Some k }
        ensures marks { KeepsMarks self.old self.new }
        ensures order { OnOk result ((owned : List ℕ) → IsInOrder owned self.old → IsInOrder ((self.old.heap.natives_made + 1) ∷ owned) self.new) }
        ensures same { OnErr result (self.new ≡ self.old) }
    {
        let number = NativeNo(self.natives_made + 1);
        let key = self.counted.create(number, slots)?;
        self.natives_made += 1;
        Ok(key)
    }

    /// Whether as many natives as the limit were ever made.
    pub fn has_all_natives(&self) -> bool
        ensures { result ≡ nat_le self.now.heap.limits.natives self.now.heap.natives_made }
    {
        self.natives_made >= self.limits.natives()
    }

    /// Makes a native with `slots` empty slots (0 to 256), which register `r` holds from then on. Its name.
    ///
    /// What the register held is given up, and what then has no reference is deleted and told. `Full` exactly where as
    /// many natives as the limit were ever made; `NoMemory` at any other time. Neither changes anything.
    pub fn new_native<N: Notices>(
        &mut self,
        r: RegNo,
        slots: SlotNo,
        out: &mut N,
    ) -> Result<Name, MakeStop>
        requires within { r < length self.old.heap.native_registers }
        requires order { (owned : List ℕ) × IsInOrder owned self.old }
        requires slots { slots ≤ most_slots }
        ensures full { result ≡ Err MakeStop.Full → self.old.heap.limits.natives ≤ self.old.heap.natives_made }
        ensures full_always { self.old.heap.limits.natives ≤ self.old.heap.natives_made → result ≡ Err MakeStop.Full }
        ensures name { IfOk result (λ x. x ≡ native (self.old.heap.natives_made + 1)) }
        ensures heap { OnOk result (self.new.heap ≡ (make_native self.old.heap r slots).heap) }
        ensures told { OnOk result (TellsEvents (N.telling out.old) (N.telling out.new) (make_native self.old.heap r slots).events) }
        ensures tells { TellsWhatIsFreed self.old.heap self.new.heap (N.telling out.old) (N.telling out.new) }
        ensures scripts { self.new.scripts ≡ self.old.scripts }
        ensures kept { KeepsAll self.old self.new }
        ensures marks { KeepsMarks self.old self.new }
        ensures same { OnErr result (self.new ≡ self.old) }
        ensures silent { OnErr result (N.telling out.new ≡ N.telling out.old) }
        ensures stands { OnOk result (StandsAfter self.old.heap self.new.heap (λ g. graph.step g (command.Native r slots))) }
    {
        if self.natives_made >= self.limits.natives() {
            return Err(MakeStop::Full);
        }
        let name = Name::Native(NativeNo(self.natives_made + 1));
        match self.put(slots) {
            Ok(key) => {
                self.put_in_register(r, Some(key), out);
                Ok(name)
            }
            Err(NoMemory) => Err(MakeStop::NoMemory),
        }
    }
}
