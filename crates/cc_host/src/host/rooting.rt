//! Roots without number, as many as wanted. Each stands in a register behind the numbered roots, by the number of its place.
ghost use Rattle.std.specs.Prelude.{◌≡◌, ◌≢◌, ◌∷◌, [], ◌⊎◌, ◌+◌, ◌≤◌, ◌^◌, ℕ, true, length, Some, None, Err, IfOk, OnErr, OnOk, ◌<◌};
ghost use Rattle.cc_names.specs.Names.{is_native};
ghost use Rattle.cc_heaps.specs.Standing.{IsReachedOrReflects};
ghost use Rattle.cc_host.specs.Calls.{Always, Brings, Does, NoneComes, TellsFreed};
ghost use Rattle.cc_host.specs.Hosted.{IsRooted, IsThere};
ghost use Rattle.cc_host.specs.Lasting.{Lasts, StaysUsable};
ghost use Rattle.cc_host.specs.Places.{IsFree, KeepsOtherPlaces, TakesPlace, held_at, placed, places, unplaced, native_place, place_for, script_place};
ghost use Rattle.cc_host.specs.Spots.{Spot, WritesOnly};
ghost use Rattle.cc_host.specs.Queues.{told_all};
ghost use Rattle.cc_host.specs.Stops.{IsStoppedBy, stop_at};
ghost use Rattle.cc_host.specs.Hosts.{AreTaken, Enters, serial_at};
ghost use Rattle.cc_host.specs.Refusals.{IsRootRefused, stop_of_root};

use crate::host::Host;
use crate::object::Object;
use crate::root::Root;
use crate::stop::Stop;

// Why a root has no place, where an object that is there has none.
fn without_place(stop: Stop) -> Stop
    ensures causes { (result ≡ Stop.NoMemory) ⊎ (result ≡ Stop.Full) }
    ensures memory { result ≡ Stop.NoMemory → stop ≡ Stop.NoMemory }
    ensures full { stop ≡ Stop.NoMemory → result ≡ Stop.NoMemory }
{
    match stop {
        Stop::NoMemory => Stop::NoMemory,
        Stop::Foreign | Stop::Gone | Stop::Kind | Stop::Index | Stop::Full => Stop::Full,
    }
}

impl Host {
    /// Holds an object until the root that it answers is released. Any number of roots may hold one object, and any native that is there
    /// is taken, whether anything reaches it or not.
    ///
    /// The root is one that was not in use, and holds the object from then on (`holds`). It is no object, and counts for no limit.
    /// It gets a free place that was made before, and a new one only where each of those is taken (`place`). `Full` only where every
    /// place is taken, or no serial number is left (`full`). `Full` and `NoMemory` leave the heaps and what was told as they are, and no
    /// root is in use that was not (`same`, `none`); a serial number may be used up.
    pub fn root(&mut self, x: Object) -> Result<Root, Stop>
        ensures stops { IsRootRefused (stop_at self.old.host x) result }
        ensures full { result ≡ Err Stop.Full → AreTaken self.old.books places ⊎ (2 ^ 64 ≤ self.old.books.last + 1) }
        ensures place { IfOk result (λ root. (root.index < length self.old.books.roots) ⊎
            ((root.index ≡ length self.old.books.roots) × AreTaken self.old.books (length self.old.books.roots))) }
        ensures does { IfOk result (λ root. Does (IsReachedOrReflects self.old.host.heaps.heap (Some x.name))
            (placed root.index x.name) self.old.host self.new.host) }
        ensures writes { IfOk result (λ root. WritesOnly (Spot.register (place_for root.index x.name) ∷ []) self.old.host.heaps.heap self.new.host.heaps.heap) }
        ensures brings { IfOk result (λ root. is_native x.name ≡ true → Brings (Some x.name) (placed root.index x.name) self.old.host self.new.host) }
        ensures free { IfOk result (λ root. serial_at self.old.books root.index ≡ None) }
        ensures holds { IfOk result (λ root. held_at self.new.host.heaps.heap root.index ≡ Some x.name) }
        ensures takes { IfOk result (λ root. TakesPlace root.index x.name self.old.host.heaps.heap self.new.host.heaps.heap) }
        ensures entered { IfOk result (λ root. Enters self.old.books self.new.books root.index (Some root.serial)) }
        ensures serial { IfOk result (λ root. (root.serial ≡ self.old.books.last + 1) × (self.new.books.last ≡ root.serial)) }
        ensures mark { IfOk result (λ root. root.mark ≡ self.old.host.mark) }
        ensures same { OnErr result ((self.new.host ≡ self.old.host) × (self.new.told ≡ self.old.told)) }
        // a serial number is used up only then
        ensures untouched { (s : Stop) → result ≡ Err s → s ≢ Stop.NoMemory → s ≢ Stop.Full → self.new ≡ self.old }
        ensures none { OnErr result ((index : ℕ) → serial_at self.new.books index ≡ serial_at self.old.books index) }
        ensures last { self.old.books.last ≤ self.new.books.last }
        ensures given { self.new.books.given ≡ self.old.books.given }
        ensures steps { self.new.steps ≡ self.old.steps }
        ensures none_came { NoneComes self.old.host self.new.host }
        ensures tells { TellsFreed self.old.host self.new.host (told_all self.old.told) (told_all self.new.told) }
        ensures lasts { Lasts None self.old.host self.new.host }
        ensures stays { StaysUsable self.old.host self.new.host }
    {
        self.runtime.slots(x)?;
        let (index, serial) = self.book.enter()?;
        let done = self.runtime.root_at(index, x, &mut self.told);
        self.told.keeps();
        self.runtime.keeps();
        if let Err(stop) = done {
            self.book.leave(index);
            return Err(without_place(stop));
        }
        Ok(Root {
            index,
            serial,
            mark: self.runtime.object_mark(),
        })
    }

    /// A root holds nothing from then on, and is not in use: each call that it is handed to is refused, for ever.
    ///
    /// What it held is given up, and what then has no reference is deleted and told. Takes no memory.
    pub fn release(&mut self, root: Root) -> Result<(), Stop>
        ensures stops { IsStoppedBy (stop_of_root self.old root) result }
        ensures does { OnOk result (Does Always (unplaced root.index) self.old.host self.new.host) }
        ensures writes { OnOk result (WritesOnly (Spot.register (native_place root.index) ∷ Spot.register (script_place root.index) ∷ [])
            self.old.host.heaps.heap self.new.host.heaps.heap) }
        ensures left { OnOk result (Enters self.old.books self.new.books root.index None) }
        ensures empty { OnOk result (IsFree self.new.host.heaps.heap root.index) }
        ensures others { KeepsOtherPlaces root.index self.old.host.heaps.heap self.new.host.heaps.heap }
        ensures last { self.new.books.last ≡ self.old.books.last }
        ensures steps { self.new.steps ≡ self.old.steps }
        ensures same { OnErr result (self.new ≡ self.old) }
        ensures none_came { NoneComes self.old.host self.new.host }
        ensures tells { TellsFreed self.old.host self.new.host (told_all self.old.told) (told_all self.new.told) }
        ensures lasts { Lasts None self.old.host self.new.host }
        ensures stays { StaysUsable self.old.host self.new.host }
    {
        self.find(root)?;
        let done = self.runtime.unroot_at(root.index, &mut self.told);
        self.told.keeps();
        self.runtime.keeps();
        if done.is_err() {
            unreachable!()
        }
        self.book.leave(root.index);
        Ok(())
    }

    // A root of this host, which is in use.
    fn find(&self, root: Root) -> Result<(), Stop>
        ensures { IsStoppedBy (stop_of_root self.now root) result }
    {
        if root.mark != self.runtime.object_mark() {
            return Err(Stop::Foreign);
        }
        if self.book.serial(root.index) != Some(root.serial) {
            return Err(Stop::Gone);
        }
        Ok(())
    }

    /// What a root holds.
    pub fn held(&self, root: Root) -> Result<Object, Stop>
        ensures stops { IsStoppedBy (stop_of_root self.now root) result }
        ensures holds { IfOk result (λ x. held_at self.now.host.heaps.heap root.index ≡ Some x.name) }
        ensures there { IfOk result (λ x. IsThere self.now.host x) }
        ensures rooted { IfOk result (λ x. IsRooted self.now.host x) }
    {
        self.find(root)?;
        match self.runtime.at_place(root.index) {
            Some(x) => Ok(x),
            None => unreachable!(),
        }
    }
}
