//! Weak references: made, followed, and asked whether their natives have ended.
ghost use Rattle.std.specs.Prelude.{◌≡◌, ◌≢◌, ◌∷◌, [], ◌⊎◌, ◌+◌, ◌≤◌, ◌^◌, ◌↔◌, ℕ, false, length, Some, None, Ok, Err, IfOk, IfSome, OnErr, OnOk, ◌<◌};
ghost use Rattle.cc_names.specs.declared.register.Reg.TheVariants.{N as n_register};
ghost use Rattle.cc_model.specs.Graph as graph;
ghost use Rattle.cc_host.specs.Calls.{Brings, NoneComes, TellsFreed};
ghost use Rattle.cc_host.specs.Hosted.{named};
ghost use Rattle.cc_host.specs.Lasting.{Lasts, StaysUsable};
ghost use Rattle.cc_host.specs.Places.{TakesPlace, held_at, placed, places, place_for};
ghost use Rattle.cc_host.specs.Spots.{Spot, WritesOnly, IsWritten};
ghost use Rattle.cc_host.specs.Queues.{told_all};
ghost use Rattle.cc_host.specs.Referring.{HasEnded, has_ended, referent, stop_upgrade, stop_weak, upgraded};
ghost use Rattle.cc_host.specs.Stops.{IsStoppedBy, stop_native};
ghost use Rattle.cc_host.specs.Hosts.{AreTaken, Aside, Enters, serial_at};
ghost use Rattle.cc_host.specs.Refusals.{IsRootRefused};

use crate::host::Host;
use crate::object::Object;
use crate::root::Root;
use crate::stop::Stop;
use crate::weak::Weak;
use cc_names::{Name, RegNo};

impl Host {
    /// A weak reference to a native: it keeps nothing alive, and costs the host nothing.
    ///
    /// A native that was unlinked is `Gone`, so none is made to it.
    pub fn weak(&self, x: Object) -> Result<Weak, Stop>
        ensures stops { IsStoppedBy (stop_native self.now.host x) result }
        ensures of { IfOk result (λ w. referent w ≡ x) }
        ensures there { IfOk result (λ w. has_ended self.now.host w ≡ false) }
    {
        self.runtime.weak(x)
    }

    /// Whether the native of a weak reference has ended: it was told as unlinked or freed, and no call takes or gives it.
    pub fn has_ended(&self, w: Weak) -> Result<bool, Stop>
        ensures stops { IsStoppedBy (stop_weak self.now.host w) result }
        ensures ended { IfOk result (λ b. b ≡ has_ended self.now.host w) }
    {
        self.runtime.has_ended(w)
    }

    /// Numbered native root `r` holds the native of a weak reference from then on, which comes back whole, with all that it holds;
    /// or, where it has ended, holds nothing. It has ended exactly where it was told as unlinked or freed.
    ///
    /// What the root held is given up, and what then has no reference is deleted and told. A native that is brought back may be
    /// one that the running collection would have unlinked: it and what it leads to stays then. Takes no memory.
    #[tactic(auto, using(crate::proofs::HasRoom::after_freeing, crate::proofs::HasRoom::told_freed))]
    pub fn upgrade_into(&mut self, r: RegNo, w: Weak) -> Result<Option<Object>, Stop>
        ensures stops { IsStoppedBy (stop_upgrade self.old.host r w) result }
        ensures exactly { IfOk result (λ x. x ≡ upgraded self.old.host w) }
        ensures none { IfOk result (λ x. x ≡ None ↔ HasEnded self.old.host w) }
        ensures does { OnOk result (Brings (named (upgraded self.old.host w))
            (λ g. graph.set_register g (n_register r) (named (upgraded self.old.host w))) self.old.host self.new.host) }
        ensures writes { OnOk result (WritesOnly (Spot.register (n_register r) ∷ []) self.old.host.heaps.heap self.new.host.heaps.heap) }
        ensures written { OnOk result (IsWritten (Spot.register (n_register r)) (named (upgraded self.old.host w))
            self.new.host.heaps.heap) }
        ensures same { OnErr result (self.new ≡ self.old) }
        ensures tells { TellsFreed self.old.host self.new.host (told_all self.old.told) (told_all self.new.told) }
        ensures aside { Aside self.old self.new }
        ensures none_came { NoneComes self.old.host self.new.host }
        ensures lasts { Lasts None self.old.host self.new.host }
        ensures stays { StaysUsable self.old.host self.new.host }
    {
        let brought = self.runtime.upgrade(r, w, &mut self.told);
        self.told.keeps();
        self.runtime.keeps();
        brought
    }

    /// A root without number holds the native of a weak reference until it is released, and the native comes back whole, with all
    /// that it holds; none exactly where it has ended.
    ///
    /// Where it has ended nothing is wanted, neither memory nor a place, and nothing changes. The root's place, `Full` and `NoMemory` as
    /// in `root`.
    pub fn upgrade(&mut self, w: Weak) -> Result<Option<Root>, Stop>
        ensures stops { IsRootRefused (stop_weak self.old.host w) result }
        ensures full { result ≡ Err Stop.Full → AreTaken self.old.books places ⊎ (2 ^ 64 ≤ self.old.books.last + 1) }
        ensures place { IfOk result (λ x. IfSome x (λ root. (root.index < length self.old.books.roots) ⊎
            ((root.index ≡ length self.old.books.roots) × AreTaken self.old.books (length self.old.books.roots)))) }
        ensures none { IfOk result (λ x. x ≡ None ↔ HasEnded self.old.host w) }
        ensures ended { HasEnded self.old.host w → stop_weak self.old.host w ≡ None → result ≡ Ok None }
        ensures unchanged { result ≡ Ok None → self.new ≡ self.old }
        ensures brings { IfOk result (λ x. IfSome x (λ root. Brings (Some (referent w).name) (placed root.index (referent w).name)
            self.old.host self.new.host)) }
        ensures writes { IfOk result (λ x. IfSome x (λ root. WritesOnly (Spot.register (place_for root.index (referent w).name) ∷ [])
            self.old.host.heaps.heap self.new.host.heaps.heap)) }
        ensures free { IfOk result (λ x. IfSome x (λ root. serial_at self.old.books root.index ≡ None)) }
        ensures holds { IfOk result (λ x. IfSome x (λ root. held_at self.new.host.heaps.heap root.index ≡ Some (referent w).name)) }
        ensures takes { IfOk result (λ x. IfSome x (λ root. TakesPlace root.index (referent w).name self.old.host.heaps.heap self.new.host.heaps.heap)) }
        ensures entered { IfOk result (λ x. IfSome x (λ root. Enters self.old.books self.new.books root.index (Some root.serial))) }
        ensures serial { IfOk result (λ x. IfSome x (λ root. (root.serial ≡ self.old.books.last + 1) × (self.new.books.last ≡ root.serial))) }
        ensures mark { IfOk result (λ x. IfSome x (λ root. root.mark ≡ self.old.host.mark)) }
        ensures same { OnErr result ((self.new.host ≡ self.old.host) × (self.new.told ≡ self.old.told)) }
        // a serial number is used up only then
        ensures untouched { (s : Stop) → result ≡ Err s → s ≢ Stop.NoMemory → s ≢ Stop.Full → self.new ≡ self.old }
        ensures no_root { OnErr result ((index : ℕ) → serial_at self.new.books index ≡ serial_at self.old.books index) }
        ensures last { self.old.books.last ≤ self.new.books.last }
        ensures given { self.new.books.given ≡ self.old.books.given }
        ensures steps { self.new.steps ≡ self.old.steps }
        ensures none_came { NoneComes self.old.host self.new.host }
        ensures tells { TellsFreed self.old.host self.new.host (told_all self.old.told) (told_all self.new.told) }
        ensures lasts { Lasts None self.old.host self.new.host }
        ensures stays { StaysUsable self.old.host self.new.host }
    {
        if self.runtime.has_ended(w)? {
            return Ok(None);
        }
        let root = self.root(Object {
            name: Name::Native(w.number),
            key: w.key.0,
            mark: w.mark,
        })?;
        Ok(Some(root))
    }
}
