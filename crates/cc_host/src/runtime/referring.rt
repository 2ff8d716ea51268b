//! Weak references: made, followed, and asked whether their natives have ended.
ghost use Rattle.std.specs.Prelude.{◌≡◌, ◌↔◌, [], ◌∷◌, false, Some, None, IfOk, OnErr, OnOk};
ghost use Rattle.cc_names.specs.declared.register.Reg.TheVariants.{N as n_register};
ghost use Rattle.cc_model.specs.Graph as graph;
ghost use Rattle.cc_model.specs.Heap.{register};
ghost use Rattle.cc_heaps.specs.Changes.{IsNativeThere, native_name};
ghost use Rattle.cc_heaps.specs.Standing.{MayBeHeld};
ghost use Rattle.cc_host.specs.Calls.{Brings, NoneComes, TellsFreed};
ghost use Rattle.cc_host.specs.Hosted.{named};
ghost use Rattle.cc_host.specs.Lasting.{Lasts, StaysUsable};
ghost use Rattle.cc_host.specs.Referring.{HasEnded, has_ended, referent, stop_upgrade, stop_weak, upgraded};
ghost use Rattle.cc_host.specs.Places.{KeepsPlaces};
ghost use Rattle.cc_host.specs.Spots.{IsWritten, Spot, WritesOnly};
ghost use Rattle.cc_host.specs.Stops.{IsStoppedBy, stop_native};

use crate::changes;
use crate::object::Object;
use crate::runtime::{NUMBERED_ROOTS, Runtime};
use crate::stop::Stop;
use crate::weak::Weak;
use cc_model::Notices;
use cc_names::{NKey, Name, RegNo};

impl Runtime {
    /// A weak reference to a native: it keeps nothing alive.
    ///
    /// A native that was unlinked is `Gone`, so none is made to it.
    pub fn weak(&self, x: Object) -> Result<Weak, Stop>
        ensures stops { IsStoppedBy (stop_native self.now x) result }
        ensures of { IfOk result (λ w. referent w ≡ x) }
        ensures there { IfOk result (λ w. has_ended self.now w ≡ false) }
    {
        self.look(x)?;
        match x.name {
            Name::Native(number) => Ok(Weak {
                number,
                key: NKey(x.key),
                mark: x.mark,
            }),
            Name::Script(_) | Name::Reflector(_) => Err(Stop::Kind),
        }
    }

    // Where the native of a weak reference stands; none where it has ended.
    fn followed(&self, w: Weak) -> Option<NKey>
        ensures name { native_name self.now.heaps result ≡ named (upgraded self.now w) }
        ensures there { IsNativeThere self.now.heaps result }
        ensures usable { MayBeHeld self.now.heaps.heap (native_name self.now.heaps result) }
        ensures none { result ≡ None ↔ HasEnded self.now w }
    {
        let _ = &self.heaps;
        if self.found_native(w.key, w.number) {
            Some(w.key)
        } else {
            None
        }
    }

    /// Native root `r` holds the native of a weak reference from then on, which comes back whole, with all that it holds; or, where
    /// it has ended, holds nothing. It has ended exactly where it was told as unlinked or freed.
    ///
    /// What the root held is given up, and what then has no reference is deleted and told. A native that is brought back may be
    /// one that the running collection would have unlinked: it and what it leads to stays then. Takes no memory.
    pub fn upgrade<N: Notices>(
        &mut self,
        r: RegNo,
        w: Weak,
        out: &mut N,
    ) -> Result<Option<Object>, Stop>
        ensures stops { IsStoppedBy (stop_upgrade self.old r w) result }
        ensures exactly { IfOk result (λ x. x ≡ upgraded self.old w) }
        ensures none { IfOk result (λ x. x ≡ None ↔ HasEnded self.old w) }
        ensures does { OnOk result (Brings (named (upgraded self.old w))
            (λ g. graph.set_register g (n_register r) (named (upgraded self.old w))) self.old self.new) }
        ensures writes { OnOk result (WritesOnly (Spot.register (n_register r) ∷ []) self.old.heaps.heap self.new.heaps.heap) }
        ensures written { OnOk result (IsWritten (Spot.register (n_register r)) (named (upgraded self.old w)) self.new.heaps.heap) }
        ensures held { OnOk result (register self.new.heaps.heap (n_register r) ≡ named (upgraded self.old w)) }
        ensures same { OnErr result (self.new ≡ self.old) }
        ensures tells { TellsFreed self.old self.new (N.telling out.old) (N.telling out.new) }
        ensures silent { OnErr result (N.telling out.new ≡ N.telling out.old) }
        ensures none_came { NoneComes self.old self.new }
        ensures places { KeepsPlaces self.old.heaps.heap self.new.heaps.heap }
        ensures lasts { Lasts None self.old self.new }
        ensures stays { StaysUsable self.old self.new }
    {
        if w.mark != self.mark {
            return Err(Stop::Foreign);
        }
        if r >= NUMBERED_ROOTS {
            return Err(Stop::Index);
        }
        let key = self.followed(w);
        changes::root_native(&mut self.heaps, r, key, out);
        match key {
            Some(key) => Ok(Some(Object {
                name: Name::Native(w.number),
                key: key.0,
                mark: w.mark,
            })),
            None => Ok(None),
        }
    }

    /// Whether the native of a weak reference has ended: it was told as unlinked or freed, and no call takes or gives it.
    pub fn has_ended(&self, w: Weak) -> Result<bool, Stop>
        ensures stops { IsStoppedBy (stop_weak self.now w) result }
        ensures ended { IfOk result (λ b. b ≡ has_ended self.now w) }
    {
        if w.mark != self.mark {
            return Err(Stop::Foreign);
        }
        Ok(!self.found_native(w.key, w.number))
    }
}
