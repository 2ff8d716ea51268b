//! Objects made. Each stands in a root from then on.
ghost use Rattle.std.specs.Prelude.{◌≡◌, ◌≢◌, ◌+◌, [], ◌∷◌, length, Option, Some, None, Err, IfOk, OnErr, OnOk};
ghost use Rattle.cc_names.specs.declared.name.Name.{Name};
ghost use Rattle.cc_names.specs.declared.kind.Kind.TheVariants as kind_is;
ghost use Rattle.cc_script.specs.Objects.{kind_at};
ghost use Rattle.cc_names.specs.Names.{native, object};
ghost use Rattle.cc_names.specs.declared.register.Reg.TheVariants.{N as n_register, S as s_register};
ghost use Rattle.cc_model.specs.declared.command.Command.TheVariants as command;
ghost use Rattle.cc_model.specs.Graph as graph;
ghost use Rattle.cc_model.specs.Heap.{register};
ghost use Rattle.cc_heaps.specs.Leaving.{NothingLeft};
ghost use Rattle.cc_heaps.specs.Standing.{IsReached, IsReachedOrReflects};
ghost use Rattle.cc_host.specs.Calls.{Always, Comes, Does, NoneComes, TellsFreed, Tries};
ghost use Rattle.cc_host.specs.Hosted.{IsRooted, IsThere, slots_of};
ghost use Rattle.cc_host.specs.Lasting.{Lasts, StaysUsable};
ghost use Rattle.cc_host.specs.Places.{KeepsPlaces};
ghost use Rattle.cc_host.specs.Spots.{IsWritten, Spot, WritesOnly, if_reflector};
ghost use Rattle.cc_host.specs.Stops.{IsStoppedOrRefused, are_natives_made, are_scripts_made, stop_at, stop_making, stop_proxy};

use crate::changes::{make_map, make_native, make_plain, make_proxy};
use crate::object::Object;
use crate::runtime::{NUMBERED_ROOTS, Runtime};
use crate::stop::Stop;
use cc_model::Notices;
use cc_names::{MOST_SLOTS, RegNo, SlotNo};

impl Runtime {
    /// Makes a native with `slots` empty slots (0 to 256), which native root `r` holds from then on.
    ///
    /// What the root held is given up, and what then has no reference is deleted and told.
    pub fn new_native<N: Notices>(
        &mut self,
        r: RegNo,
        slots: SlotNo,
        out: &mut N,
    ) -> Result<Object, Stop>
        ensures stops { IsStoppedOrRefused (stop_making r slots (are_natives_made self.old)) result }
        ensures does { OnOk result (Does Always (λ g. graph.step g (command.Native r slots)) self.old self.new) }
        ensures writes { OnOk result (WritesOnly (Spot.register (n_register r) ∷ []) self.old.heaps.heap self.new.heaps.heap) }
        ensures there { IfOk result (λ x. IsThere self.new x) }
        ensures taken { IfOk result (λ x. stop_at self.new x ≡ None) }
        ensures name { IfOk result (λ x. x.name ≡ native (self.old.heaps.heap.natives_made + 1)) }
        ensures slots { IfOk result (λ x. length (slots_of self.new x) ≡ slots) }
        ensures held { IfOk result (λ x. register self.new.heaps.heap (n_register r) ≡ Some x.name) }
        ensures same { OnErr result (self.new ≡ self.old) }
        ensures tells { TellsFreed self.old self.new (N.telling out.old) (N.telling out.new) }
        ensures silent { OnErr result (N.telling out.new ≡ N.telling out.old) }
        // no other object comes
        ensures came { IfOk result (λ x. Comes x.name self.old self.new) }
        // what is reached stays so, where the root held nothing
        ensures reaches { OnOk result (register self.old.heaps.heap (n_register r) ≡ None → (x : Option Name) → IsReached self.old.heaps.heap x →
            IsReached self.new.heaps.heap x) }
        ensures places { KeepsPlaces self.old.heaps.heap self.new.heaps.heap }
        ensures lasts { Lasts None self.old self.new }
        ensures stays { StaysUsable self.old self.new }
    {
        if r >= NUMBERED_ROOTS || slots > MOST_SLOTS {
            return Err(Stop::Index);
        }
        let key = make_native(&mut self.heaps, r, slots, out)?;
        match self.of_native(Some(key)) {
            Some(made) => Ok(made),
            None => unreachable!(),
        }
    }

    /// Makes a plain script object with `slots` empty slots (0 to 256), which script root `r` holds from then on. No object leaves,
    /// whether the root held one or not.
    pub fn new_plain(&mut self, r: RegNo, slots: SlotNo) -> Result<Object, Stop>
        ensures stops { IsStoppedOrRefused (stop_making r slots (are_scripts_made self.old)) result }
        ensures does { OnOk result (Does Always (λ g. graph.step g (command.Script r slots)) self.old self.new) }
        ensures writes { OnOk result (WritesOnly (Spot.register (s_register r) ∷ []) self.old.heaps.heap self.new.heaps.heap) }
        ensures there { IfOk result (λ x. IsThere self.new x) }
        ensures name { IfOk result (λ x. x.name ≡ object (self.old.heaps.heap.scripts_made + 1)) }
        ensures kind { IfOk result (λ x. kind_at self.new.heaps.scripts x.key ≡ Some kind_is.Plain) }
        ensures slots { IfOk result (λ x. length (slots_of self.new x) ≡ slots) }
        ensures held { IfOk result (λ x. register self.new.heaps.heap (s_register r) ≡ Some x.name) }
        ensures same { OnErr result (self.new ≡ self.old) }
        ensures none_left { NothingLeft self.old.heaps.heap self.new.heaps.heap }
        // no other object comes
        ensures came { IfOk result (λ x. Comes x.name self.old self.new) }
        ensures places { KeepsPlaces self.old.heaps.heap self.new.heaps.heap }
        ensures lasts { Lasts None self.old self.new }
        ensures stays { StaysUsable self.old self.new }
    {
        if r >= NUMBERED_ROOTS || slots > MOST_SLOTS {
            return Err(Stop::Index);
        }
        let key = make_plain(&mut self.heaps, r, slots)?;
        match self.of_script(Some(key)) {
            Some(made) => Ok(made),
            None => unreachable!(),
        }
    }

    /// Makes a weak map without entries, which script root `r` holds from then on. No object leaves.
    pub fn new_map(&mut self, r: RegNo) -> Result<Object, Stop>
        ensures stops { IsStoppedOrRefused (stop_making r 0 (are_scripts_made self.old)) result }
        ensures does { OnOk result (Does Always (λ g. graph.step g (command.WeakMap r)) self.old self.new) }
        ensures writes { OnOk result (WritesOnly (Spot.register (s_register r) ∷ []) self.old.heaps.heap self.new.heaps.heap) }
        ensures there { IfOk result (λ x. IsThere self.new x) }
        ensures name { IfOk result (λ x. x.name ≡ object (self.old.heaps.heap.scripts_made + 1)) }
        ensures kind { IfOk result (λ x. kind_at self.new.heaps.scripts x.key ≡ Some kind_is.Map) }
        ensures held { IfOk result (λ x. register self.new.heaps.heap (s_register r) ≡ Some x.name) }
        ensures same { OnErr result (self.new ≡ self.old) }
        ensures none_left { NothingLeft self.old.heaps.heap self.new.heaps.heap }
        // no other object comes
        ensures came { IfOk result (λ x. Comes x.name self.old self.new) }
        ensures places { KeepsPlaces self.old.heaps.heap self.new.heaps.heap }
        ensures lasts { Lasts None self.old self.new }
        ensures stays { StaysUsable self.old self.new }
    {
        if r >= NUMBERED_ROOTS {
            return Err(Stop::Index);
        }
        let key = make_map(&mut self.heaps, r)?;
        match self.of_script(Some(key)) {
            Some(made) => Ok(made),
            None => unreachable!(),
        }
    }

    /// Makes a proxy of a script object, its delegate for good, which script root `r` holds from then on. A delegate that is a
    /// reflector is preserved. No object leaves.
    ///
    /// `Full` and `NoMemory` leave the graph as it is (`tried`): the delegate was exposed to script. Each other refusal changes nothing
    /// at all (`same`).
    #[tactic(auto, using(crate::proofs::KeptDoomed::still_doomed))]
    pub fn new_proxy(&mut self, r: RegNo, delegate: Object) -> Result<Object, Stop>
        ensures stops { IsStoppedOrRefused (stop_proxy self.old delegate r) result }
        ensures does { OnOk result (Does (IsReachedOrReflects self.old.heaps.heap (Some delegate.name))
            (λ g. graph.with_proxy g r (Some delegate.name)) self.old self.new) }
        ensures writes { IfOk result (λ x. WritesOnly (Spot.register (s_register r) ∷ Spot.delegate x.name ∷ Spot.preserved delegate.name ∷ [])
            self.old.heaps.heap self.new.heaps.heap) }
        ensures written { IfOk result (λ x. IsWritten (Spot.delegate x.name) (Some delegate.name) self.new.heaps.heap) }
        ensures preserves { OnOk result (IsWritten (Spot.preserved delegate.name) (if_reflector delegate.name) self.new.heaps.heap) }
        ensures there { IfOk result (λ x. IsThere self.new x) }
        ensures name { IfOk result (λ x. x.name ≡ object (self.old.heaps.heap.scripts_made + 1)) }
        ensures kind { IfOk result (λ x. kind_at self.new.heaps.scripts x.key ≡ Some kind_is.Proxy) }
        ensures held { IfOk result (λ x. register self.new.heaps.heap (s_register r) ≡ Some x.name) }
        // each other cause is told before anything is done
        ensures same { (s : Stop) → result ≡ Err s → s ≢ Stop.Full → s ≢ Stop.NoMemory → self.new ≡ self.old }
        ensures tried { OnErr result (Tries (IsReachedOrReflects self.old.heaps.heap (Some delegate.name)) self.old self.new) }
        ensures unwritten { OnErr result (WritesOnly [] self.old.heaps.heap self.new.heaps.heap) }
        ensures none_left { NothingLeft self.old.heaps.heap self.new.heaps.heap }
        // no other object comes
        ensures came { IfOk result (λ x. Comes x.name self.old self.new) }
        ensures none_came { OnErr result (NoneComes self.old self.new) }
        ensures places { KeepsPlaces self.old.heaps.heap self.new.heaps.heap }
        ensures lasts { Lasts None self.old self.new }
        ensures stays { StaysUsable self.old self.new }
    {
        let delegate = self.script(delegate)?;
        if r >= NUMBERED_ROOTS {
            return Err(Stop::Index);
        }
        let key = make_proxy(&mut self.heaps, r, delegate)?;
        match self.of_script(Some(key)) {
            Some(made) => Ok(made),
            None => unreachable!(),
        }
    }
}
