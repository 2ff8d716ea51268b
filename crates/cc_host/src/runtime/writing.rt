//! Roots and slots written, and reflectors.
ghost use Rattle.std.specs.Prelude.{◌≡◌, ◌≢◌, [], ◌∷◌, Some, None, Ok, Err, IfOk, OnErr, OnOk, true, false};
ghost use Rattle.cc_names.specs.Names.{is_native, number_of};
ghost use Rattle.cc_heaps.specs.Leaving.{NothingLeft};
ghost use Rattle.cc_names.specs.declared.register.Reg.TheVariants.{N as n_register, S as s_register};
ghost use Rattle.cc_model.specs.Checks.{reflector_of};
ghost use Rattle.cc_model.specs.Graph as graph;
ghost use Rattle.cc_model.specs.Heap.{has_reflector};
ghost use Rattle.cc_heaps.specs.Changes.{slot_held};
ghost use Rattle.cc_heaps.specs.Standing.{IsReachedOrReflects};
ghost use Rattle.cc_host.specs.Calls.{Brings, Comes, Does, NoneComes, TellsFreed, Tries, stored};
ghost use Rattle.cc_host.specs.Hosted.{IsRooted, IsRootedIfAny, IsThere, named};
ghost use Rattle.cc_host.specs.Lasting.{Lasts, StaysUsable};
ghost use Rattle.cc_host.specs.Places.{KeepsPlaces};
ghost use Rattle.cc_host.specs.Spots.{IsWritten, Spot, WritesOnly, if_reflector, reads};
ghost use Rattle.cc_host.specs.Stops.{IsStoppedBy, IsStoppedOrRefused, stop_moving, stop_native, stop_reflector, stop_rooting, stop_script, stop_storing};

use crate::changes;
use crate::object::Object;
use crate::runtime::{NUMBERED_ROOTS, Runtime};
use crate::stop::Stop;
use cc_model::Notices;
use cc_names::{Name, RegNo, SlotNo};

impl Runtime {
    /// Native root `r` holds a native from then on, or nothing. Any native that is there is taken, whether anything reaches it or
    /// not.
    ///
    /// What it held is given up, and what then has no reference is deleted and told. Takes no memory.
    pub fn set_native_root<N: Notices>(
        &mut self,
        r: RegNo,
        x: Option<Object>,
        out: &mut N,
    ) -> Result<(), Stop>
        ensures stops { IsStoppedBy (stop_rooting stop_native self.old r x) result }
        ensures does { OnOk result (Does (IsRootedIfAny self.old x) (λ g. graph.set_register g (n_register r) (named x)) self.old self.new) }
        ensures writes { OnOk result (WritesOnly (Spot.register (n_register r) ∷ []) self.old.heaps.heap self.new.heaps.heap) }
        ensures written { OnOk result (IsWritten (Spot.register (n_register r)) (named x) self.new.heaps.heap) }
        ensures brings { OnOk result (Brings (named x) (λ g. graph.set_register g (n_register r) (named x)) self.old self.new) }
        ensures same { OnErr result (self.new ≡ self.old) }
        ensures tells { TellsFreed self.old self.new (N.telling out.old) (N.telling out.new) }
        ensures silent { OnErr result (N.telling out.new ≡ N.telling out.old) }
        ensures none_came { NoneComes self.old self.new }
        ensures places { KeepsPlaces self.old.heaps.heap self.new.heaps.heap }
        ensures lasts { Lasts None self.old self.new }
        ensures stays { StaysUsable self.old self.new }
    {
        let content = self.native_if_any(x)?;
        if r >= NUMBERED_ROOTS {
            return Err(Stop::Index);
        }
        changes::root_native(&mut self.heaps, r, content, out);
        Ok(())
    }

    /// Script root `r` holds a script object from then on, or nothing. No object leaves or comes by it. Takes no memory.
    pub fn set_script_root(&mut self, r: RegNo, x: Option<Object>) -> Result<(), Stop>
        ensures stops { IsStoppedBy (stop_rooting stop_script self.old r x) result }
        ensures does { OnOk result (Does (IsReachedOrReflects self.old.heaps.heap (named x))
            (λ g. graph.set_register g (s_register r) (named x)) self.old self.new) }
        ensures writes { OnOk result (WritesOnly (Spot.register (s_register r) ∷ []) self.old.heaps.heap self.new.heaps.heap) }
        ensures written { OnOk result (IsWritten (Spot.register (s_register r)) (named x) self.new.heaps.heap) }
        ensures same { OnErr result (self.new ≡ self.old) }
        ensures none_left { NothingLeft self.old.heaps.heap self.new.heaps.heap }
        ensures none_came { NoneComes self.old self.new }
        ensures places { KeepsPlaces self.old.heaps.heap self.new.heaps.heap }
        ensures lasts { Lasts None self.old self.new }
        ensures stays { StaysUsable self.old self.new }
    {
        let content = self.script_if_any(x)?;
        if r >= NUMBERED_ROOTS {
            return Err(Stop::Index);
        }
        changes::root_script(&mut self.heaps, r, content);
        Ok(())
    }

    // The same of a native.
    fn store_in_native<N: Notices>(
        &mut self,
        x: Object,
        i: SlotNo,
        y: Option<Object>,
        out: &mut N,
    ) -> Result<(), Stop>
        requires { is_native x.name ≡ true }
        ensures stops { IsStoppedBy (stop_storing self.old x i y) result }
        ensures does { OnOk result (Does (IsReachedOrReflects self.old.heaps.heap (Some x.name)
            × IsReachedOrReflects self.old.heaps.heap (named y)) (stored x i (named y)) self.old self.new) }
        ensures writes { OnOk result (WritesOnly (Spot.slot x.name i ∷ Spot.preserved x.name ∷ []) self.old.heaps.heap self.new.heaps.heap) }
        ensures written { OnOk result (IsWritten (Spot.slot x.name i) (named y) self.new.heaps.heap) }
        ensures preserves { OnOk result (IsWritten (Spot.preserved x.name) (if_reflector x.name) self.new.heaps.heap) }
        ensures same { OnErr result (self.new ≡ self.old) }
        ensures tells { TellsFreed self.old self.new (N.telling out.old) (N.telling out.new) }
        ensures silent { OnErr result (N.telling out.new ≡ N.telling out.old) }
        ensures none_came { NoneComes self.old self.new }
        ensures places { KeepsPlaces self.old.heaps.heap self.new.heaps.heap }
        ensures lasts { Lasts None self.old self.new }
        ensures stays { StaysUsable self.old self.new }
    {
        let key = self.native(x)?;
        let content = self.held_if_any(y)?;
        if i >= self.heaps.counted().slots(key) {
            return Err(Stop::Index);
        }
        changes::store_native(&mut self.heaps, key, i, content, out);
        Ok(())
    }

    // The same of a script object.
    fn store_in_script(&mut self, x: Object, i: SlotNo, y: Option<Object>) -> Result<(), Stop>
        requires { is_native x.name ≡ false }
        ensures stops { IsStoppedBy (stop_storing self.old x i y) result }
        ensures does { OnOk result (Does (IsReachedOrReflects self.old.heaps.heap (Some x.name)
            × IsReachedOrReflects self.old.heaps.heap (named y)) (stored x i (named y)) self.old self.new) }
        ensures writes { OnOk result (WritesOnly (Spot.slot x.name i ∷ Spot.preserved x.name ∷ []) self.old.heaps.heap self.new.heaps.heap) }
        ensures written { OnOk result (IsWritten (Spot.slot x.name i) (named y) self.new.heaps.heap) }
        ensures preserves { OnOk result (IsWritten (Spot.preserved x.name) (if_reflector x.name) self.new.heaps.heap) }
        ensures same { OnErr result (self.new ≡ self.old) }
        ensures none_left { NothingLeft self.old.heaps.heap self.new.heaps.heap }
        ensures none_came { NoneComes self.old self.new }
        ensures places { KeepsPlaces self.old.heaps.heap self.new.heaps.heap }
        ensures lasts { Lasts None self.old self.new }
        ensures stays { StaysUsable self.old self.new }
    {
        let key = self.script(x)?;
        let content = self.script_if_any(y)?;
        if i >= self.heaps.scripts().slots(key) {
            return Err(Stop::Index);
        }
        changes::store_script(&mut self.heaps, key, i, content);
        Ok(())
    }

    /// Slot `i` of an object, counted from 0, holds another object from then on, or nothing. A native holds natives and script
    /// objects; a script object holds script objects, and a reflector is preserved before.
    ///
    /// What is handed in is reached, or is the reflector of a native that is reached: one that `wrap` just made, which nothing holds
    /// yet, may be stored, and may be written.
    ///
    /// What a native's slot held is given up, and what then has no reference is deleted and told. A native that is written is a
    /// suspect then. Takes no memory.
    pub fn store<N: Notices>(
        &mut self,
        x: Object,
        i: SlotNo,
        y: Option<Object>,
        out: &mut N,
    ) -> Result<(), Stop>
        ensures stops { IsStoppedBy (stop_storing self.old x i y) result }
        ensures does { OnOk result (Does (IsReachedOrReflects self.old.heaps.heap (Some x.name)
            × IsReachedOrReflects self.old.heaps.heap (named y)) (stored x i (named y)) self.old self.new) }
        ensures writes { OnOk result (WritesOnly (Spot.slot x.name i ∷ Spot.preserved x.name ∷ []) self.old.heaps.heap self.new.heaps.heap) }
        ensures written { OnOk result (IsWritten (Spot.slot x.name i) (named y) self.new.heaps.heap) }
        ensures preserves { OnOk result (IsWritten (Spot.preserved x.name) (if_reflector x.name) self.new.heaps.heap) }
        ensures same { OnErr result (self.new ≡ self.old) }
        ensures tells { TellsFreed self.old self.new (N.telling out.old) (N.telling out.new) }
        ensures silent { OnErr result (N.telling out.new ≡ N.telling out.old) }
        ensures none_came { NoneComes self.old self.new }
        ensures places { KeepsPlaces self.old.heaps.heap self.new.heaps.heap }
        ensures lasts { Lasts None self.old self.new }
        ensures stays { StaysUsable self.old self.new }
    {
        match x.name {
            Name::Native(_) => self.store_in_native(x, i, y, out),
            Name::Script(_) | Name::Reflector(_) => self.store_in_script(x, i, y),
        }
    }

    /// Slot `i` of the native `to`, counted from 0, holds from then on what slot `j` of the native `from` held, which is empty
    /// then. Where both are one place nothing moves.
    ///
    /// What moves keeps its references, but for what slot `i` held, which is given up as in `store`. `to` is a suspect then.
    /// Takes no memory.
    pub fn move_slot<N: Notices>(
        &mut self,
        to: Object,
        i: SlotNo,
        from: Object,
        j: SlotNo,
        out: &mut N,
    ) -> Result<(), Stop>
        ensures stops { IsStoppedBy (stop_moving self.old to i from j) result }
        ensures does { OnOk result (Does (IsRooted self.old to × IsRooted self.old from)
            (λ g. graph.move_slot g (Some to.name) i (Some from.name) j (slot_held self.old.heaps.heap (number_of from.name) j)) self.old self.new) }
        ensures writes { OnOk result (WritesOnly (Spot.slot to.name i ∷ Spot.slot from.name j ∷ []) self.old.heaps.heap self.new.heaps.heap) }
        ensures written { OnOk result (IsWritten (Spot.slot to.name i) (reads self.old.heaps.heap (Spot.slot from.name j)) self.new.heaps.heap) }
        ensures emptied { OnOk result (Spot.slot to.name i ≢ Spot.slot from.name j → IsWritten (Spot.slot from.name j) None self.new.heaps.heap) }
        ensures same { OnErr result (self.new ≡ self.old) }
        ensures tells { TellsFreed self.old self.new (N.telling out.old) (N.telling out.new) }
        ensures silent { OnErr result (N.telling out.new ≡ N.telling out.old) }
        ensures none_came { NoneComes self.old self.new }
        ensures places { KeepsPlaces self.old.heaps.heap self.new.heaps.heap }
        ensures lasts { Lasts None self.old self.new }
        ensures stays { StaysUsable self.old self.new }
    {
        let to = self.native(to)?;
        let from = self.native(from)?;
        if i >= self.heaps.counted().slots(to) || j >= self.heaps.counted().slots(from) {
            return Err(Stop::Index);
        }
        changes::move_native(&mut self.heaps, to, i, from, j, out);
        Ok(())
    }

    /// The reflector of a native, for script. The one that it has, or one that is made: put it into a root, a slot or an entry, make
    /// a proxy of it or preserve it, for by itself it is held by nothing. Each of these takes it while its native is reached.
    ///
    /// `NoMemory` leaves the graph as it is (`tried`), and comes only where the native has no reflector (`wanted`). The native is a
    /// suspect then. Each other refusal changes nothing at all and tells nothing (`same`, `silent`).
    #[tactic(auto, using(crate::proofs::KeptDoomed::still_doomed))]
    pub fn wrap<N: Notices>(&mut self, x: Object, out: &mut N) -> Result<Object, Stop>
        ensures stops { IsStoppedOrRefused (stop_native self.old x) result }
        ensures does { OnOk result (Does (IsRooted self.old x) (λ g. graph.wrapped g (Some x.name)) self.old self.new) }
        ensures writes { WritesOnly [] self.old.heaps.heap self.new.heaps.heap }
        ensures there { IfOk result (λ y. IsThere self.new y) }
        ensures name { IfOk result (λ y. Some y.name ≡ reflector_of (Some x.name)) }
        // each other cause is told before anything is done; memory is wanted only for a reflector that is not there
        ensures same { (s : Stop) → result ≡ Err s → s ≢ Stop.NoMemory → self.new ≡ self.old }
        ensures silent { (s : Stop) → result ≡ Err s → s ≢ Stop.NoMemory → N.telling out.new ≡ N.telling out.old }
        ensures wanted { result ≡ Err Stop.NoMemory → has_reflector self.old.heaps.heap (number_of x.name) ≡ false }
        ensures tried { OnErr result (Tries (IsRooted self.old x) self.old self.new) }
        ensures tells { TellsFreed self.old self.new (N.telling out.old) (N.telling out.new) }
        // no object comes but that reflector
        ensures came { IfOk result (λ y. Comes y.name self.old self.new) }
        ensures none_came { OnErr result (NoneComes self.old self.new) }
        ensures places { KeepsPlaces self.old.heaps.heap self.new.heaps.heap }
        ensures lasts { Lasts (reflector_of (Some x.name)) self.old self.new }
        ensures stays { StaysUsable self.old self.new }
    {
        let key = self.native(x)?;
        let made = changes::wrap_native(&mut self.heaps, key, out)?;
        match self.of_script(Some(made)) {
            Some(reflector) => Ok(reflector),
            None => unreachable!(),
        }
    }

    /// A reflector is preserved from then on: its native holds it. It may be one that nothing held before, where its native is
    /// reached. No object leaves or comes by it. Takes no memory.
    pub fn preserve(&mut self, x: Object) -> Result<(), Stop>
        ensures stops { IsStoppedBy (stop_reflector self.old x) result }
        ensures does { OnOk result (Does (IsReachedOrReflects self.old.heaps.heap (Some x.name)) (λ g. graph.preserve g (Some x.name)) self.old self.new) }
        ensures writes { OnOk result (WritesOnly (Spot.preserved x.name ∷ []) self.old.heaps.heap self.new.heaps.heap) }
        ensures written { OnOk result (IsWritten (Spot.preserved x.name) (Some x.name) self.new.heaps.heap) }
        ensures same { OnErr result (self.new ≡ self.old) }
        ensures none_left { NothingLeft self.old.heaps.heap self.new.heaps.heap }
        ensures none_came { NoneComes self.old self.new }
        ensures places { KeepsPlaces self.old.heaps.heap self.new.heaps.heap }
        ensures lasts { Lasts None self.old self.new }
        ensures stays { StaysUsable self.old self.new }
    {
        let key = self.reflector(x)?;
        changes::preserve_reflector(&mut self.heaps, key);
        Ok(())
    }
}
