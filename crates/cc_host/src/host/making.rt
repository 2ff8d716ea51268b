//! Objects made. Each stands in a numbered root from then on.
ghost use Rattle.std.specs.Prelude.{◌≡◌, ◌∷◌, [], ◌≢◌, ◌+◌, nat_lt, length, Some, None, Err, IfOk, OnErr, OnOk};
ghost use Rattle.cc_names.specs.declared.kind.Kind.TheVariants as kind_is;
ghost use Rattle.cc_script.specs.Objects.{kind_at};
ghost use Rattle.cc_names.specs.Names.{native, object};
ghost use Rattle.cc_names.specs.Sizes.{most_slots};
ghost use Rattle.cc_names.specs.declared.register.Reg.TheVariants.{N as n_register, S as s_register};
ghost use Rattle.cc_model.specs.declared.command.Command.TheVariants as command;
ghost use Rattle.cc_model.specs.Graph as graph;
ghost use Rattle.cc_model.specs.Heap.{register};
ghost use Rattle.cc_heaps.specs.Standing.{IsReachedOrReflects};
ghost use Rattle.cc_host.specs.Calls.{Always, Comes, Does, NoneComes, TellsFreed, Tries};
ghost use Rattle.cc_host.specs.Hosted.{IsRooted, IsThere, slots_of};
ghost use Rattle.cc_host.specs.Lasting.{Lasts, StaysUsable};
ghost use Rattle.cc_host.specs.Spots.{IsWritten, Spot, WritesOnly, if_reflector};
ghost use Rattle.cc_host.specs.Queues.{told_all};
ghost use Rattle.cc_host.specs.Stops.{are_natives_made, are_scripts_made, first, stop_at, stop_making, stop_proxy, stop_root, stop_script, where_so};
ghost use Rattle.cc_host.specs.Hosts.{Aside, IsAsItWas, Quiet};
ghost use Rattle.cc_host.specs.Refusals.{IsStoppedOrWants};

use crate::host::{Host, with_one_more};
use crate::object::Object;
use crate::runtime::NUMBERED_ROOTS;
use crate::stop::Stop;
use cc_names::{MOST_SLOTS, RegNo, SlotNo};

impl Host {
    /// Makes a native with `slots` empty slots (0 to 256), which numbered native root `r` holds from then on.
    ///
    /// What the root held is given up, and what then has no reference is deleted and told.
    pub fn new_native(&mut self, r: RegNo, slots: SlotNo) -> Result<Object, Stop>
        ensures stops { IsStoppedOrWants (stop_making r slots (are_natives_made self.old.host)) result }
        // an index that is too great is told before memory is wanted, and then nothing changes
        ensures index { (s : Stop) → first (stop_root r) (where_so (nat_lt most_slots slots) Stop.Index) ≡ Some s → result ≡ Err s }
        ensures untouched { result ≡ Err Stop.Index → self.new ≡ self.old }
        ensures does { OnOk result (Does Always (λ g. graph.step g (command.Native r slots)) self.old.host self.new.host) }
        ensures writes { OnOk result (WritesOnly (Spot.register (n_register r) ∷ []) self.old.host.heaps.heap self.new.host.heaps.heap) }
        ensures there { IfOk result (λ x. IsThere self.new.host x) }
        ensures taken { IfOk result (λ x. stop_at self.new.host x ≡ None) }
        ensures name { IfOk result (λ x. x.name ≡ native (self.old.host.heaps.heap.natives_made + 1)) }
        ensures slots { IfOk result (λ x. length (slots_of self.new.host x) ≡ slots) }
        ensures held { IfOk result (λ x. register self.new.host.heaps.heap (n_register r) ≡ Some x.name) }
        ensures same { OnErr result (IsAsItWas self.old self.new) }
        ensures tells { TellsFreed self.old.host self.new.host (told_all self.old.told) (told_all self.new.told) }
        ensures aside { Aside self.old self.new }
        // no other object comes
        ensures came { IfOk result (λ x. Comes x.name self.old.host self.new.host) }
        ensures lasts { Lasts None self.old.host self.new.host }
        ensures stays { StaysUsable self.old.host self.new.host }
    {
        if r >= NUMBERED_ROOTS || slots > MOST_SLOTS {
            return Err(Stop::Index);
        }
        let room = with_one_more(self.most_told())?;
        self.told.reserve(room)?;
        let made = self.runtime.new_native(r, slots, &mut self.told);
        self.told.keeps();
        self.runtime.keeps();
        made
    }

    /// Makes a plain script object with `slots` empty slots (0 to 256), which numbered script root `r` holds from then on. No object
    /// leaves, whether the root held one or not.
    pub fn new_plain(&mut self, r: RegNo, slots: SlotNo) -> Result<Object, Stop>
        ensures stops { IsStoppedOrWants (stop_making r slots (are_scripts_made self.old.host)) result }
        // an index that is too great is told before memory is wanted, and then nothing changes
        ensures index { (s : Stop) → first (stop_root r) (where_so (nat_lt most_slots slots) Stop.Index) ≡ Some s → result ≡ Err s }
        ensures untouched { result ≡ Err Stop.Index → self.new ≡ self.old }
        ensures does { OnOk result (Does Always (λ g. graph.step g (command.Script r slots)) self.old.host self.new.host) }
        ensures writes { OnOk result (WritesOnly (Spot.register (s_register r) ∷ []) self.old.host.heaps.heap self.new.host.heaps.heap) }
        ensures there { IfOk result (λ x. IsThere self.new.host x) }
        ensures name { IfOk result (λ x. x.name ≡ object (self.old.host.heaps.heap.scripts_made + 1)) }
        ensures kind { IfOk result (λ x. kind_at self.new.host.heaps.scripts x.key ≡ Some kind_is.Plain) }
        ensures slots { IfOk result (λ x. length (slots_of self.new.host x) ≡ slots) }
        ensures held { IfOk result (λ x. register self.new.host.heaps.heap (s_register r) ≡ Some x.name) }
        ensures same { OnErr result (IsAsItWas self.old self.new) }
        ensures quiet { Quiet self.old self.new }
        // no other object comes
        ensures came { IfOk result (λ x. Comes x.name self.old.host self.new.host) }
        ensures lasts { Lasts None self.old.host self.new.host }
        ensures stays { StaysUsable self.old.host self.new.host }
    {
        if r >= NUMBERED_ROOTS || slots > MOST_SLOTS {
            return Err(Stop::Index);
        }
        let room = with_one_more(self.most_told())?;
        self.told.reserve(room)?;
        let made = self.runtime.new_plain(r, slots);
        self.runtime.keeps();
        made
    }

    /// Makes a weak map without entries, which numbered script root `r` holds from then on. No object
    /// leaves, whether the root held one or not.
    pub fn new_map(&mut self, r: RegNo) -> Result<Object, Stop>
        ensures stops { IsStoppedOrWants (stop_making r 0 (are_scripts_made self.old.host)) result }
        // an index that is too great is told before memory is wanted, and then nothing changes
        ensures index { (s : Stop) → stop_root r ≡ Some s → result ≡ Err s }
        ensures untouched { result ≡ Err Stop.Index → self.new ≡ self.old }
        ensures does { OnOk result (Does Always (λ g. graph.step g (command.WeakMap r)) self.old.host self.new.host) }
        ensures writes { OnOk result (WritesOnly (Spot.register (s_register r) ∷ []) self.old.host.heaps.heap self.new.host.heaps.heap) }
        ensures there { IfOk result (λ x. IsThere self.new.host x) }
        ensures name { IfOk result (λ x. x.name ≡ object (self.old.host.heaps.heap.scripts_made + 1)) }
        ensures kind { IfOk result (λ x. kind_at self.new.host.heaps.scripts x.key ≡ Some kind_is.Map) }
        ensures held { IfOk result (λ x. register self.new.host.heaps.heap (s_register r) ≡ Some x.name) }
        ensures same { OnErr result (IsAsItWas self.old self.new) }
        ensures quiet { Quiet self.old self.new }
        // no other object comes
        ensures came { IfOk result (λ x. Comes x.name self.old.host self.new.host) }
        ensures lasts { Lasts None self.old.host self.new.host }
        ensures stays { StaysUsable self.old.host self.new.host }
    {
        if r >= NUMBERED_ROOTS {
            return Err(Stop::Index);
        }
        let room = with_one_more(self.most_told())?;
        self.told.reserve(room)?;
        let made = self.runtime.new_map(r);
        self.runtime.keeps();
        made
    }

    /// Makes a proxy of a script object, its delegate for good, which numbered script root `r` holds from then on. A delegate
    /// that is a reflector is preserved.
    ///
    /// `Full` and `NoMemory` leave the graph as it is (`tried`): the delegate may have been exposed to script. Each other
    /// refusal is told before memory is wanted (`index`), and changes nothing at all (`untouched`). No object leaves in any case.
    #[tactic(auto, using(crate::proofs::KeptDoomed::still_doomed))]
    pub fn new_proxy(&mut self, r: RegNo, delegate: Object) -> Result<Object, Stop>
        ensures stops { IsStoppedOrWants (stop_proxy self.old.host delegate r) result }
        // what is wrong with the delegate or the index is told before memory is wanted, and then nothing changes
        ensures index { (s : Stop) → first (stop_script self.old.host delegate) (stop_root r) ≡ Some s → result ≡ Err s }
        ensures untouched { (s : Stop) → result ≡ Err s → s ≢ Stop.Full → s ≢ Stop.NoMemory → self.new ≡ self.old }
        ensures does { OnOk result (Does (IsReachedOrReflects self.old.host.heaps.heap (Some delegate.name))
            (λ g. graph.with_proxy g r (Some delegate.name)) self.old.host self.new.host) }
        ensures writes { IfOk result (λ x. WritesOnly (Spot.register (s_register r) ∷ Spot.delegate x.name ∷ Spot.preserved delegate.name ∷ [])
            self.old.host.heaps.heap self.new.host.heaps.heap) }
        ensures written { IfOk result (λ x. IsWritten (Spot.delegate x.name) (Some delegate.name) self.new.host.heaps.heap) }
        ensures preserves { OnOk result (IsWritten (Spot.preserved delegate.name) (if_reflector delegate.name) self.new.host.heaps.heap) }
        ensures there { IfOk result (λ x. IsThere self.new.host x) }
        ensures name { IfOk result (λ x. x.name ≡ object (self.old.host.heaps.heap.scripts_made + 1)) }
        ensures kind { IfOk result (λ x. kind_at self.new.host.heaps.scripts x.key ≡ Some kind_is.Proxy) }
        ensures held { IfOk result (λ x. register self.new.host.heaps.heap (s_register r) ≡ Some x.name) }
        // each other cause changes nothing
        ensures same { (s : Stop) → result ≡ Err s → s ≢ Stop.Full → s ≢ Stop.NoMemory → IsAsItWas self.old self.new }
        ensures tried { OnErr result (Tries (IsReachedOrReflects self.old.host.heaps.heap (Some delegate.name)) self.old.host self.new.host) }
        ensures unwritten { OnErr result (WritesOnly [] self.old.host.heaps.heap self.new.host.heaps.heap) }
        ensures quiet { Quiet self.old self.new }
        // no other object comes
        ensures came { IfOk result (λ x. Comes x.name self.old.host self.new.host) }
        ensures none_came { OnErr result (NoneComes self.old.host self.new.host) }
        ensures lasts { Lasts None self.old.host self.new.host }
        ensures stays { StaysUsable self.old.host self.new.host }
    {
        self.runtime.kind(delegate)?;
        if r >= NUMBERED_ROOTS {
            return Err(Stop::Index);
        }
        let room = with_one_more(self.most_told())?;
        self.told.reserve(room)?;
        let made = self.runtime.new_proxy(r, delegate);
        self.runtime.keeps();
        made
    }
}
