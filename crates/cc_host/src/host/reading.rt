//! What roots, slots and entries hold, and why an object is there.
ghost use Rattle.std.specs.Prelude.{◌≡◌, ◌≢◌, ◌↔◌, ◌<◌, ◌≤◌, List, [], length, map, Some, None, Ok, true, false, is_some, IfOk, OnErr, OnOk, IsTrue, IsSome, slice_index_or};
ghost use Rattle.cc_names.specs.declared.kind.Kind.TheVariants.{Proxy};
ghost use Rattle.cc_names.specs.declared.register.Reg.TheVariants.{N as n_register, S as s_register};
ghost use Rattle.cc_model.specs.Answers.{Step, item_of_step};
ghost use Rattle.cc_model.specs.Checks.{native_of, value_at};
ghost use Rattle.cc_model.specs.Derivations.{is_led_to, leads_in, path_to};
ghost use Rattle.cc_model.specs.Heap.{delegate_at, objects_of, register};
ghost use Rattle.cc_script.specs.Objects.{kind_at};
ghost use Rattle.cc_host.specs.Hosted.{IsRooted, IsThereIfAny, named, roots, slots_of};
ghost use Rattle.cc_host.specs.Reading.{preserved_in, reflector_in};
ghost use Rattle.cc_host.specs.Stops.{IsStoppedBy, IsStoppedOrRefused, stop_at, stop_entry, stop_native, stop_reading, stop_reflector, stop_script};
ghost use Rattle.cc_host.specs.Ways.{IsWay};

use crate::host::Host;
use crate::object::Object;
use crate::queue::Queue;
use crate::stop::Stop;
use cc_names::{Kind, RegNo, SlotNo};

impl Host {
    /// What a numbered native root holds; none where it holds nothing, and where there is no such root.
    pub fn native_root(&self, r: RegNo) -> Option<Object>
        ensures name { r < roots → named result ≡ register self.now.host.heaps.heap (n_register r) }
        ensures none { roots ≤ r → result ≡ None }
        ensures there { IsThereIfAny self.now.host result }
    {
        self.runtime.native_root(r)
    }

    /// What a numbered script root holds; none where it holds nothing, and where there is no such root.
    pub fn script_root(&self, r: RegNo) -> Option<Object>
        ensures name { r < roots → named result ≡ register self.now.host.heaps.heap (s_register r) }
        ensures none { roots ≤ r → result ≡ None }
        ensures there { IsThereIfAny self.now.host result }
    {
        self.runtime.script_root(r)
    }

    /// What kind of script object an object is.
    pub fn kind(&self, x: Object) -> Result<Kind, Stop>
        ensures stops { IsStoppedBy (stop_script self.now.host x) result }
        ensures kind { IfOk result (λ kind. kind_at self.now.host.heaps.scripts x.key ≡ Some kind) }
    {
        self.runtime.kind(x)
    }

    /// How many slots an object has: 0 to 256. A weak map and a proxy have none.
    pub fn slots(&self, x: Object) -> Result<SlotNo, Stop>
        ensures stops { IsStoppedBy (stop_at self.now.host x) result }
        ensures count { IfOk result (λ count. count ≡ length (slots_of self.now.host x)) }
    {
        self.runtime.slots(x)
    }

    /// What slot `i` of an object holds, counted from 0.
    pub fn slot(&self, x: Object, i: SlotNo) -> Result<Option<Object>, Stop>
        ensures stops { IsStoppedBy (stop_reading self.now.host x i) result }
        ensures name { IfOk result (λ held. named held ≡ slice_index_or (slots_of self.now.host x) i None) }
        ensures there { IfOk result (λ held. IsThereIfAny self.now.host held) }
    {
        self.runtime.slot(x, i)
    }

    /// The native that a reflector stands for; none of any other script object.
    pub fn unwrap(&self, x: Object) -> Result<Option<Object>, Stop>
        ensures stops { IsStoppedBy (stop_script self.now.host x) result }
        ensures name { IfOk result (λ native. named native ≡ native_of (Some x.name)) }
        ensures there { IfOk result (λ native. IsThereIfAny self.now.host native) }
    {
        self.runtime.unwrap(x)
    }

    /// The reflector of a native, where there is one; none else. Nothing is made, and nothing exposed: it may be freed as long as
    /// nothing holds it. To keep it, take it by `wrap`.
    pub fn reflector_of(&self, x: Object) -> Result<Option<Object>, Stop>
        ensures stops { IsStoppedBy (stop_native self.now.host x) result }
        ensures name { IfOk result (λ reflector. named reflector ≡ reflector_in self.now.host.heaps.heap x.name) }
        ensures there { IfOk result (λ reflector. IsThereIfAny self.now.host reflector) }
    {
        self.runtime.reflector_of(x)
    }

    /// Whether a reflector is preserved: whether its native holds it.
    pub fn is_preserved(&self, x: Object) -> Result<bool, Stop>
        ensures stops { IsStoppedBy (stop_reflector self.now.host x) result }
        ensures preserved { IfOk result (λ preserved. preserved_in self.now.host.heaps.heap x.name ≡ Some preserved) }
    {
        self.runtime.is_preserved(x)
    }

    /// The delegate of a proxy; none of any other script object.
    pub fn delegate(&self, x: Object) -> Result<Option<Object>, Stop>
        ensures stops { IsStoppedBy (stop_script self.now.host x) result }
        ensures name { IfOk result (λ delegate. named delegate ≡ delegate_at self.now.host.heaps.heap x.name) }
        ensures exactly { IfOk result (λ delegate. IsSome delegate ↔ (kind_at self.now.host.heaps.scripts x.key ≡ Some Proxy)) }
        ensures there { IfOk result (λ delegate. IsThereIfAny self.now.host delegate) }
    {
        self.runtime.delegate(x)
    }

    /// The value that a key has in a weak map; none where it has none.
    pub fn entry(&self, the_map: Object, key: Object) -> Result<Option<Object>, Stop>
        ensures stops { IsStoppedBy (stop_entry self.now.host the_map key) result }
        ensures value { IfOk result (λ value. named value ≡ value_at (objects_of self.now.host.heaps.heap) (Some the_map.name) (Some key.name)) }
        ensures there { IfOk result (λ value. IsThereIfAny self.now.host value) }
    {
        self.runtime.entry(the_map, key)
    }

    /// How many natives there are, those too that were unlinked and are not freed yet. It takes the same time however many.
    pub fn natives(&self) -> usize
        ensures { result ≡ length self.now.host.heaps.heap.natives }
    {
        self.runtime.natives()
    }

    /// How many script objects there are. It takes the same time however many.
    pub fn scripts(&self) -> usize
        ensures { result ≡ length self.now.host.heaps.heap.scripts }
    {
        self.runtime.scripts()
    }

    /// Whether any native is a suspect, or was touched: whether a collection has natives to look at.
    pub fn has_suspects(&self) -> bool
        ensures some { IsTrue result → self.now.host.heaps.heap.buffer ≢ [] }
        ensures none { result ≡ false → self.now.host.heaps.heap.buffer ≡ [] }
    {
        self.runtime.has_suspects()
    }

    /// Why an object is there: `true` exactly where a root reaches it. Then the steps by which roots lead to it are fetched by
    /// `next_step` from then on: each is an object that a root holds, or one that objects of steps before it lead to; each object
    /// has one step, and the last is its own (`IsWay`). Where nothing leads to it there is no step.
    ///
    /// Nothing else changes. Steps of an earlier answer that were not fetched are gone, also where this call is refused; then
    /// there are none. `NoMemory` also where there is none for a step.
    pub fn why(&mut self, x: Object) -> Result<bool, Stop>
        ensures stops { IsStoppedOrRefused (stop_at self.old.host x) result }
        ensures reached { IfOk result (λ b. IsTrue b ↔ IsRooted self.old.host x) }
        ensures way { result ≡ Ok true → (steps : List Step) × (self.new.steps ≡ map item_of_step steps) × IsWay self.old.host.heaps.heap x.name steps }
        ensures no_steps { result ≡ Ok false → self.new.steps ≡ [] }
        // which way it is, where there are several
        ensures led { IfOk result (λ b. b ≡ is_led_to (leads_in self.old.host.heaps.heap) x.name) }
        ensures steps { OnOk result (self.new.steps ≡ map item_of_step (path_to (leads_in self.old.host.heaps.heap) x.name)) }
        ensures none { OnErr result (self.new.steps ≡ []) }
        ensures rest { self.new ≡ record self.old { steps = self.new.steps } }
    {
        self.steps = Queue::new(self.alloc);
        let led = self.runtime.why(self.alloc, x, &mut self.steps)?;
        if self.steps.is_broken() {
            self.steps = Queue::new(self.alloc);
            return Err(Stop::NoMemory);
        }
        Ok(led)
    }
}
