//! What roots, slots and entries hold, and why an object is there.
ghost use Rattle.std.specs.Prelude.{◌≡◌, ◌≢◌, ◌↔◌, ◌<◌, ◌≤◌, [], length, map, Some, None, Ok, true, false, is_some, IfOk, OnErr, OnOk, IsTrue, IsSome, slice_index_or, option_map};
ghost use Rattle.cc_names.specs.declared.kind.Kind.TheVariants.{Proxy};
ghost use Rattle.cc_names.specs.declared.register.Reg.TheVariants.{N as n_register, S as s_register};
ghost use Rattle.cc_model.specs.Answers.{item_of_step};
ghost use Rattle.cc_model.specs.Checks.{native_of, value_at};
ghost use Rattle.cc_model.specs.Derivations.{is_led_to, leads_in, path_to};
ghost use Rattle.cc_model.specs.Heap.{delegate_at, objects_of, register};
ghost use Rattle.cc_model.specs.Telling.{Tells};
ghost use Rattle.cc_script.specs.Objects.{kind_at};
ghost use Rattle.cc_host.specs.Hosted.{IsRooted, IsThereIfAny, named, roots, slots_of};
ghost use Rattle.cc_host.specs.Reading.{preserved_in, reflector_in};
ghost use Rattle.cc_host.specs.Stops.{IsStoppedBy, IsStoppedOrRefused, stop_at, stop_entry, stop_native, stop_reading, stop_reflector, stop_script};
ghost use Rattle.cc_host.specs.Ways.{IsWay};

use crate::object::Object;
use crate::runtime::{NUMBERED_ROOTS, Runtime};
use crate::stop::Stop;
use cc_model::Notices;
use cc_names::{Kind, Name, RegNo, SlotNo};
use cc_paths::why;
use cc_wrappers::unwrap_of;
use std::alloc::Global;

impl Runtime {
    /// What a native root holds, by its number, 0 to 1022; none where it holds nothing, and where there is no such root.
    pub fn native_root(&self, r: RegNo) -> Option<Object>
        ensures name { r < roots → named result ≡ register self.now.heaps.heap (n_register r) }
        ensures none { roots ≤ r → result ≡ None }
        ensures there { IsThereIfAny self.now result }
    {
        if r >= NUMBERED_ROOTS {
            return None;
        }
        self.of_native(self.heaps.native_reg(r))
    }

    /// What a script root holds, by its number, 0 to 1022; none where it holds nothing, and where there is no such root.
    pub fn script_root(&self, r: RegNo) -> Option<Object>
        ensures name { r < roots → named result ≡ register self.now.heaps.heap (s_register r) }
        ensures none { roots ≤ r → result ≡ None }
        ensures there { IsThereIfAny self.now result }
    {
        if r >= NUMBERED_ROOTS {
            return None;
        }
        self.of_script(self.heaps.script_reg(r))
    }

    /// What kind of script object an object is.
    pub fn kind(&self, x: Object) -> Result<Kind, Stop>
        ensures stops { IsStoppedBy (stop_script self.now x) result }
        ensures kind { IfOk result (λ kind. kind_at self.now.heaps.scripts x.key ≡ Some kind) }
    {
        let key = self.script(x)?;
        Ok(self.heaps.scripts().kind(key))
    }

    // How many slots an object has, that is there.
    fn count_slots(&self, x: Object) -> SlotNo
        requires { stop_at self.now x ≡ None }
        ensures { result ≡ length (slots_of self.now x) }
    {
        match x.name {
            Name::Native(_) => match self.native(x) {
                Ok(key) => self.heaps.counted().slots(key),
                Err(_) => unreachable!(),
            },
            Name::Script(_) | Name::Reflector(_) => match self.script(x) {
                Ok(key) => self.heaps.scripts().slots(key),
                Err(_) => unreachable!(),
            },
        }
    }

    /// How many slots an object has: 0 to 256. A weak map and a proxy have none.
    pub fn slots(&self, x: Object) -> Result<SlotNo, Stop>
        ensures stops { IsStoppedBy (stop_at self.now x) result }
        ensures count { IfOk result (λ count. count ≡ length (slots_of self.now x)) }
    {
        self.look(x)?;
        Ok(self.count_slots(x))
    }

    /// What slot `i` of an object holds, counted from 0.
    pub fn slot(&self, x: Object, i: SlotNo) -> Result<Option<Object>, Stop>
        ensures stops { IsStoppedBy (stop_reading self.now x i) result }
        ensures name { IfOk result (λ held. named held ≡ slice_index_or (slots_of self.now x) i None) }
        ensures there { IfOk result (λ held. IsThereIfAny self.now held) }
    {
        self.look(x)?;
        if i >= self.count_slots(x) {
            return Err(Stop::Index);
        }
        match x.name {
            Name::Native(_) => {
                let key = self.native(x)?;
                Ok(self.of_held(self.heaps.counted().slot(key, i)))
            }
            Name::Script(_) | Name::Reflector(_) => {
                let key = self.script(x)?;
                Ok(self.of_script(self.heaps.scripts().slot(key, i)))
            }
        }
    }

    /// The native that a reflector stands for; none of any other script object.
    pub fn unwrap(&self, x: Object) -> Result<Option<Object>, Stop>
        ensures stops { IsStoppedBy (stop_script self.now x) result }
        ensures name { IfOk result (λ native. named native ≡ native_of (Some x.name)) }
        ensures there { IfOk result (λ native. IsThereIfAny self.now native) }
    {
        let key = self.script(x)?;
        Ok(self.of_native(unwrap_of(&self.heaps, key)))
    }

    /// The reflector of a native, where there is one; none else. Nothing is made, and nothing exposed: it may be freed as long as
    /// nothing holds it. To keep it, take it by `wrap`.
    pub fn reflector_of(&self, x: Object) -> Result<Option<Object>, Stop>
        ensures stops { IsStoppedBy (stop_native self.now x) result }
        ensures name { IfOk result (λ reflector. named reflector ≡ reflector_in self.now.heaps.heap x.name) }
        ensures there { IfOk result (λ reflector. IsThereIfAny self.now reflector) }
    {
        let key = self.native(x)?;
        Ok(self.of_script(self.heaps.counted().reflector(key)))
    }

    /// Whether a reflector is preserved: whether its native holds it.
    pub fn is_preserved(&self, x: Object) -> Result<bool, Stop>
        ensures stops { IsStoppedBy (stop_reflector self.now x) result }
        ensures preserved { IfOk result (λ preserved. preserved_in self.now.heaps.heap x.name ≡ Some preserved) }
    {
        let key = self.reflector(x)?;
        match unwrap_of(&self.heaps, key) {
            Some(native) => Ok(self.heaps.counted().preserved(native)),
            None => unreachable!(),
        }
    }

    /// The delegate of a proxy; none of any other script object.
    pub fn delegate(&self, x: Object) -> Result<Option<Object>, Stop>
        ensures stops { IsStoppedBy (stop_script self.now x) result }
        ensures name { IfOk result (λ delegate. named delegate ≡ delegate_at self.now.heaps.heap x.name) }
        ensures exactly { IfOk result (λ delegate. IsSome delegate ↔ (kind_at self.now.heaps.scripts x.key ≡ Some Proxy)) }
        ensures there { IfOk result (λ delegate. IsThereIfAny self.now delegate) }
    {
        let key = self.script(x)?;
        Ok(self.of_script(self.heaps.scripts().delegate(key)))
    }

    /// The value that a key has in a weak map; none where it has none.
    pub fn entry(&self, the_map: Object, key: Object) -> Result<Option<Object>, Stop>
        ensures stops { IsStoppedBy (stop_entry self.now the_map key) result }
        ensures value { IfOk result (λ value. named value ≡ value_at (objects_of self.now.heaps.heap) (Some the_map.name) (Some key.name)) }
        ensures there { IfOk result (λ value. IsThereIfAny self.now value) }
    {
        let the_map = self.map(the_map)?;
        let key = self.script(key)?;
        Ok(self.of_script(self.heaps.weak().get(the_map, key)))
    }

    /// How many natives there are. It takes the same time however many.
    pub fn natives(&self) -> usize
        ensures { result ≡ length self.now.heaps.heap.natives }
    {
        self.heaps.counted().len()
    }

    /// How many script objects there are. It takes the same time however many.
    pub fn scripts(&self) -> usize
        ensures { result ≡ length self.now.heaps.heap.scripts }
    {
        self.heaps.scripts().len()
    }

    /// Whether any native is a suspect, or was touched: whether a collection has natives to look at.
    pub fn has_suspects(&self) -> bool
        ensures some { IsTrue result → self.now.heaps.heap.buffer ≢ [] }
        ensures none { result ≡ false → self.now.heaps.heap.buffer ≡ [] }
    {
        self.heaps.counted().first_in_buffer().is_some()
    }

    /// Why an object is there: `true` exactly where a root reaches it, and then the steps are told by which roots lead to it, each
    /// object once and itself last. `false`, and nothing told, where nothing leads to it: then a collection is still to take it.
    ///
    /// It changes nothing, and may be called between any two slices. `NoMemory` comes before the first step is told.
    pub fn why<N: Notices>(&self, alloc: Global, x: Object, out: &mut N) -> Result<bool, Stop>
        ensures stops { IsStoppedOrRefused (stop_at self.now x) result }
        ensures led { IfOk result (λ b. b ≡ is_led_to (leads_in self.now.heaps.heap) x.name) }
        ensures reached { IfOk result (λ b. IsTrue b ↔ IsRooted self.now x) }
        ensures told { OnOk result (Tells (N.telling out.old) (N.telling out.new) (map item_of_step (path_to (leads_in self.now.heaps.heap) x.name))) }
        ensures way { result ≡ Ok true → IsWay self.now.heaps.heap x.name (path_to (leads_in self.now.heaps.heap) x.name) }
        ensures no_steps { result ≡ Ok false → path_to (leads_in self.now.heaps.heap) x.name ≡ [] }
        ensures err { OnErr result (N.telling out.new ≡ N.telling out.old) }
    {
        self.look(x)?;
        Ok(why(alloc, &self.heaps, &x.name, out)?)
    }
}
