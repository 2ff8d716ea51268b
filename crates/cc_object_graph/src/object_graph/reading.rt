//! What registers and slots hold.
ghost use Rattle.std.specs.Prelude.{◌≡◌, ◌+◌, ◌<◌, length, option_and_then, option_map, IsTrue, is_none};
ghost use Rattle.cc_names.specs.declared.register.Reg.TheVariants as reg;
ghost use Rattle.cc_names.specs.Names.{native, object};
ghost use Rattle.cc_model.specs.Checks.{slot_at, slots_at};
ghost use Rattle.cc_model.specs.Graph.{delegate_in, native_in, objects_of, register, slots_in, source};

use crate::object_graph::ObjectGraph;
use crate::rows::content;
use cc_names::{Name, NativeNo, Reg, RegNo, ScriptNo};

impl ObjectGraph {
    /// Whether a register holds nothing.
    pub(super) fn is_empty(&self, at: Reg) -> bool
        ensures { result ≡ is_none (register self.now at) }
    {
        self.register(at).is_none()
    }

    /// What a source gives to a slot.
    pub(super) fn source(&self, from: Option<Reg>) -> Option<Name>
        ensures { result ≡ source self.now from }
    {
        match from {
            Some(at) => self.register(at),
            None => None,
        }
    }

    /// The same of a source that is a script register.
    pub(super) fn script_source(&self, from: Option<RegNo>) -> Option<Name>
        ensures { result ≡ source self.now (option_map reg.S from) }
    {
        match from {
            Some(r) => self.register(Reg::S(r)),
            None => None,
        }
    }

    /// The slots of the reflector of a native, where it was ever wrapped.
    pub(super) fn reflector_slots(&self, k: NativeNo) -> Option<&[Option<Name>]>
        ensures { option_map (λ s. s.now) result ≡ option_and_then (λ n. n.reflector) (native_in self.now k.0) }
    {
        match self.natives.get(k) {
            Some(native) => native.reflector_slots(),
            None => None,
        }
    }

    /// The slots of an object. None of a weak map, and of what was never made.
    pub(super) fn slots(&self, name: Name) -> Option<&[Option<Name>]>
        ensures { option_map (λ s. s.now) result ≡ slots_in self.now name }
    {
        match name {
            Name::Native(k) => match self.natives.get(k) {
                Some(native) => Some(native.slots()),
                None => None,
            },
            Name::Script(k) => match self.scripts.get(k) {
                Some(object) => object.slots(),
                None => None,
            },
            Name::Reflector(k) => self.reflector_slots(k),
        }
    }

    /// The slots of what a register holds; no slots where there are none.
    pub(super) fn slots_at(&self, at: Reg) -> &[Option<Name>]
        ensures { result.now ≡ slots_at (objects_of self.now) at }
    {
        match self.register(at) {
            Some(name) => match self.slots(name) {
                Some(slots) => slots,
                None => &[],
            },
            None => &[],
        }
    }

    /// What slot `i` of what a register holds holds; none where there is no such slot.
    pub(super) fn slot_at(&self, at: Reg, i: u32) -> Option<Name>
        ensures { result ≡ slot_at (objects_of self.now) at i }
    {
        content(self.slots_at(at), i as usize)
    }

    /// The delegate of an object, where it is a proxy.
    pub(super) fn delegate(&self, name: Name) -> Option<Name>
        ensures { result ≡ delegate_in self.now name }
    {
        match name {
            Name::Native(_) => None,
            Name::Script(k) => match self.scripts.get(k) {
                Some(object) => object.delegate(),
                None => None,
            },
            Name::Reflector(_) => None,
        }
    }

    /// The name of the next native that is made.
    pub(super) fn next_native(&self) -> Name
        requires { length self.now.natives < 1000000 }
        ensures { result ≡ native (length self.now.natives + 1) }
    {
        Name::Native(NativeNo(self.natives.len() as u32 + 1))
    }

    /// The name of the next plain object, weak map or proxy that is made.
    pub(super) fn next_script(&self) -> Name
        requires { length self.now.scripts < 1000000 }
        ensures { result ≡ object (length self.now.scripts + 1) }
    {
        Name::Script(ScriptNo(self.scripts.len() as u32 + 1))
    }
}
