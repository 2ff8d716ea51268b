//! What a host calls: both heaps, and the collector that runs in them. What goes is told to any receiver.
ghost use Rattle.std.specs.Prelude.{◌≡◌, false, Option, Some, None, IfOk, IsSome, IsTrue, is_none};
ghost use Rattle.cc_model.specs.Heap.{empty_heap};
ghost use Rattle.cc_script.specs.Objects.{is_there, kind_at};
ghost use Rattle.cc_names.specs.declared.kind.Kind.TheVariants.{Map};
ghost use Rattle.cc_names.specs.declared.number.SKey.{SKey as TheKey};
ghost use Rattle.cc_heaps.specs.Keyed.{number_at};
ghost use Rattle.cc_heaps.specs.Changes.{IsNativeThere, IsScriptThere, IsThere as IsHeldThere, held_name, native_name, script_name};
ghost use Rattle.cc_heaps.specs.Standing.{MayBeHeld};
ghost use Rattle.cc_host.specs.declared.object.Object.{Object as TheObject};
ghost use Rattle.cc_host.specs.Hosted.{Hosted, IsKept, IsThereIfAny, is_found, is_usable_at, named};
ghost use Rattle.cc_host.specs.Stops.{IsStoppedBy, is_nothing, stop_at, stop_content, stop_if_any, stop_map, stop_native, stop_reflector, stop_script};

mod collecting;
mod entries;
mod making;
mod reading;
mod referring;
mod rooted;
mod walking;
mod writing;

use crate::object::Object;
use crate::stop::Stop;
use cc_collector::Collector;
use cc_counted::Held;
use cc_heaps::Heaps;
use cc_names::{Kind, Limits, NKey, Name, NativeNo, NoMemory, RegNo, SKey};
pub use rooted::{FIRST_PLACE, PLACES};
use std::alloc::Global;
use std::marker::Model;

/// How many native roots have a number, and how many script roots. They are counted from 0.
pub const NUMBERED_ROOTS: RegNo = 1023;

/// Both heaps, and the collector that runs in them.
#[derive(Drop)]
pub(crate) struct Runtime {
    heaps: Heaps,
    collector: Collector,
    mark: u64,
}

impl Model for Runtime {
    ghost use Rattle.cc_host.specs.Hosted.{Hosted, IsKept};

    ghost Value = { Hosted };

    ghost view = { λ h. record { heaps = h.heaps; running = h.collector.running; marking = h.collector.marking; mark = h.mark } };

    ghost invariant = { λ h. IsKept (record { heaps = h.heaps; running = h.collector.running; marking = h.collector.marking; mark = h.mark }) };
}

// Whether what is handed in is no object: its name has the number 0.
fn is_nothing(x: Object) -> bool
    ensures { result ≡ is_nothing x }
{
    match x.name {
        Name::Native(number) => number.0 == 0,
        Name::Script(number) => number.0 == 0,
        Name::Reflector(number) => number.0 == 0,
    }
}

impl Runtime {
    /// A host without objects, whose roots hold nothing; as many natives, and as many script objects, may ever be made as the
    /// limits say. Its objects have this mark. An object of a host with another mark is `Foreign`, so hosts of one program
    /// need different ones. What is no object at all, with the number 0 in its name, is `Kind`, whatever its mark.
    pub fn new(alloc: Global, limits: Limits, mark: u64) -> Result<Runtime, NoMemory>
        ensures heap { IfOk result (λ h. h.heaps.heap ≡ empty_heap limits) }
        ensures idle { IfOk result (λ h. h.running ≡ None) }
        ensures unmarked { IfOk result (λ h. h.marking ≡ false) }
        ensures mark { IfOk result (λ h. h.mark ≡ mark) }
    {
        let heaps = Heaps::new(alloc, limits)?;
        Ok(Runtime {
            heaps,
            collector: Collector::new(alloc),
            mark,
        })
    }

    /// The mark of this host's objects.
    pub fn object_mark(&self) -> u64
        ensures { result ≡ self.now.mark }
    {
        self.mark
    }

    /// What a host keeps between its calls, for the proofs of who calls. It does nothing.
    pub fn keeps(&self)
        ensures { IsKept self.now }
    {
        let _ = &self.heaps;
    }

    /// Whether an object is there, and of this host: it was not freed, and is no native that was unlinked. What has no name (its number
    /// is 0) is not there.
    pub fn is_there(&self, x: Object) -> bool
        ensures { result ≡ is_none (stop_at self.now x) }
    {
        self.look(x).is_ok()
    }

    // Whether the native of this number stands at this key, and was not unlinked.
    fn found_native(&self, key: NKey, number: NativeNo) -> bool
        ensures { result ≡ is_usable_at self.now.heaps key.0 number }
    {
        match self.heaps.counted().number(key) {
            Some(there) => there == number && !self.heaps.counted().unlinked(key),
            None => false,
        }
    }

    // Whether at an object's key stands what it names, and it is no native that was unlinked.
    fn found(&self, x: Object) -> bool
        ensures { result ≡ is_found self.now x }
    {
        match x.name {
            Name::Native(number) => self.found_native(NKey(x.key), number),
            Name::Script(_) | Name::Reflector(_) => {
                self.heaps.scripts().called(SKey(x.key)) == Some(x.name)
            }
        }
    }

    // An object of this host, which is there and was not unlinked.
    fn look(&self, x: Object) -> Result<(), Stop>
        ensures { IsStoppedBy (stop_at self.now x) result }
    {
        if is_nothing(x) {
            return Err(Stop::Kind);
        }
        if x.mark != self.mark {
            return Err(Stop::Foreign);
        }
        if !self.found(x) {
            return Err(Stop::Gone);
        }
        Ok(())
    }

    // Where a native stands.
    fn native(&self, x: Object) -> Result<NKey, Stop>
        ensures stops { IsStoppedBy (stop_native self.now x) result }
        ensures name { IfOk result (λ key. native_name self.now.heaps (Some key) ≡ Some x.name) }
        ensures live { IfOk result (λ key. IsSome (number_at self.now.heaps key.0)) }
        ensures usable { IfOk result (λ key. MayBeHeld self.now.heaps.heap (native_name self.now.heaps (Some key))) }
    {
        let _ = &self.heaps;
        self.look(x)?;
        match x.name {
            Name::Native(_) => Ok(NKey(x.key)),
            Name::Script(_) | Name::Reflector(_) => Err(Stop::Kind),
        }
    }

    // Where a script object stands.
    fn script(&self, x: Object) -> Result<SKey, Stop>
        ensures stops { IsStoppedBy (stop_script self.now x) result }
        ensures key { IfOk result (λ key. key.0 ≡ x.key) }
        ensures name { IfOk result (λ key. script_name self.now.heaps (Some key) ≡ Some x.name) }
        ensures live { IfOk result (λ key. IsTrue (is_there self.now.heaps.scripts key.0)) }
    {
        self.look(x)?;
        match x.name {
            Name::Native(_) => Err(Stop::Kind),
            Name::Script(_) | Name::Reflector(_) => Ok(SKey(x.key)),
        }
    }

    // Where a reflector stands.
    fn reflector(&self, x: Object) -> Result<SKey, Stop>
        ensures stops { IsStoppedBy (stop_reflector self.now x) result }
        ensures name { IfOk result (λ key. script_name self.now.heaps (Some key) ≡ Some x.name) }
        ensures live { IfOk result (λ key. IsTrue (is_there self.now.heaps.scripts key.0)) }
    {
        self.look(x)?;
        match x.name {
            Name::Native(_) | Name::Script(_) => Err(Stop::Kind),
            Name::Reflector(_) => Ok(SKey(x.key)),
        }
    }

    // Where a weak map stands.
    fn map(&self, x: Object) -> Result<SKey, Stop>
        ensures stops { IsStoppedBy (stop_map self.now x) result }
        ensures name { IfOk result (λ key. script_name self.now.heaps (Some key) ≡ Some x.name) }
        ensures live { IfOk result (λ key. IsTrue (is_there self.now.heaps.scripts key.0)) }
        ensures kind { IfOk result (λ key. kind_at self.now.heaps.scripts key.0 ≡ Some Map) }
    {
        let key = self.script(x)?;
        match self.heaps.scripts().kind(key) {
            Kind::Map => Ok(key),
            Kind::Plain | Kind::Reflector | Kind::Proxy => Err(Stop::Kind),
        }
    }

    // Where a native stands, or nothing.
    fn native_if_any(&self, x: Option<Object>) -> Result<Option<NKey>, Stop>
        ensures stops { IsStoppedBy (stop_if_any stop_native self.now x) result }
        ensures name { IfOk result (λ key. native_name self.now.heaps key ≡ named x) }
        ensures there { IfOk result (λ key. IsNativeThere self.now.heaps key) }
        ensures usable { IfOk result (λ key. MayBeHeld self.now.heaps.heap (native_name self.now.heaps key)) }
    {
        match x {
            Some(x) => Ok(Some(self.native(x)?)),
            None => Ok(None),
        }
    }

    // Where a script object stands, or nothing.
    fn script_if_any(&self, x: Option<Object>) -> Result<Option<SKey>, Stop>
        ensures stops { IsStoppedBy (stop_if_any stop_script self.now x) result }
        ensures name { IfOk result (λ key. script_name self.now.heaps key ≡ named x) }
        ensures there { IfOk result (λ key. IsScriptThere self.now.heaps key) }
    {
        match x {
            Some(x) => Ok(Some(self.script(x)?)),
            None => Ok(None),
        }
    }

    // Where any object stands, or nothing, as a slot of a native holds it.
    fn held_if_any(&self, x: Option<Object>) -> Result<Option<Held>, Stop>
        ensures stops { IsStoppedBy (stop_if_any stop_at self.now x) result }
        ensures name { IfOk result (λ held. held_name self.now.heaps held ≡ named x) }
        ensures there { IfOk result (λ held. IsHeldThere self.now.heaps held) }
    {
        let Some(object) = x else {
            return Ok(None);
        };
        self.look(object)?;
        match object.name {
            Name::Native(_) => Ok(Some(Held::Native(NKey(object.key)))),
            Name::Script(_) | Name::Reflector(_) => Ok(Some(Held::Script(SKey(object.key)))),
        }
    }

    // The native at a key, as a program keeps it.
    fn of_native(&self, key: Option<NKey>) -> Option<Object>
        requires { IsNativeThere self.now.heaps key }
        ensures name { named result ≡ native_name self.now.heaps key }
        ensures there { IsThereIfAny self.now result }
    {
        let key = key?;
        match self.heaps.counted().number(key) {
            Some(number) => Some(Object {
                name: Name::Native(number),
                key: key.0,
                mark: self.mark,
            }),
            None => unreachable!(),
        }
    }

    // The script object at a key.
    fn of_script(&self, key: Option<SKey>) -> Option<Object>
        requires { IsScriptThere self.now.heaps key }
        ensures name { named result ≡ script_name self.now.heaps key }
        ensures key { (k : TheKey) (x : TheObject) → key ≡ Some k → result ≡ Some x → x.key ≡ k.0 }
        ensures there { IsThereIfAny self.now result }
    {
        let key = key?;
        Some(Object {
            name: self.heaps.scripts().name(key),
            key: key.0,
            mark: self.mark,
        })
    }

    // What a slot of a native holds.
    fn of_held(&self, held: Option<Held>) -> Option<Object>
        requires { IsHeldThere self.now.heaps held }
        ensures name { named result ≡ held_name self.now.heaps held }
        ensures there { IsThereIfAny self.now result }
    {
        match held {
            Some(Held::Native(key)) => self.of_native(Some(key)),
            Some(Held::Script(key)) => self.of_script(Some(key)),
            None => None,
        }
    }
}
