//! What the checks of a command read of the heaps.
ghost use Rattle.std.specs.Prelude.{◌≡◌, ◌<◌, ℕ, List, length};
ghost use Rattle.cc_names.specs.declared.register.Reg.TheVariants.{N as n_register, S as s_register};
ghost use Rattle.cc_model.specs.Checks.{is_map_in, is_native_there, is_reflector_there, is_script_there, slot_at, slots_at};
ghost use Rattle.cc_model.specs.Heap.{objects_of, register};
ghost use Rattle.cc_heaps.specs.Keyed.{IsInOrder};
ghost use Rattle.cc_mutator.specs.Commands.{is_native_held, is_script_held};

use crate::reads::{is_empty, native_behind, native_content, slots};
use cc_counted::Held;
use cc_heaps::Heaps;
use cc_model::Reads;
use cc_names::{Kind, Reg, RegNo};

/// Whether a content is a native.
fn is_native(content: Option<Held>) -> bool
    ensures { result ≡ is_native_held content }
{
    match content {
        Some(Held::Native(_)) => true,
        Some(Held::Script(_)) => false,
        None => false,
    }
}

/// Whether a content is a script object.
fn is_script(content: Option<Held>) -> bool
    ensures { result ≡ is_script_held content }
{
    match content {
        Some(Held::Native(_)) => false,
        Some(Held::Script(_)) => true,
        None => false,
    }
}

/// Whether slot `i` of the native in a register holds a native.
fn holds_native(heaps: &Heaps, s: RegNo, i: u32) -> bool
    requires order { (owned : List ℕ) × IsInOrder owned heaps.now }
    requires slot { i < length (slots_at (objects_of heaps.now.heap) (n_register s)) }
    ensures { result ≡ is_native_there (slot_at (objects_of heaps.now.heap) (n_register s) i) }
{
    is_native(native_content(heaps, s, i))
}

/// Whether slot `i` of the native in a register holds a script object.
fn holds_script(heaps: &Heaps, s: RegNo, i: u32) -> bool
    requires order { (owned : List ℕ) × IsInOrder owned heaps.now }
    requires slot { i < length (slots_at (objects_of heaps.now.heap) (n_register s)) }
    ensures { result ≡ is_script_there (slot_at (objects_of heaps.now.heap) (n_register s) i) }
{
    is_script(native_content(heaps, s, i))
}

/// Whether a script register holds a weak map.
fn holds_map(heaps: &Heaps, r: RegNo) -> bool
    requires { (owned : List ℕ) × IsInOrder owned heaps.now }
    ensures { result ≡ is_map_in (objects_of heaps.now.heap) (register heaps.now.heap (s_register r)) }
{
    match heaps.script_reg(r) {
        Some(key) => heaps.scripts().kind(key) == Kind::Map,
        None => false,
    }
}

/// Whether a script register holds a reflector.
fn holds_reflector(heaps: &Heaps, r: RegNo) -> bool
    requires { (owned : List ℕ) × IsInOrder owned heaps.now }
    ensures { result ≡ is_reflector_there (register heaps.now.heap (s_register r)) }
{
    native_behind(heaps, r).is_some()
}

/// The heaps as the checks of a command read them.
#[derive(Drop)]
pub(crate) struct HeapReads<'a>(pub(crate) &'a Heaps);

impl<'a> Reads for HeapReads<'a> {
    ghost use Rattle.std.specs.Prelude.{ℕ, List};
    ghost use Rattle.cc_model.specs.Heap.{objects_of};
    ghost use Rattle.cc_heaps.specs.Keyed.{IsInOrder};

    ghost objects = { λ r. objects_of r.0.now.heap };

    ghost IsReadable = { λ r. (owned : List ℕ) × IsInOrder owned r.0.now };

    fn is_empty(&self, at: Reg) -> bool {
        is_empty(self.0, at)
    }

    fn is_map(&self, at: RegNo) -> bool {
        holds_map(self.0, at)
    }

    fn is_reflector(&self, at: RegNo) -> bool {
        holds_reflector(self.0, at)
    }

    fn slot_count(&self, at: Reg) -> usize {
        usize::from(slots(self.0, at))
    }

    fn holds_native(&self, at: RegNo, i: u32) -> bool {
        holds_native(self.0, at, i)
    }

    fn holds_script(&self, at: RegNo, i: u32) -> bool {
        holds_script(self.0, at, i)
    }

    fn has_all_natives(&self) -> bool {
        self.0.has_all_natives()
    }

    fn has_all_scripts(&self) -> bool {
        self.0.has_all_scripts()
    }
}
