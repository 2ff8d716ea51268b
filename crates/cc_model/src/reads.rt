//! The trait of those whose registers and slots a command's checks read.

ghost use Rattle.std.specs.Prelude.{◌≡◌, ◌<◌, is_none, length, nat_le};
ghost use Rattle.cc_names.specs.declared.register.Reg.TheVariants as reg;
ghost use Rattle.cc_model.specs.Checks.{Objects, is_map_in, is_native_there, is_reflector_there, is_script_there, slot_at, slots_at};

use cc_names::{Reg, RegNo};

/// Registers, what they hold, and how much was made: what the checks of a command look at. A call names an object by the
/// register that holds it.
pub trait Reads {
    /// What the checks look at.
    ghost objects: { Self → Objects };

    /// What each call asks for.
    ghost IsReadable: { Self → Type 0 };

    /// Whether a register holds nothing.
    fn is_empty(&self, at: Reg) -> bool
        requires { IsReadable self.now }
        ensures { result ≡ is_none ((objects self.now).register at) };

    /// Whether a script register holds a weak map, which is what has no slots.
    fn is_map(&self, at: RegNo) -> bool
        requires { IsReadable self.now }
        ensures { result ≡ is_map_in (objects self.now) ((objects self.now).register (reg.S at)) };

    /// Whether a script register holds a reflector.
    fn is_reflector(&self, at: RegNo) -> bool
        requires { IsReadable self.now }
        ensures { result ≡ is_reflector_there ((objects self.now).register (reg.S at)) };

    /// How many slots what a register holds has; 0 of a weak map, and where the register is empty.
    fn slot_count(&self, at: Reg) -> usize
        requires { IsReadable self.now }
        ensures { result ≡ length (slots_at (objects self.now) at) };

    /// Whether slot `i` of the native in a register holds a native.
    fn holds_native(&self, at: RegNo, i: u32) -> bool
        requires readable { IsReadable self.now }
        requires slot { i < length (slots_at (objects self.now) (reg.N at)) }
        ensures { result ≡ is_native_there (slot_at (objects self.now) (reg.N at) i) };

    /// Whether slot `i` of the native in a register holds a script object.
    fn holds_script(&self, at: RegNo, i: u32) -> bool
        requires readable { IsReadable self.now }
        requires slot { i < length (slots_at (objects self.now) (reg.N at)) }
        ensures { result ≡ is_script_there (slot_at (objects self.now) (reg.N at) i) };

    /// Whether as many natives as the limit were ever made.
    fn has_all_natives(&self) -> bool
        requires { IsReadable self.now }
        ensures { result ≡ nat_le (objects self.now).limits.natives (objects self.now).natives_made };

    /// Whether as many plain objects, weak maps and proxies as the limit were ever made.
    fn has_all_scripts(&self) -> bool
        requires { IsReadable self.now }
        ensures { result ≡ nat_le (objects self.now).limits.scripts (objects self.now).scripts_made };
}
