//! Where a marking begins: what the script registers hold, and what natives hold in slots or as preserved reflectors.
ghost use Rattle.std.specs.Prelude.{◌≡◌, ◌≤◌, [], ◌∷◌, drop, length, Some, IsSome, IfSome, MatchOption};
ghost use Rattle.cc_counted.specs.Counts.{number_at, references_of};
ghost use Rattle.cc_counted.specs.Owning.{HasKeys};
ghost use Rattle.cc_heaps.specs.Roots.{keys_from, keys_held, keys_in, keys_in_registers, HaveFewSlots, IsPlace};

use cc_counted::{Counted, Held};
use cc_marking::Roots;
use cc_names::{NKey, SKey, SlotNo};
use std::marker::Model;

/// The script objects that script registers hold, from a register on. They are seen as their keys.
#[derive(Drop)]
pub(crate) struct RegisterRoots<'a> {
    registers: &'a [Option<SKey>],
    next: usize,
}

impl<'a> Model for RegisterRoots<'a> {
    ghost use Rattle.std.specs.Prelude.{List, ℕ, drop};
    ghost use Rattle.cc_heaps.specs.Roots.{keys_in_registers};

    ghost Value = { List ℕ };

    ghost view = { λ r. keys_in_registers (drop r.next r.registers.now) };
}

impl<'a> RegisterRoots<'a> {
    /// What these registers hold.
    pub(crate) fn new(registers: &'a [Option<SKey>]) -> RegisterRoots<'a>
        ensures { result ≡ keys_in_registers registers.now }
    {
        RegisterRoots { registers, next: 0 }
    }
}

// The first register from `next` on that holds something: what it holds, and the register behind it.
fn register_from(registers: &[Option<SKey>], next: usize) -> Option<(SKey, usize)>
    ensures { MatchOption result (keys_in_registers (drop next registers.now) ≡ [])
        (λ found. keys_in_registers (drop next registers.now) ≡ found.0.0 ∷ keys_in_registers (drop found.1 registers.now)) }
{
    for i in next..registers.len() {
        if let Some(key) = registers[i] {
            return Some((key, i + 1));
        }
    }
    None
}

impl<'a> Roots for RegisterRoots<'a> {
    ghost left = { λ r. r };

    fn next_root(&mut self) -> Option<SKey> {
        match register_from(self.registers, self.next) {
            Some((key, behind)) => {
                self.next = behind;
                Some(key)
            }
            None => {
                self.next = self.registers.len();
                None
            }
        }
    }
}

/// The script objects that natives hold, by rising number of the native, from a reference of one on: those in its slots,
/// then its preserved reflector. They are seen as their keys.
#[derive(Drop)]
pub(crate) struct HeldRoots<'a> {
    counted: &'a Counted,
    native: Option<NKey>,
    next: SlotNo,
}

impl<'a> Model for HeldRoots<'a> {
    ghost use Rattle.std.specs.Prelude.{List, ℕ};
    ghost use Rattle.cc_heaps.specs.Roots.{keys_from, IsPlace};

    ghost Value = { List ℕ };

    ghost view = { λ r. keys_from r.counted.now r.native r.next };

    ghost invariant = { λ r. IsPlace r.counted.now r.native r.next };
}

impl<'a> HeldRoots<'a> {
    /// What the natives of a heap hold.
    pub(crate) fn new(counted: &'a Counted) -> HeldRoots<'a>
        requires keyed { HasKeys counted.now }
        requires few_slots { HaveFewSlots counted.now.natives }
        ensures { result ≡ keys_held counted.now counted.now.natives }
    {
        HeldRoots {
            counted,
            native: counted.first(),
            next: 0,
        }
    }
}

// The first script object among the references of a native from place `next` on, and the place behind it.
fn reference_from(counted: &Counted, native: NKey, next: SlotNo) -> Option<(SKey, SlotNo)>
    requires live { IsSome (number_at counted.now native.0) }
    requires few_slots { HaveFewSlots counted.now.natives }
    ensures place { IfSome result (λ found. found.1 ≤ length (references_of counted.now native.0)) }
    ensures left { MatchOption result (keys_in (drop next (references_of counted.now native.0)) ≡ [])
        (λ found. keys_in (drop next (references_of counted.now native.0)) ≡ found.0.0 ∷ keys_in (drop found.1 (references_of counted.now native.0))) }
{
    for i in next..counted.slots(native) + 1 {
        if let Some(Held::Script(key)) = counted.reference(native, i) {
            return Some((key, i + 1));
        }
    }
    None
}

// The first script object among the references of natives from a place on, and the place behind it.
fn held_from(counted: &Counted, native: Option<NKey>, next: SlotNo) -> Option<(SKey, NKey, SlotNo)>
    requires { IsPlace counted.now native next }
    ensures place { IfSome result (λ found. IsPlace counted.now (Some found.1) found.2) }
    ensures left { MatchOption result (keys_from counted.now native next ≡ [])
        (λ found. keys_from counted.now native next ≡ found.0.0 ∷ keys_from counted.now (Some found.1) found.2) }
{
    let mut at = native;
    let mut from = next;
    while let Some(key) = at {
        if let Some((found, behind)) = reference_from(counted, key, from) {
            return Some((found, key, behind));
        }
        at = counted.next(key);
        from = 0;
    }
    None
}

impl<'a> Roots for HeldRoots<'a> {
    ghost left = { λ r. r };

    fn next_root(&mut self) -> Option<SKey> {
        match held_from(self.counted, self.native, self.next) {
            Some((key, native, behind)) => {
                self.native = Some(native);
                self.next = behind;
                Some(key)
            }
            None => {
                self.native = None;
                None
            }
        }
    }
}
