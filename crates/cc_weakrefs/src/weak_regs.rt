//! The weak registers.
ghost use Rattle.std.specs.Prelude.{◌≡◌, ◌≢◌, ℕ, List, false, replicate, slice_index_or, slice_set, IfOk, IfSome, Some, None};
ghost use Rattle.cc_names.specs.declared.name.Name.TheVariants as name;
ghost use Rattle.cc_names.specs.Sizes.{weak_length};
ghost use Rattle.cc_model.specs.Slots.{empty_slots};
ghost use Rattle.cc_counted.specs.Counts.{unlinked_of};
ghost use Rattle.cc_heaps.specs.Keyed.{Keyed, IsInOrder, counts_of, number_at};
ghost use Rattle.cc_heaps.specs.Changes.{native_name};
ghost use Rattle.cc_weakrefs.specs.Noting.{HoldKeys, HoldsKey, is_found, key_resolved, names_noted, noted, usable_noted};

use crate::noted::Noted;
use cc_heaps::Heaps;
use cc_names::{NKey, NativeNo, NoMemory, WEAK_LENGTH, WeakNo};
use std::alloc::Global;
use std::marker::Model;

/// The weak registers: each notes a native, or nothing. They keep no native, and no native knows of them.
#[derive(Drop)]
pub struct WeakRegs {
    registers: Vec<Option<Noted>>,
}

impl Model for WeakRegs {
    ghost use Rattle.std.specs.Prelude.{◌≡◌, List, Option, length};
    ghost use Rattle.cc_names.specs.declared.name.Name.TheVariants as name;
    ghost use Rattle.cc_names.specs.Sizes.{weak_length};
    ghost use Rattle.cc_weakrefs.specs.declared.noted.Noted.{Noted};

    ghost Value = { List (Option Noted) };

    ghost view = { λ w. w.registers.items };

    ghost invariant = { λ w. length w.registers.items ≡ weak_length };
}

// Whether the native of this number still stands at this key, and was not unlinked.
fn is_found(heaps: &Heaps, noted: Noted) -> bool
    ensures { result ≡ is_found heaps.now noted }
{
    match heaps.counted().number(noted.key) {
        Some(number) => number == noted.number && !heaps.counted().unlinked(noted.key),
        None => false,
    }
}

// The key of what is noted, where it is found.
fn find(heaps: &Heaps, noted: Option<Noted>) -> Option<NKey>
    ensures { result ≡ key_resolved heaps.now noted }
{
    let noted = noted?;
    if is_found(heaps, noted) {
        Some(noted.key)
    } else {
        None
    }
}

// Registers that note nothing.
fn no_registers(alloc: Global) -> Result<Vec<Option<Noted>>, NoMemory>
    ensures { IfOk result (λ registers. registers.items ≡ replicate weak_length None) }
{
    Ok(vec![in alloc; None; WEAK_LENGTH]?)
}

impl WeakRegs {
    /// Registers that note nothing. It is the one call that takes memory.
    pub fn new(alloc: Global) -> Result<WeakRegs, NoMemory>
        ensures empty { IfOk result (λ w. w ≡ replicate weak_length None) }
        ensures names { IfOk result (λ w. names_noted w ≡ empty_slots weak_length) }
        ensures keys { IfOk result (λ w. (v : Keyed) → HoldKeys w v) }
    {
        Ok(WeakRegs {
            registers: no_registers(alloc)?,
        })
    }

    /// Register `w` notes a native from then on, by its key and its number.
    pub fn set(&mut self, w: WeakNo, key: NKey, number: NativeNo)
        ensures registers { self.new ≡ slice_set self.old w (Some (noted key number)) }
        ensures names { names_noted self.new ≡ slice_set (names_noted self.old) w (Some (name.Native number)) }
        ensures keys { (v : Keyed) → HoldKeys self.old v → HoldsKey v (noted key number) → HoldKeys self.new v }
    {
        self.registers[w as usize] = Some(Noted { key, number });
    }

    /// Register `w` notes nothing from then on.
    pub fn clear(&mut self, w: WeakNo)
        ensures registers { self.new ≡ slice_set self.old w None }
        ensures names { names_noted self.new ≡ slice_set (names_noted self.old) w None }
        ensures keys { (v : Keyed) → HoldKeys self.old v → HoldKeys self.new v }
    {
        self.registers[w as usize] = None;
    }

    /// The native that register `w` notes, where it is still in the heaps and was not unlinked.
    ///
    /// None exactly where the register notes nothing, or the native of its number stands at its key no more, or was unlinked.
    /// So a key that was given out again is not taken for the native that had it before. Where the registers hold the keys of
    /// the natives that they note (`HoldKeys`), it is the native that the register notes by name, unless that has ended.
    pub fn resolve(&self, heaps: &Heaps, w: WeakNo) -> Option<NKey>
        ensures exactly { result ≡ key_resolved heaps.now (slice_index_or self.now w None) }
        ensures there { IfSome result (λ key. (native_name heaps.now (Some key) ≡ slice_index_or (names_noted self.now) w None) ×
            (native_name heaps.now (Some key) ≢ None)) }
        ensures usable { IfSome result (λ key. unlinked_of (counts_of heaps.now) key.0 ≡ false) }
        ensures noted { (owned : List ℕ) → IsInOrder owned heaps.now → HoldKeys self.now heaps.now →
            native_name heaps.now result ≡ usable_noted heaps.now.heap (names_noted self.now) w }
    {
        find(heaps, self.registers[w as usize])
    }
}
