//! The heaps: their fields, what registers hold, and what a collection does to natives.
ghost use Rattle.std.specs.Prelude.{◌≡◌, ◌<◌, ℕ, List, [], ◌∷◌, IsSome, IfOk, MatchOption, replicate, None, Some};
ghost use Rattle.cc_names.specs.declared.register.Reg.TheVariants.{N as n_register, S as s_register};
ghost use Rattle.cc_names.specs.Names.{native};
ghost use Rattle.cc_names.specs.Sizes.{bank_length};
ghost use Rattle.cc_model.specs.Heap.{empty_heap, register, suspect, buffered_as};
ghost use Rattle.cc_model.specs.Cascade.{add_ref, cascade};
ghost use Rattle.cc_model.specs.Colours.{HasColourInvariant};
ghost use Rattle.cc_model.specs.End.{unlink};
ghost use Rattle.cc_model.specs.Skipping.{unmarked};
ghost use Rattle.cc_model.specs.View.{view};
ghost use Rattle.cc_model.specs.StandsFor.{StandsFor};
ghost use Rattle.cc_model.specs.Suspected.{IsSuspected};
ghost use Rattle.cc_model.specs.Telling.{TellsEvents};
ghost use Rattle.cc_model.specs.Graph as graph;
ghost use Rattle.cc_laws_heap.specs.Apart.{AreApart};
ghost use Rattle.cc_heaps.specs.Keyed.{IsInOrder, counts_of, number_at, the_number, changed_to, left_with};
ghost use Rattle.cc_heaps.specs.Changes.{IsNativeThere, IsScriptThere, native_name, script_name};
ghost use Rattle.cc_heaps.specs.Standing.{IsReached, StillStands};
ghost use Rattle.cc_heaps.specs.Few.{IsNotOwned};
ghost use Rattle.cc_heaps.specs.Marks.{KeepsMarks};
ghost use Rattle.cc_heaps.specs.Keeping.{KeepsAll, KeepsAllIfReached, KeepsHeaps};
ghost use Rattle.cc_heaps.specs.Leaving.{TellsWhatIsFreed};

mod census;
mod ending;
mod entries;
mod holders;
mod holding;
mod making;
mod marking;
mod new_marks;
mod places;
mod reflectors;
mod rooting;
mod roots;
mod scripts;
mod sweeping;
mod to_make;
mod walks;

use crate::to_scan::ToScan;
use cc_counted::Counted;
use cc_model::Notices;
use cc_names::{BANK_LENGTH, Limits, NKey, Name, NoMemory, RegNo, SKey};
use cc_script::Scripts;
use cc_weakmaps::WeakMaps;
use std::alloc::Global;
use std::marker::Model;

/// Both heaps by key, the entries of weak maps, what a marking in slices has yet to scan, the native registers and the script
/// registers, and how many objects were ever made. What registers and slots of natives hold is there at each step.
#[derive(Drop)]
pub struct Heaps {
    native_registers: Vec<Option<NKey>>,
    script_registers: Vec<Option<SKey>>,
    counted: Counted,
    scripts: Scripts,
    weak: WeakMaps,
    // with room for all script objects
    to_scan: ToScan,
    natives_made: u32,
    scripts_made: u32,
    limits: Limits,
}

impl Model for Heaps {
    ghost use Rattle.cc_heaps.specs.Keyed.{Keyed};

    ghost Value = { Keyed };

    ghost use Rattle.cc_heaps.specs.Fields.{keyed_of, IsLinked};

    ghost view = { keyed_of };

    ghost invariant = { IsLinked };
}

// Native registers that hold nothing.
fn no_natives(alloc: Global) -> Result<Vec<Option<NKey>>, NoMemory>
    ensures { IfOk result (λ registers. registers.items ≡ replicate bank_length None) }
{
    Ok(vec![in alloc; None; BANK_LENGTH]?)
}

// Script registers that hold nothing.
fn no_scripts(alloc: Global) -> Result<Vec<Option<SKey>>, NoMemory>
    ensures { IfOk result (λ registers. registers.items ≡ replicate bank_length None) }
{
    Ok(vec![in alloc; None; BANK_LENGTH]?)
}

impl Heaps {
    /// No objects, and empty registers; as many objects may ever be made as the limits say.
    pub fn new(alloc: Global, limits: Limits) -> Result<Heaps, NoMemory>
        ensures empty { IfOk result (λ h. h.heap ≡ empty_heap limits) }
        ensures order { IfOk result (λ h. IsInOrder [] h) }
        ensures idle { IfOk result (λ h. h.marking ≡ None) }
        ensures stands { IfOk result (λ h. StandsFor h.heap (graph.empty_graph limits)) }
        ensures colours { IfOk result (λ h. HasColourInvariant (view h.heap)) }
        ensures suspected { IfOk result (λ h. IsSuspected (view h.heap) []) }
    {
        // Counts fit their type since no more natives can be made than limits may allow.
        prove!(limits.natives() <= Limits::MOST);
        prove!(limits.scripts() <= Limits::MOST);
        Ok(Heaps {
            native_registers: no_natives(alloc)?,
            script_registers: no_scripts(alloc)?,
            counted: Counted::new(alloc),
            scripts: Scripts::new(alloc),
            weak: WeakMaps::new(alloc),
            to_scan: ToScan::new(alloc),
            natives_made: 0,
            scripts_made: 0,
            limits,
        })
    }

    /// The counted natives.
    pub fn counted(&self) -> &Counted
        ensures { result.now ≡ counts_of self.now }
    {
        &self.counted
    }

    /// The script objects.
    pub fn scripts(&self) -> &Scripts
        ensures { result.now ≡ self.now.scripts }
    {
        &self.scripts
    }

    /// The entries of all weak maps, in the order in which they were first set.
    pub fn weak(&self) -> &WeakMaps
        ensures { result.now ≡ self.now.entries }
    {
        &self.weak
    }

    /// What a native register holds; none exactly where it is empty, or where there is no such register.
    pub fn native_reg(&self, r: RegNo) -> Option<NKey>
        ensures name { native_name self.now result ≡ register self.now.heap (n_register r) }
        ensures there { IsNativeThere self.now result }
    {
        *self.native_registers.get(r as usize)?
    }

    /// What a script register holds; none exactly where it is empty, or where there is no such register.
    pub fn script_reg(&self, r: RegNo) -> Option<SKey>
        ensures name { script_name self.now result ≡ register self.now.heap (s_register r) }
        ensures there { IsScriptThere self.now result }
    {
        *self.script_registers.get(r as usize)?
    }

    /// One more reference to a native, which the caller owns; it owns none so far.
    pub fn root(&mut self, key: NKey)
        requires live { IsSome (number_at self.old key.0) }
        requires owned { (owned : List ℕ) × IsInOrder owned self.old × IsNotOwned (the_number self.old key.0) owned }
        ensures heap { self.new ≡ changed_to self.old (add_ref self.old.heap (the_number self.old key.0)) }
        ensures kept { KeepsHeaps [] (the_number self.old key.0 ∷ []) self.old self.new }
        ensures stands { StillStands self.old.heap self.new.heap }
    {
        self.take_reference(key);
    }

    /// Gives up a reference that the caller owns, and deletes what then has none.
    pub fn unroot<N: Notices>(&mut self, key: NKey, out: &mut N)
        requires live { IsSome (number_at self.old key.0) }
        requires owned { (owned : List ℕ) × IsInOrder (the_number self.old key.0 ∷ owned) self.old }
        ensures heap { self.new ≡ left_with self.old (cascade self.old.heap (the_number self.old key.0)).heap }
        ensures told { TellsEvents (N.telling out.old) (N.telling out.new) (cascade self.old.heap (the_number self.old key.0)).events }
        ensures tells { TellsWhatIsFreed self.old.heap self.new.heap (N.telling out.old) (N.telling out.new) }
        ensures kept { KeepsHeaps (the_number self.old key.0 ∷ []) [] self.old self.new }
        ensures stands { StillStands self.old.heap self.new.heap }
    {
        self.counted.release(key, out);
    }

    /// Tells that a native is unlinked, and empties its slots. The caller owns a reference to it.
    ///
    /// The heaps go on standing for the graph where the native is apart: the registers and the other natives of the heaps do not
    /// lead to it. Of several that are apart together only, the others lead to each: the end of a collection says it of them all.
    pub fn unlink<N: Notices>(&mut self, key: NKey, out: &mut N)
        requires live { IsSome (number_at self.old key.0) }
        requires owned { (owned : List ℕ) × IsInOrder (the_number self.old key.0 ∷ owned) self.old }
        ensures heap { self.new ≡ left_with self.old (unlink self.old.heap (the_number self.old key.0)).heap }
        ensures told { TellsEvents (N.telling out.old) (N.telling out.new) (unlink self.old.heap (the_number self.old key.0)).events }
        ensures kept { KeepsHeaps (the_number self.old key.0 ∷ []) (the_number self.old key.0 ∷ []) self.old self.new }
        ensures stands { AreApart self.old.heap (the_number self.old key.0 ∷ []) → StillStands self.old.heap self.new.heap }
    {
        self.counted.unlink(key, out);
    }

    /// Takes out the front of the buffer and its mark; none exactly where the buffer is empty.
    pub fn select_next(&mut self) -> Option<(NKey, bool)>
        ensures front { MatchOption result ((self.old.heap.buffer ≡ []) × (self.new ≡ self.old))
            (λ front. (self.old.heap.buffer ≡ buffered_as (the_number self.old front.0.0) front.1 ∷ self.new.heap.buffer)
            × (self.new ≡ changed_to self.old (record self.old.heap { buffer = self.new.heap.buffer }))
            × IsSome (number_at self.old front.0.0)) }
        ensures kept { KeepsHeaps [] [] self.old self.new }
        ensures stands { StillStands self.old.heap self.new.heap }
    {
        self.counted.select_next()
    }

    /// A native goes back into the buffer with the purple mark; one that is there keeps its place.
    pub fn give_back(&mut self, key: NKey)
        requires live { IsSome (number_at self.old key.0) }
        requires owned { (owned : List ℕ) × IsInOrder owned self.old }
        ensures heap { self.new ≡ changed_to self.old (suspect self.old.heap (the_number self.old key.0)) }
        ensures kept { KeepsAll self.old self.new }
        ensures marks { KeepsMarks self.old self.new }
        ensures stands { StillStands self.old.heap self.new.heap }
    {
        self.counted.give_back(key);
    }

    /// A native of the buffer loses the purple mark, and keeps its place; nothing where it is not in the buffer.
    ///
    /// No native is forgotten where this one is reached.
    pub fn unmark(&mut self, key: NKey)
        requires live { IsSome (number_at self.old key.0) }
        requires owned { (owned : List ℕ) × IsInOrder owned self.old }
        ensures heap { self.new ≡ changed_to self.old (unmarked self.old.heap (the_number self.old key.0)) }
        ensures kept { KeepsAllIfReached (IsReached self.old.heap (Some (native (the_number self.old key.0)))) self.old self.new }
        ensures marks { KeepsMarks self.old self.new }
        ensures stands { StillStands self.old.heap self.new.heap }
    {
        if self.counted.in_buffer(key) {
            self.counted.touch(key);
        }
    }
}
