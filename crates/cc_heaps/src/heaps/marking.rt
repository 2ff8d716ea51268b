//! Script objects marked.
ghost use Rattle.std.specs.Prelude.{◌≡◌, ◌<◌, ℕ, List, IsTrue};
ghost use Rattle.cc_lists.specs.Members.{Among};
ghost use Rattle.cc_model.specs.Colours.{marked, HasColours};
ghost use Rattle.cc_script.specs.Objects.{AreWhole, is_there};
ghost use Rattle.cc_marking.specs.Marking.{AreDelegatesOfKeys, AreEntriesThere, marked_from};
ghost use Rattle.cc_heaps.specs.Keyed.{IsInOrder};
ghost use Rattle.cc_heaps.specs.Standing.{StillStands};
ghost use Rattle.cc_heaps.specs.Marks.{KeepsMarks};
ghost use Rattle.cc_heaps.specs.Keeping.{KeepsObjects};

use crate::heaps::Heaps;
use crate::heaps::roots::{HeldRoots, RegisterRoots};
use cc_marking::mark;
use cc_script::Scripts;
use cc_steps::Steps;
use cc_weakmaps::WeakMaps;
use std::marker::Brand;
use std::sync::ledger::{Blank, Ledger};

/// Marks from the registers and from what natives hold. Nobody asks for its steps.
fn mark_uncounted<L: Ledger>(
    scripts: &mut Scripts,
    weak: &WeakMaps,
    registers: &mut RegisterRoots<'_>,
    held: &mut HeldRoots<'_>,
    blank: Blank,
)
    requires name { blank.name ≡ L.name }
    requires parts { blank.parts ≡ L.parts }
    requires some { 0 < L.parts }
    requires registers { (key : ℕ) → Among key registers.old → IsTrue (is_there scripts.old key) }
    requires held { (key : ℕ) → Among key held.old → IsTrue (is_there scripts.old key) }
    requires entries { AreEntriesThere scripts.old weak.now }
    requires delegates { AreDelegatesOfKeys scripts.old weak.now }
    requires whole { AreWhole scripts.old }
    ensures { scripts.new ≡ marked_from registers.old held.old weak.now scripts.old }
{
    let mut steps = Steps::<L>::new(blank);
    mark(scripts, weak, registers, held, &mut steps);
}

impl Heaps {
    /// Gives each script object its colour: black what a mark from the script registers comes to, gray what else one from
    /// what natives hold comes to, white the rest. A mark goes over slots, from a proxy to its delegate, from a map and
    /// a key that are marked together to the value of their entry, and from a map and the delegate of a key to that key. Takes no
    /// memory.
    pub fn mark_scripts(&mut self)
        requires order { (owned : List ℕ) × IsInOrder owned self.old }
        ensures heap { self.new.heap ≡ marked self.old.heap }
        ensures natives { self.new.keys ≡ self.old.keys }
        ensures kept { KeepsObjects self.old self.new }
        ensures marks { KeepsMarks self.old self.new }
        ensures stands { StillStands self.old.heap self.new.heap }
        ensures colours { HasColours self.new.heap }
    {
        let mut registers = RegisterRoots::new(self.script_registers.as_slice());
        let mut held = HeldRoots::new(&self.counted);
        mark_uncounted::<Brand>(
            &mut self.scripts,
            &self.weak,
            &mut registers,
            &mut held,
            Blank::new(1),
        );
    }
}
