//! A marking of script objects that goes on in slices, ended.
ghost use Rattle.std.specs.Prelude.{◌≡◌, ◌<◌, ℕ, List, [], None, Some, map};
ghost use Rattle.cc_model.specs.Colours.{HasColourInvariant};
ghost use Rattle.cc_model.specs.Marking.{NewMarks, ended_marks};
ghost use Rattle.cc_model.specs.Telling.{TellsEvents};
ghost use Rattle.cc_model.specs.View.{view};
ghost use Rattle.cc_counted.specs.Counts.{key_left};
ghost use Rattle.cc_script.specs.ColourOrder.{HasColourOrder};
ghost use Rattle.cc_script.specs.Objects.{AreWhole, name_at};
ghost use Rattle.cc_marking.specs.Levels.{keys_at_least};
ghost use Rattle.cc_marking.specs.Marking.{AreEntriesThere, marked_from};
ghost use Rattle.cc_names.specs.declared.kind.Colour.TheVariants.{Black, Gray};
ghost use Rattle.cc_heaps.specs.Keyed.{IsInOrder};
ghost use Rattle.cc_heaps.specs.Ending.{IsToEnd, coloured_by_marks};
ghost use Rattle.cc_heaps.specs.NewMarks.{marks_of};
ghost use Rattle.cc_heaps.specs.Standing.{StillStands};
ghost use Rattle.cc_heaps.specs.Keeping.{KeepsHeaps};

use crate::heaps::Heaps;
use cc_marking::mark_on;
use cc_model::Notices;
use cc_script::Scripts;
use cc_steps::Steps;
use cc_weakmaps::WeakMaps;
use std::marker::Brand;
use std::sync::ledger::{Blank, Ledger};

/// Carries marks on over entries. Nobody asks for its steps.
fn mark_on_uncounted<L: Ledger>(scripts: &mut Scripts, weak: &WeakMaps, blank: Blank)
    requires name { blank.name ≡ L.name }
    requires parts { blank.parts ≡ L.parts }
    requires some { 0 < L.parts }
    requires entries { AreEntriesThere scripts.old weak.now }
    requires whole { AreWhole scripts.old }
    requires ordered { HasColourOrder scripts.old }
    ensures { scripts.new ≡ marked_from (keys_at_least Black scripts.old) (keys_at_least Gray scripts.old) weak.now scripts.old }
{
    let mut steps = Steps::<L>::new(blank);
    mark_on(scripts, weak, &mut steps);
}

impl Heaps {
    // The new marks become the colours, carried on over the entries of weak maps.
    fn colour_by_new_marks(&mut self)
        requires order { (owned : List ℕ) × IsInOrder owned self.old }
        requires ending { (m : NewMarks) × (marks_of self.old ≡ Some m) × IsToEnd self.old.heap m }
        ensures heap { (m : NewMarks) → marks_of self.old ≡ Some m → self.new.heap ≡ coloured_by_marks self.old.heap m }
        ensures keys { self.new.keys ≡ self.old.keys }
        ensures names { (key : ℕ) → name_at self.new.scripts key ≡ name_at self.old.scripts key }
        ensures order { (owned : List ℕ) → IsInOrder owned self.old → IsInOrder owned self.new }
    {
        self.scripts.exchange_marks();
        mark_on_uncounted::<Brand>(&mut self.scripts, &self.weak, Blank::new(1));
    }

    /// Ends a marking that goes on in slices, of which nothing is left to scan. The new marks become the colours, carried on over
    /// the entries of weak maps, and what is white then is swept, as `sweep` does it. No marking goes on any more. Takes no memory.
    pub fn end_new<N: Notices>(&mut self, out: &mut N)
        requires order { (owned : List ℕ) × IsInOrder owned self.old }
        requires ending { (m : NewMarks) × (marks_of self.old ≡ Some m) × IsToEnd self.old.heap m }
        ensures heap { (m : NewMarks) → marks_of self.old ≡ Some m → self.new.heap ≡ (ended_marks self.old.heap m).heap }
        ensures told { (m : NewMarks) → marks_of self.old ≡ Some m →
            TellsEvents (N.telling out.old) (N.telling out.new) (ended_marks self.old.heap m).events }
        ensures natives { self.new.keys ≡ map (key_left self.new.heap) self.old.keys }
        ensures marking { self.new.marking ≡ None }
        ensures kept { KeepsHeaps [] [] self.old self.new }
        ensures stands { StillStands self.old.heap self.new.heap }
        ensures invariant { HasColourInvariant (view self.new.heap) }
    {
        self.colour_by_new_marks();
        self.sweep(out);
        self.drop_new();
    }
}
