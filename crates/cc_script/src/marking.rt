//! The script objects while they are marked.
ghost use Rattle.std.specs.Prelude.{◌≡◌, ℕ, [], Some, option_map, IsTrue};
ghost use Rattle.cc_lists.specs.Walks.{first_of};
ghost use Rattle.cc_script.specs.Objects.{AreWhole, colour_at, is_there};
ghost use Rattle.cc_script.specs.Parts.{shows, IsAtRest};
ghost use Rattle.cc_script.specs.Underway.{looked_into, started};

use crate::parts::ScriptParts;
use cc_names::{Colour, SKey};
use std::marker::Model;

/// The script objects while they are marked in one colour, one object after another, with the list of those that got the
/// colour and were not looked into yet. `Scripts::start_marking` hands them over, and `end_marking` takes them back.
///
/// So nothing else is done to the objects meanwhile. No call takes memory.
#[derive(Drop)]
pub struct Marking {
    parts: ScriptParts,
    to: Colour,
}

impl Model for Marking {
    ghost use Rattle.cc_script.specs.Parts.{marking_of, IsBegun};
    ghost use Rattle.cc_script.specs.Underway.{Underway};

    ghost Value = { Underway };

    ghost view = { λ m. record { objects = (marking_of m.parts).objects; waiting = (marking_of m.parts).waiting; to = m.to } };

    ghost invariant = { λ m. IsBegun m.to m.parts };
}

impl Marking {
    /// Of these objects none waits.
    pub(crate) fn begin(parts: ScriptParts, to: Colour) -> Marking
        requires at_rest { IsAtRest parts }
        ensures { result ≡ record { objects = shows parts; waiting = []; to = to } }
    {
        Marking { parts, to }
    }

    /// The objects, of which none waits any more.
    pub(crate) fn into_parts(self) -> ScriptParts
        requires done { self.waiting ≡ [] }
        ensures shows { shows result ≡ self.objects }
        ensures at_rest { IsAtRest result }
    {
        self.parts
    }

    /// The colour of an object.
    pub fn colour(&self, key: SKey) -> Colour
        requires live { IsTrue (is_there self.now.objects key.0) }
        ensures { colour_at self.now.objects key.0 ≡ Some result }
    {
        self.parts.colour(key)
    }

    /// Gives an object the colour where its own is lower; it goes last on the list then.
    pub fn start(&mut self, key: SKey)
        requires live { IsTrue (is_there self.old.objects key.0) }
        ensures started { self.new ≡ started key.0 self.old }
        ensures there { (k : ℕ) → is_there self.new.objects k ≡ is_there self.old.objects k }
        ensures whole { AreWhole self.old.objects → AreWhole self.new.objects }
    {
        self.parts.raise(key, self.to);
    }

    /// Takes the first object off the list, and starts what its slots hold, in rising order, and its delegate then. None
    /// exactly where the list is empty.
    pub fn next_marked(&mut self) -> Option<SKey>
        requires whole { AreWhole self.old.objects }
        ensures first { option_map (λ k. k.0) result ≡ first_of self.old.waiting }
        ensures looked { self.new ≡ looked_into self.old }
        ensures there { (k : ℕ) → is_there self.new.objects k ≡ is_there self.old.objects k }
        ensures whole { AreWhole self.new.objects }
    {
        self.parts.look_into_first(self.to)
    }
}
