//! Natives that hold gray script objects, in slots or as preserved reflectors.
ghost use Rattle.std.specs.Prelude.{◌≡◌, ℕ, List, filter, option_and_then, IsSome, ◌<◌, Some, None};
ghost use Rattle.cc_counted.specs.Counts as counts;
ghost use Rattle.cc_counted.specs.Counts.{name_of};
ghost use Rattle.cc_counted.specs.Owning.{HasKeys};
ghost use Rattle.cc_heaps.specs.Keyed.{IsInOrder, number_at, counts_of};
ghost use Rattle.cc_heaps.specs.Changes.{IsNativeThere};
ghost use Rattle.cc_heaps.specs.Holders.{first_of, holder_after, is_above};
ghost use Rattle.cc_heaps.specs.Named.{IsLive};
ghost use Rattle.cc_heaps.specs.GrayHeld.{IsHeldIn, is_gray_held, is_holder, numbers_referring};

use crate::heaps::Heaps;
use cc_counted::{Counted, Held};
use cc_names::{Colour, NKey};

// The native with the least number above that of `after`, of all where there is no `after`, that refers to a script object.
fn referring_above(counted: &Counted, after: Option<NKey>) -> Option<NKey>
    requires there { IsLive counted.now.keys after }
    requires keyed { HasKeys counted.now }
    ensures number { option_and_then (λ k. counts.number_at counted.now k.0) result
        ≡ first_of (filter (is_above (option_and_then (λ k. counts.number_at counted.now k.0) after)) (numbers_referring counted.now)) }
    ensures there { IsLive counted.now.keys result }
{
    match counted.next_holder(after) {
        Some(key) => Some(key),
        None => None,
    }
}

impl Heaps {
    // Whether what a native refers to is a gray script object.
    fn is_gray(&self, content: Option<Held>) -> bool
        requires there { IsHeldIn self.now.scripts (name_of (counts_of self.now) content) }
        ensures { result ≡ is_gray_held self.now.scripts (name_of (counts_of self.now) content) }
    {
        match content {
            Some(Held::Script(key)) => self.scripts.colour(key) == Colour::Gray,
            _ => false,
        }
    }

    // Whether a native holds a gray script object.
    fn holds_gray(&self, key: NKey) -> bool
        requires order { (owned : List ℕ) × IsInOrder owned self.now }
        requires live { IsSome (number_at self.now key.0) }
        ensures { result ≡ is_holder self.now.scripts (counts_of self.now) key.0 }
    {
        for i in 0..self.counted.slots(key) + 1 {
            if self.is_gray(self.counted.reference(key, i)) {
                return true;
            }
        }
        false
    }

    /// The native with the least number above that of `after` that holds a gray script object, in a slot or as its preserved
    /// reflector, of all where there is no `after`; none exactly where there is no such one. It looks at natives that refer to
    /// script objects, and at no others.
    pub fn next_holder(&self, after: Option<NKey>) -> Option<NKey>
        requires order { (owned : List ℕ) × IsInOrder owned self.now }
        requires there { IsNativeThere self.now after }
        ensures number { option_and_then (λ k. number_at self.now k.0) result ≡ holder_after self.now.heap
            (option_and_then (λ k. number_at self.now k.0) after) }
        ensures there { IsNativeThere self.now result }
    {
        let mut next = referring_above(&self.counted, after);
        while let Some(key) = next {
            if self.holds_gray(key) {
                return Some(key);
            }
            next = referring_above(&self.counted, Some(key));
        }
        None
    }
}
