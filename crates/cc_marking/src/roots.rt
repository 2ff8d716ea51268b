//! Where a marking begins.
ghost use Rattle.std.specs.Prelude.{◌≡◌, ℕ, List, [], ◌∷◌, MatchOption};

use cc_names::SKey;

/// Where a marking begins.
pub trait Roots {
    /// The keys of the script objects that are still to come, in order, with repeats.
    ghost left: { Self → List ℕ };

    /// The next one; none exactly where there is no further one.
    fn next_root(&mut self) -> Option<SKey>
        ensures { MatchOption result ((left self.old ≡ []) × (left self.new ≡ [])) (λ key. left self.old ≡ key.0 ∷ left self.new) };
}
