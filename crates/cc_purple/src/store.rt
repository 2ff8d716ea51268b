//! What a store of suspects is.
ghost use Rattle.std.specs.Prelude.{◌≡◌, ℕ, Bool, IsTrue};
ghost use Rattle.cc_chain.specs.Links.{is_live};
ghost use Rattle.cc_purple.specs.Stores.{Marks, with_mark_at};

use cc_chain::LinkStore;

/// The list of suspects, among those that a store holds.
pub struct Suspects;

/// A store of links in which each live key also has the purple mark or none. That of a key that is not in the buffer says
/// nothing.
pub trait MarkStore: LinkStore<Suspects> {
    /// Which keys have the mark.
    ghost marks: { Self → Marks };

    /// What the store holds beside links and marks: all that no call of the buffer may change.
    ghost Beside: { Type 0 };

    ghost beside: { Self → Beside };

    /// Whether a live key has the mark.
    fn mark(&self, key: u32) -> bool
        requires { IsTrue (is_live (Self.links self.now) key) }
        ensures { result ≡ marks self.now key };

    /// Gives the mark to a live key, or takes it away. Every other key has the mark or none, as before.
    fn set_mark(&mut self, key: u32, on: bool)
        requires { IsTrue (is_live (Self.links self.old) key) }
        ensures marks { marks self.new ≡ with_mark_at (marks self.old) key on }
        ensures links { Self.links self.new ≡ Self.links self.old }
        ensures beside { beside self.new ≡ beside self.old };

    /// The marks are a part of what the store holds beside links, and so is the rest.
    ghost marks_in_rest: { (s t : Self) → Self.rest s ≡ Self.rest t → marks s ≡ marks t };

    ghost beside_in_rest: { (s t : Self) → Self.rest s ≡ Self.rest t → beside s ≡ beside t };
}
