//! What a store of links is.
ghost use Rattle.std.specs.Prelude.{◌≡◌, Option, Some, IsTrue};
ghost use Rattle.cc_chain.specs.Links.{Links, is_live, with_link};

use crate::link::Link;

/// A store in which each live key has a link for the list `R`, or none where it is not in that list.
///
/// `R` is a type that names a list, and has no other use; a store that holds several implements the trait once for each.
/// Which keys are live is told by the links, so a store whose keys come and go shows that here.
pub trait LinkStore<R> {
    /// The link of each live key.
    ghost links: { Self → Links };

    /// What else the store holds: all that no call of a chain may change.
    ghost Rest: { Type 0 };

    ghost rest: { Self → Rest };

    /// The link of a live key.
    fn get(&self, key: u32) -> Option<Link>
        requires { IsTrue (is_live (links self.now) key) }
        ensures { links self.now key ≡ Some result };

    /// Puts a link to a live key, or takes its link away. Every other key has the link that it had.
    fn set(&mut self, key: u32, link: Option<Link>)
        requires { IsTrue (is_live (links self.old) key) }
        ensures links { links self.new ≡ with_link (links self.old) key link }
        ensures rest { rest self.new ≡ rest self.old };
}
