//! The link of a key, as the element at that key keeps it.
ghost use Rattle.std.specs.Prelude.{◌≡◌};
ghost use Rattle.cc_chain.specs.Neighbours.{key_if};

use crate::link::Link;
use std::marker::Model;

/// The neighbours of a key in a list, or that it is in none: an `Option<Link>` in 12 bytes, for a store to keep.
#[derive(Drop)]
pub struct Neighbours {
    is_linked: bool,
    // whether there is one before it and one behind it; where there is none, its key says nothing
    has_before: bool,
    has_after: bool,
    before: u32,
    after: u32,
}

impl Model for Neighbours {
    ghost use Rattle.std.specs.Prelude.{Option};
    ghost use Rattle.cc_chain.specs.declared.link.Link.{Link};
    ghost use Rattle.cc_chain.specs.Neighbours.{link_of};

    ghost Value = { Option Link };

    ghost view = { λ n. link_of n.is_linked n.has_before n.has_after n.before n.after };
}

impl Neighbours {
    /// Of a key with this link.
    pub fn of(link: Option<Link>) -> Neighbours
        ensures { result ≡ link }
    {
        match link {
            Some(link) => Neighbours {
                is_linked: true,
                has_before: link.before.is_some(),
                has_after: link.after.is_some(),
                before: link.before.unwrap_or(0),
                after: link.after.unwrap_or(0),
            },
            None => Neighbours {
                is_linked: false,
                has_before: false,
                has_after: false,
                before: 0,
                after: 0,
            },
        }
    }

    /// The link; none of a key in no list.
    pub fn link(&self) -> Option<Link>
        ensures { result ≡ self.now }
    {
        if !self.is_linked {
            return None;
        }
        Some(Link {
            before: key_if(self.has_before, self.before),
            after: key_if(self.has_after, self.after),
        })
    }
}

/// A key, where there is one.
fn key_if(there: bool, key: u32) -> Option<u32>
    ensures { result ≡ key_if there key }
{
    if there { Some(key) } else { None }
}
