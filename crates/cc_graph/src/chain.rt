//! A chain: where the first and the last of some elements of a list stand, each of which knows its next one.

ghost use Rattle.std.specs.Prelude.{◌≡◌};
ghost use Rattle.cc_graph.specs.Kept.{chained, no_chain};

/// The places of the first and the last; none where there is none.
#[derive(Clone, Copy, Drop)]
pub(crate) struct Chain {
    pub(crate) first: Option<u32>,
    pub(crate) last: Option<u32>,
}

impl Chain {
    /// A chain of none.
    pub(crate) fn new() -> Chain
        ensures { result ≡ no_chain }
    {
        Chain {
            first: None,
            last: None,
        }
    }

    /// One more stands at this place, behind all that there are.
    pub(crate) fn add(&mut self, place: u32)
        ensures { self.new ≡ chained self.old place }
    {
        self.first = self.first.or(Some(place));
        self.last = Some(place);
    }
}
