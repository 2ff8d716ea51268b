//! A node, with what is kept of it.

ghost use Rattle.std.specs.Prelude.{◌≡◌, ◌+◌, ◌<◌, ◌^◌, Some, true};
ghost use Rattle.cc_graph.specs.Kept.{added, with_mapping, with_reference};

use crate::chain::Chain;
use cc_counted::Held;
use cc_names::Name;

/// A node, with what is kept of it so that no list has to be walked.
#[derive(Clone, Copy, Drop)]
pub(crate) struct Node {
    /// the name of the object
    pub(crate) name: Name,
    /// where the object stands
    pub(crate) held: Held,
    /// the count that was sampled; none where none was
    pub(crate) sampled: Option<u32>,
    /// whether it is black
    pub(crate) black: bool,
    /// how many noted references lead to it
    pub(crate) noted: u32,
    /// the references that it has
    pub(crate) references: Chain,
    /// the mappings whose map or key it is
    pub(crate) mappings: Chain,
}

impl Node {
    /// A node that was not sampled, is not black, and has no reference and no mapping, as no reference leads to it.
    pub(crate) fn new(name: Name, held: Held) -> Node
        ensures { result ≡ added name held }
    {
        Node {
            name,
            held,
            sampled: None,
            black: false,
            noted: 0,
            references: Chain::new(),
            mappings: Chain::new(),
        }
    }

    /// Takes a count, in place of one that was there.
    pub(crate) fn sample(&mut self, count: u32)
        ensures { self.new ≡ record self.old { sampled = Some count } }
    {
        self.sampled = Some(count);
    }

    /// It is black from now on.
    pub(crate) fn blacken(&mut self)
        ensures { self.new ≡ record self.old { black = true } }
    {
        self.black = true;
    }

    /// One more reference leads to it.
    pub(crate) fn note(&mut self)
        requires { self.old.noted + 1 < 2 ^ 32 }
        ensures { self.new ≡ record self.old { noted = self.old.noted + 1 } }
    {
        self.noted += 1;
    }

    /// It has one more reference, at this place, behind all that it has.
    pub(crate) fn add_reference(&mut self, place: u32)
        ensures { self.new ≡ with_reference self.old place }
    {
        self.references.add(place);
    }

    /// It is the map or the key of one more mapping, at this place, behind all others.
    pub(crate) fn add_mapping(&mut self, place: u32)
        ensures { self.new ≡ with_mapping self.old place }
    {
        self.mappings.add(place);
    }
}
