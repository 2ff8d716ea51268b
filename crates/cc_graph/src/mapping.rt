//! A noted mapping.

ghost use Rattle.std.specs.Prelude.{◌≡◌, None};
ghost use Rattle.cc_graph.specs.Kept.{next_with, with_next_with, same_node};

/// A noted mapping: the numbers of the nodes of a map and of a key, each where it is a node, and of the value that they
/// hold together.
#[derive(Clone, Copy, Drop)]
pub(crate) struct Mapping {
    pub(crate) the_map: Option<u32>,
    pub(crate) key: Option<u32>,
    pub(crate) value: u32,
    /// the place of the next one that the map has; where neither a map nor a key is there, of the next such one; none where
    /// it is the last
    pub(crate) next_of_map: Option<u32>,
    /// the place of the next one that the key has, where that is another node than the map
    pub(crate) next_of_key: Option<u32>,
}

impl Mapping {
    /// The mapping of a map and a key to a value, as the last one.
    pub(crate) fn new(the_map: Option<u32>, key: Option<u32>, value: u32) -> Mapping
        ensures { result ≡ record { the_map = the_map; key = key; value = value; next_of_map = None; next_of_key = None } }
    {
        Mapping {
            the_map,
            key,
            value,
            next_of_map: None,
            next_of_key: None,
        }
    }

    /// The place of the next one that a node has, of those that are its map, its key, or none for want of both.
    pub(crate) fn next_with(&self, node: Option<u32>) -> Option<u32>
        ensures { result ≡ next_with node self.now }
    {
        if is_same(self.the_map, node) {
            return self.next_of_map;
        }
        self.next_of_key
    }

    /// The next one that this node has is at this place.
    pub(crate) fn link(&mut self, node: Option<u32>, place: u32)
        ensures { self.new ≡ with_next_with node self.old place }
    {
        if is_same(self.the_map, node) {
            self.next_of_map = Some(place);
        } else {
            self.next_of_key = Some(place);
        }
    }
}

/// Whether two nodes are the same, or both are none.
fn is_same(one: Option<u32>, other: Option<u32>) -> bool
    ensures { result ≡ same_node one other }
{
    match (one, other) {
        (Some(one), Some(other)) => one == other,
        (None, None) => true,
        _ => false,
    }
}
