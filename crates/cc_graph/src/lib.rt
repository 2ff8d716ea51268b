//! The graph of a collection: nodes, noted references, noted mappings, and which nodes are black.
//!
//! A collection looks at one object after another: each that it comes to is a node, known by the number under which it
//! was added. When it traverses a native it samples its count, and notes each reference that the native holds, as often
//! as it is held. A native whose count is greater than the noted references that lead to it is held from outside the
//! graph: it becomes black, and so does all that a black node leads to. An entry of a weak map is noted as a mapping: the
//! value becomes black where map and key are, each as far as it is a node. A node that is not black at the end is garbage.
//!
//! Nodes, references and mappings are only ever added. Memory is taken by `add_node`, also for the day on which the node
//! becomes black, by `reserve` for references, and by `note_mapping`; no other call takes any.
//!
//! Nodes, references and mappings stand in blocks that never move, and no call walks them: names lead to numbers by a table
//! for each kind of object, in pages by the object's own number; a node keeps how many references lead to it and the places
//! of its first and last one, and a reference that of the next one of its node. So for mappings: a node keeps the places of
//! the first and the last of those whose map or key it is, and each mapping that of its map's next one and that of its
//! key's. Places have 32 bits.
#![tactic(auto)]

mod chain;
mod graph;
mod mapping;
mod node;
mod nodes;
mod numbers;
mod reference;

pub use graph::Graph;
