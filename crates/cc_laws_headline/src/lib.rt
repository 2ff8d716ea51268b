//! The headline in its parts: what a lawful and quiet transcript says, line by line, of an object graph from which
//! nothing is freed.
//!
//! The definitions of lawful and quiet go along the asks (`cc_model`, `specs/Lawful` and `specs/Quiet`). Here each part of
//! the sentence is said of each line by itself (`specs/Headline`: `TellsOfAGraph`, over `specs/Exchanges`), and a law says that
//! a lawful and quiet transcript has all parts.
#![tactic(auto)]

mod headline;

pub use headline::lawful_transcripts_tell_of_a_graph;
