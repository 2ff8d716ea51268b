//! Commands, items and their texts, and every definition of the collector.
//!
//! `specs/` says what this project promises, in the order in which one would explain it: what is written
//! and asked, the object graph from which nothing is freed, when a transcript is one of that graph, then
//! the two heaps as lists and what each command and each unit of a collection does to them, the plain run
//! of a list of asks, and the three relations by which it is proved right. `docs/DEFINITIONS.md` tells
//! each in plain words.
//!
//! The code here is small: the types that a command line and an output line stand for, the text of an
//! item, the trait of those that are told items, and three of them; and the checks of a command, over the
//! trait of those whose registers and slots they read. The functions with empty bodies are laws.
#![tactic(auto)]

mod checks;
mod command;
mod counter;
mod dialect;
mod item;
mod item_list;
mod laws;
mod notebook;
mod notices;
mod reads;
mod sums;

pub use checks::refusal;
pub use command::Command;
pub use counter::Counter;
pub use dialect::Dialect;
pub use item::{Event, Item, Reason, Refusal, Reply, write_item};
pub use item_list::ItemList;
pub use laws::{bounds_suffice, reached_is_least, telling_composes};
pub use notebook::Notebook;
pub use notices::Notices;
pub use reads::Reads;
pub use sums::Sums;
