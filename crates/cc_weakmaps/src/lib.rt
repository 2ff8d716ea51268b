//! The entries of weak maps: which value a key has in which map.
//!
//! A weak map holds none of its keys, and a value only as long as both the map and its key live: whether they do is for
//! those above to say (`drop_dead` asks them). So its entries are no slots, and stand here, those of all maps in one list,
//! in the order in which they were first set. There is at most one for each map and key. Maps, keys and values are script
//! objects, by the keys at which they stand in their heap. Where a key is a proxy, its entry has the key's delegate too.
//!
//! An index leads from an object to the entries that have it for their map, their key or their delegate (`first_with`,
//! `next_with`): who
//! marks an object looks at these alone.
//!
//! `set` takes memory for a new entry; no other call takes any. The index keeps places in 32 bits: where that of a new entry
//! needs more, `set` answers `NoMemory`.
#![tactic(auto)]

mod entry;
mod entry_list;
mod index;
mod lasts;
mod links;
mod weak_maps;

pub use weak_maps::WeakMaps;
