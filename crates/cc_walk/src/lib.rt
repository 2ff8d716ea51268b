//! A set of keys for a walk: who is in it, and which of its members were given already.
//!
//! A key comes in once and waits. Each call of `give` answers the member that has waited longest, which is given from then
//! on and stays in the set. So who adds what each given member leads to, until none waits, comes to all that the first
//! ones lead to, each once.
//!
//! The members stand in one chain through a store (`LinkStore` of `cc_chain`), those that were given first; beside its ends
//! the list has the first that waits. So no call takes memory, a key joins or leaves by a look at its neighbours, and
//! whether it is in the set is told by its link. A set is emptied by one write for each member.
#![tactic(auto)]

mod walk_list;

pub use walk_list::WalkList;
