//! What the words of this crate's contracts mean.
ghost use Rattle.std.specs.Prelude.{◌≡◌, ◌≢◌, ◌==◌, ◌≤◌, ℕ, List, [], ◌∷◌, ◌++◌, Some, drop, length};
ghost use Rattle.cc_lists.specs.Members.{Among, without};
ghost use Rattle.cc_lists.specs.Walks.{first_of};
ghost use Rattle.cc_chain.specs.Links.{AreBelow, Links, SameLinks};
ghost use Rattle.cc_chain.specs.Chains.{AllDiffer, IsChain, behind, walked};

use crate::chain::Chain;

/// A walk that stands on a key goes on from it while other keys leave and new ones go last: `behind` is what it has yet
/// to come to, less the keys that left, and then the new ones.
pub fn a_walk_goes_on()
    ensures leaves { (keys : List ℕ) (key other : ℕ) → other ≢ key →
        behind key (without ◌==◌ other keys) ≡ without ◌==◌ other (behind key keys) }
    ensures goes_last { (keys : List ℕ) (key new : ℕ) → Among key keys → behind key (keys ++ new ∷ []) ≡ behind key keys ++ new ∷ [] }
{}

/// A chain is told by the links alone: keys that are in no list may be made and let go.
pub fn a_chain_is_told_by_links<R>()
    ensures { (links new : Links) (chain : Chain R) (keys : List ℕ) → SameLinks links new → IsChain links chain keys →
        IsChain new chain keys }
{}

/// A walk from the first key, from each to the one after it, comes to every key once, in order; so a chain and its store
/// are one list alone.
pub fn a_walk_gives_the_list<R>()
    ensures begins { (keys : List ℕ) (key : ℕ) → first_of keys ≡ Some key → behind key keys ≡ drop 1 keys }
    ensures steps { (keys : List ℕ) (key after : ℕ) → AllDiffer keys → first_of (behind key keys) ≡ Some after →
        behind after keys ≡ drop 1 (behind key keys) }
    ensures read { (links : Links) (chain : Chain R) (keys : List ℕ) (n : ℕ) → IsChain links chain keys → length keys ≤ n →
        walked n links chain.first ≡ keys }
    ensures bounded { (links : Links) (chain : Chain R) (keys : List ℕ) (n : ℕ) → IsChain links chain keys → AreBelow n links →
        walked n links chain.first ≡ keys }
    ensures one_list { (links : Links) (chain : Chain R) (first second : List ℕ) → IsChain links chain first → IsChain links chain second →
        first ≡ second }
{}
