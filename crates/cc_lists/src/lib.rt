//! Lists in general: what stands in them, how often, and least sets by rules.
//!
//! Nothing here speaks of heaps. The crates above cite the lemmas in `proofs/`; the functions below
//! have empty bodies, and each is a law that its clauses state.
#![tactic(auto)]

ghost use Rattle.std.specs.Prelude.{◌↔◌, ◌<◌, ◌≤◌, Bool, IsTrue, List};
ghost use Rattle.cc_lists.specs.Members.{Among, IsEqualityTest, has};
ghost use Rattle.cc_lists.specs.Counts.{Counting, IsNowhereMoreOften, first_count, first_has, second_count, second_has};
ghost use Rattle.cc_lists.specs.Least.{Least, Rule, closure};

/// The test of membership tells what stands in a list.
pub fn membership_is_decided<T>()
    ensures { (same : T → T → Bool) (xs : List T) (x : T) → IsEqualityTest same → IsTrue (has same xs x) ↔ Among x xs }
{}

/// The closure of a list of rules has exactly the values that the rules derive.
pub fn closure_is_least<T>()
    ensures same { (same : T → T → Bool) (rules : List (Rule T)) (x : T) → IsEqualityTest same →
        Among x (closure same rules) ↔ Least rules x }
    ensures decided { (same : T → T → Bool) (rules : List (Rule T)) (x : T) → IsEqualityTest same →
        IsTrue (has same (closure same rules) x) ↔ Least rules x }
{}

/// A list that has each key at most as often as another is at most as long, and shorter where one key is rarer.
pub fn rarer_is_shorter<A, B, Y>()
    ensures below { (c : Counting A B Y) (xs : List A) (ys : List B) → IsNowhereMoreOften c xs ys →
        first_count c xs ≤ second_count c ys }
    ensures less { (c : Counting A B Y) (xs : List A) (ys : List B) (w : Y) → IsNowhereMoreOften c xs ys →
        first_has c xs w < second_has c ys w → first_count c xs < second_count c ys }
{}
