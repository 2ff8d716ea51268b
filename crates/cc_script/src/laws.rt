//! What the words of this crate's contracts mean.

ghost use Rattle.std.specs.Prelude.{◌↔◌, ◌==◌, ℕ, List, IsTrue};
ghost use Rattle.cc_lists.specs.Members.{Among, has};
ghost use Rattle.cc_names.specs.declared.kind.Colour.{Colour};
ghost use Rattle.cc_script.specs.Objects.{Object, raised, raised_among};
ghost use Rattle.cc_script.specs.Walking.{IsReachedOverSlots, keys_reached};

/// What these keys reach over slots is the least set that has them and is closed under slots, and from proxies to their
/// delegates. So `mark_from` and `expose`
/// raise each object that is reached, to at least their colour, and leave every other one as it was.
pub fn raised_is_least()
    ensures list { (objects : List Object) (keys : List ℕ) (key : ℕ) →
        IsTrue (has ◌==◌ (keys_reached objects keys) key) ↔ IsReachedOverSlots objects keys key }
    ensures raised { (objects : List Object) (keys : List ℕ) (to : Colour) (o : Object) → Among o objects → IsReachedOverSlots objects keys o.key →
        Among (raised to o) (raised_among (keys_reached objects keys) to objects) }
    ensures kept { (objects : List Object) (keys : List ℕ) (to : Colour) (o : Object) → Among o objects → ¬ (IsReachedOverSlots objects keys o.key) →
        Among o (raised_among (keys_reached objects keys) to objects) }
{}
