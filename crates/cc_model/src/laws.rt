//! Laws of the definitions: what is reached is a least set, bounded recursions do not end early, texts follow one another.

ghost use Rattle.std.specs.Prelude.{◌≡◌, ◌≢◌, ◌↔◌, ◌<◌, ◌≤◌, ℕ, suc, IsTrue, List, [], ◌++◌, length};
ghost use Rattle.cc_lists.specs.Members.{Among, has};
ghost use Rattle.cc_lists.specs.Least.{Least};
ghost use Rattle.cc_names.specs.declared.name.Name.{Name};
ghost use Rattle.cc_names.specs.Names.{same_name};
ghost use Rattle.cc_model.specs.Graph.{Graph};
ghost use Rattle.cc_model.specs.Reached.{Reached, reach_rules, reached_names};
ghost use Rattle.cc_model.specs.Heap.{Heap, Outcome};
ghost use Rattle.cc_model.specs.Cascade.{drained};
ghost use Rattle.cc_model.specs.Sweep.{rounds};
ghost use Rattle.cc_model.specs.End.{went_on};
ghost use Rattle.cc_model.specs.Collecting.{Machine, enough_units, no_units, to_the_end, units_done};
ghost use Rattle.cc_model.specs.declared.item.Item.{Item};
ghost use Rattle.cc_model.specs.Telling.{Telling, Tells};

/// What the registers of a graph reach, by one rule each for registers, edges and entries, is the least set
/// of the graph's rules, and the list of reached names has exactly it.
pub fn reached_is_least()
    ensures least { (g : Graph) (x : Name) → Reached g x ↔ Least (reach_rules g) x }
    ensures list { (g : Graph) (x : Name) → Reached g x ↔ Among x (reached_names g) }
    ensures decided { (g : Graph) (x : Name) → IsTrue (has same_name (reached_names g) x) ↔ Reached g x }
{}

/// The recursions on a number do not end early: a cascade leaves no native waiting, more rounds of a script
/// collection change nothing, and a collection is done within the units that it is given.
pub fn bounds_suffice()
    ensures cascade { (h : Heap) (k : ℕ) → (drained h k).queue ≡ [] }
    ensures rounds { (n : ℕ) (o : Outcome) → length o.heap.scripts < n →
        rounds n o ≡ rounds (suc (length o.heap.scripts)) o }
    ensures collection { (m : Machine) → (to_the_end (no_units m)).progress ≢ went_on }
    ensures units { (n : ℕ) (m : Machine) → enough_units m ≤ n → units_done n (no_units m) ≡ to_the_end (no_units m) }
{}

/// Items told one after the other are told together.
pub fn telling_composes()
    ensures nothing { (a : Telling) → Tells a a [] }
    ensures one_then_other { (a b c : Telling) (x y : List Item) → Tells a b x → Tells b c y → Tells a c (x ++ y) }
{}
