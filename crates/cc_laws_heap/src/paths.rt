//! Laws of paths: steps lead to an object exactly where it is reached, they are a path, and heaps have the graph's.
ghost use Rattle.std.specs.Prelude.{◌≡◌, ◌↔◌, IsTrue, List, []};
ghost use Rattle.cc_names.specs.declared.name.Name.{Name};
ghost use Rattle.cc_model.specs.Answers.{Step};
ghost use Rattle.cc_model.specs.Graph.{Graph};
ghost use Rattle.cc_model.specs.WellMade.{IsWellMade};
ghost use Rattle.cc_model.specs.Reached.{Reached};
ghost use Rattle.cc_model.specs.Heap.{Heap};
ghost use Rattle.cc_model.specs.View.{view, ReachedIn};
ghost use Rattle.cc_model.specs.WellFormed.{IsWellFormed};
ghost use Rattle.cc_model.specs.StandsFor.{StandsFor};
ghost use Rattle.cc_model.specs.Derivations.{is_led_to, leads_in, leads_made, path_to, why_of};
ghost use Rattle.cc_model.specs.Paths.{IsPathTo};

/// Steps lead to an object exactly where the registers reach it, in a graph and in the heaps. In a graph they are a
/// path there: each step follows from the steps before it as the object is reached. There are none to an object that is
/// not reached, and no path either.
pub fn paths_are_right()
    ensures led { (g : Graph) (x : Name) → IsWellMade g → IsTrue (is_led_to (leads_made g) x) ↔ Reached g x }
    ensures led_in { (h : Heap) (x : Name) → IsWellFormed h → IsTrue (is_led_to (leads_in h) x) ↔ ReachedIn (view h) x }
    ensures path { (g : Graph) (x : Name) → IsWellMade g → Reached g x → IsPathTo g x (path_to (leads_made g) x) }
    ensures no_steps { (g : Graph) (x : Name) → ¬ (Reached g x) → path_to (leads_made g) x ≡ [] }
    ensures no_path { (g : Graph) (x : Name) (steps : List Step) → IsPathTo g x steps → Reached g x }
{}

/// Heaps that stand for a graph derive what the graph derives, by the same steps in the same order, and so answer `why`
/// as it does.
pub fn paths_agree()
    ensures steps { (h : Heap) (g : Graph) (x : Name) → IsWellFormed h → IsWellMade g → StandsFor h g →
        path_to (leads_in h) x ≡ path_to (leads_made g) x }
    ensures led { (h : Heap) (g : Graph) (x : Name) → IsWellFormed h → IsWellMade g → StandsFor h g →
        is_led_to (leads_in h) x ≡ is_led_to (leads_made g) x }
    ensures answers { (h : Heap) (g : Graph) (x : Name) → IsWellFormed h → IsWellMade g → StandsFor h g →
        why_of (leads_in h) x ≡ why_of (leads_made g) x }
{}
