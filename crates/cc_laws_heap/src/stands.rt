//! Laws of the graph: heaps that stand for one answer as it does, and go on standing for it.
ghost use Rattle.std.specs.Prelude.{◌≡◌, ◌↔◌, ◌<◌, ℕ, IsTrue, List, [], length, Option, None};
ghost use Rattle.cc_lists.specs.Members.{Among};
ghost use Rattle.cc_names.specs.Allowance.{Allowance};
ghost use Rattle.cc_names.specs.declared.name.Name.{Name};
ghost use Rattle.cc_names.specs.declared.register.Reg.TheVariants.{N};
ghost use Rattle.cc_model.specs.declared.command.Command.{Command};
ghost use Rattle.cc_model.specs.declared.item.Event.TheVariants.{Freed};
ghost use Rattle.cc_model.specs.Ranges.{in_range};
ghost use Rattle.cc_model.specs.Checks.{refusal_of, reply_if_taken};
ghost use Rattle.cc_model.specs.Graph as graph;
ghost use Rattle.cc_model.specs.Graph.{Graph, empty_graph, set_register, step};
ghost use Rattle.cc_model.specs.Lawful.{step_with};
ghost use Rattle.cc_model.specs.WellMade.{IsWellMade};
ghost use Rattle.cc_model.specs.Reached.{Reached};
ghost use Rattle.cc_model.specs.Given.{Given, is_usable, MayComeBack};
ghost use Rattle.cc_model.specs.Heap as heap;
ghost use Rattle.cc_model.specs.Heap.{Heap, empty_heap};
ghost use Rattle.cc_model.specs.View.{view, ReachedIn};
ghost use Rattle.cc_model.specs.WellFormed.{IsWellFormed, names_there};
ghost use Rattle.cc_model.specs.Effects.{effects, hold_native};
ghost use Rattle.cc_model.specs.Colours.{HasColourInvariant};
ghost use Rattle.cc_model.specs.StandsFor.{StandsFor};
ghost use Rattle.cc_laws_heap.specs.Sound.{IsSound};

/// Heaps that stand for a graph refuse what the graph refuses, for the same cause, and answer what it answers.
pub fn replies_agree()
    ensures refusals { (h : Heap) (g : Graph) (c : Command) → StandsFor h g →
        refusal_of (heap.objects_of h) c ≡ refusal_of (graph.objects_of g) c }
    ensures replies { (h : Heap) (g : Graph) (c : Command) → StandsFor h g →
        reply_if_taken (heap.objects_of h) c ≡ reply_if_taken (graph.objects_of g) c }
{}

/// A graph that commands made is well made: every name that it mentions was made. This does not hang on the names that have
/// ended, by which a weak register gives what it notes, or nothing.
pub fn graphs_are_well_made()
    ensures start { (limits : Allowance) → IsWellMade (empty_graph limits) }
    ensures step { (g : Graph) (c : Command) → IsWellMade g → IsTrue (in_range c) → IsWellMade (step g c) }
    ensures beside_ended { (ended : List Name) (g : Graph) (c : Command) → IsWellMade g → IsTrue (in_range c) → IsWellMade (step_with ended g c) }
{}

/// Where the heaps stand for a graph, an object of the heaps is reached in the graph exactly where it is
/// reached over the heaps' own lists; and everything that is reached in the graph is in the heaps.
pub fn reached_alike()
    ensures alike { (h : Heap) (g : Graph) (x : Name) → IsWellFormed h → IsWellMade g → StandsFor h g →
        Among x (names_there h) → Reached g x ↔ ReachedIn (view h) x }
    ensures there { (h : Heap) (g : Graph) (x : Name) → StandsFor h g → Reached g x → Among x (names_there h) }
{}

/// The heaps go on standing for the graph: each command that is not refused takes lists that stand for a graph
/// to lists that stand for the graph's step, and frees nothing that is reached afterwards.
pub fn commands_stand()
    ensures start { (limits : Allowance) → StandsFor (empty_heap limits) (empty_graph limits) }
    ensures command { (h : Heap) (g : Graph) (c : Command) → IsSound [] h → IsWellMade g → StandsFor h g → IsTrue (in_range c) →
        refusal_of (heap.objects_of h) c ≡ None → StandsFor (effects h c).heap (step g c) }
    ensures freed { (h : Heap) (g : Graph) (c : Command) (x : Name) → IsSound [] h → IsWellMade g → StandsFor h g → IsTrue (in_range c) →
        refusal_of (heap.objects_of h) c ≡ None → Among (Freed x) (effects h c).events → ¬ (Reached (step g c) x) }
{}

/// A weak reference may bring back a native of the heaps that was not unlinked: it is still given. A native register that holds
/// it from then on, or nothing where there is no such native, leaves the heaps sound and keeps the colour invariant, and they stand for
/// the graph whose register holds the same. Nothing that is freed meanwhile is reached then.
pub fn brought_back_stands()
    ensures given { (h : Heap) (g : Graph) (x : Name) → IsTrue (is_usable h x) → Given h g x }
    ensures sound { (h : Heap) (d : ℕ) (x : Option Name) → IsSound [] h → d < length h.native_registers → MayComeBack h x →
        IsSound [] (hold_native h d x).heap }
    ensures invariant { (h : Heap) (d : ℕ) (x : Option Name) → IsSound [] h → HasColourInvariant (view h) → d < length h.native_registers →
        MayComeBack h x → HasColourInvariant (view (hold_native h d x).heap) }
    ensures well_made { (h : Heap) (g : Graph) (d : ℕ) (x : Option Name) → IsSound [] h → IsWellMade g → StandsFor h g →
        d < length h.native_registers → MayComeBack h x → IsWellMade (set_register g (N d) x) }
    ensures stands { (h : Heap) (g : Graph) (d : ℕ) (x : Option Name) → IsSound [] h → IsWellMade g → StandsFor h g →
        d < length h.native_registers → MayComeBack h x → StandsFor (hold_native h d x).heap (set_register g (N d) x) }
    ensures freed { (h : Heap) (g : Graph) (d : ℕ) (x : Option Name) (y : Name) → IsSound [] h → IsWellMade g → StandsFor h g →
        d < length h.native_registers → MayComeBack h x → Among (Freed y) (hold_native h d x).events → ¬ (Reached (set_register g (N d) x) y) }
{}
