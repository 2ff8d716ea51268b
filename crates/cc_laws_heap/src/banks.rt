//! The law of banks that are lengthened, which no command does.
ghost use Rattle.std.specs.Prelude.{◌≡◌, ◌≤◌, ℕ, List};
ghost use Rattle.cc_names.specs.Sizes.{most_roots};
ghost use Rattle.cc_model.specs.Banks.{Bank};
ghost use Rattle.cc_model.specs.Graph as graph;
ghost use Rattle.cc_model.specs.Graph.{Graph};
ghost use Rattle.cc_model.specs.Heap.{Heap, lengthen};
ghost use Rattle.cc_model.specs.View.{view};
ghost use Rattle.cc_model.specs.WellFormed.{IsWellFormed};
ghost use Rattle.cc_model.specs.WellMade.{IsWellMade};
ghost use Rattle.cc_model.specs.StandsFor.{StandsFor};
ghost use Rattle.cc_laws_heap.specs.Sound.{IsSound};

/// A register that comes is empty. So heaps with a longer bank are sound, as they were, and the view of them is the same: what
/// registers hold and reach, colours and counts. They stand for the graph whose bank is as long, which is well made.
pub fn banks_may_be_longer()
    ensures sound { (owned : List ℕ) (h : Heap) (b : Bank) (n : ℕ) → n ≤ most_roots → IsSound owned h → IsSound owned (lengthen h b n) }
    ensures seen { (h : Heap) (b : Bank) (n : ℕ) → view (lengthen h b n) ≡ view h }
    ensures well_made { (g : Graph) (b : Bank) (n : ℕ) → n ≤ most_roots → IsWellMade g → IsWellMade (graph.lengthen g b n) }
    ensures stands { (h : Heap) (g : Graph) (b : Bank) (n : ℕ) → n ≤ most_roots → IsWellFormed h → IsWellMade g → StandsFor h g →
        StandsFor (lengthen h b n) (graph.lengthen g b n) }
{}
