//! Laws of commands: counts are those of the references, and the colour invariant holds.
ghost use Rattle.std.specs.Prelude.{◌≡◌, ◌+◌, ◌≤◌, ℕ, IsTrue, List, [], None, length};
ghost use Rattle.cc_lists.specs.Members.{Among};
ghost use Rattle.cc_names.specs.Allowance.{Allowance};
ghost use Rattle.cc_names.specs.Sizes.{most_references};
ghost use Rattle.cc_model.specs.declared.command.Command.{Command};
ghost use Rattle.cc_model.specs.Ranges.{in_range};
ghost use Rattle.cc_model.specs.Checks.{refusal_of};
ghost use Rattle.cc_model.specs.Counts.{times};
ghost use Rattle.cc_model.specs.Heap.{Heap, HeapNative, empty_heap, objects_of};
ghost use Rattle.cc_model.specs.View.{view};
ghost use Rattle.cc_model.specs.Effects.{effects};
ghost use Rattle.cc_model.specs.Colours.{HasColourInvariant};
ghost use Rattle.cc_laws_heap.specs.Sound.{IsSound};

/// Each command that is not refused leaves the heaps sound: well formed, each count that of the references,
/// none of them zero. In any sound heaps, so after a cascade and a collection too, a count is bounded by what can refer
/// to a native and by how often that native is owned.
pub fn commands_keep_counts()
    ensures start { (limits : Allowance) → IsSound [] (empty_heap limits) }
    ensures command { (h : Heap) (c : Command) → IsSound [] h → IsTrue (in_range c) →
        refusal_of (objects_of h) c ≡ None → IsSound [] (effects h c).heap }
    ensures bound { (owned : List ℕ) (h : Heap) (n : HeapNative) → IsSound owned h → h.limits.natives ≤ 1000000 →
        Among n h.natives → n.count ≤ most_references (length h.native_registers) + times n.number owned }
{}

/// Each command that is not refused keeps the colour invariant: no black script object has a gray one in a
/// slot, script registers hold black ones, none is white.
pub fn commands_keep_colours()
    ensures start { (limits : Allowance) → HasColourInvariant (view (empty_heap limits)) }
    ensures command { (h : Heap) (c : Command) → IsSound [] h → HasColourInvariant (view h) → IsTrue (in_range c) →
        refusal_of (objects_of h) c ≡ None → HasColourInvariant (view (effects h c).heap) }
{}
