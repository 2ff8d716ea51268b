//! Commands leave what is doomed doomed.

ghost use Rattle.std.specs.Prelude.{List, []};
ghost use Rattle.cc_names.specs.declared.name.Name.{Name};
ghost use Rattle.cc_model.specs.declared.command.Command.{Command};
ghost use Rattle.cc_model.specs.Heap.{Heap};
ghost use Rattle.cc_model.specs.View.{view};
ghost use Rattle.cc_model.specs.Snapshot.{Snapshot};
ghost use Rattle.cc_model.specs.Effects.{effects};
ghost use Rattle.cc_laws_heap.specs.Sound.{IsSound};
ghost use Rattle.cc_laws_run.specs.Doomed.{IsDoomed, KeepsReflectors};

/// Commands touch no garbage: what is doomed stays so, whatever commands come between the units of a collection.
pub fn commands_keep_doomed()
    ensures { (h : Heap) (s : Snapshot) (c : Command) (ds : List Name) → IsSound [] h → KeepsReflectors ds →
        IsDoomed (view h) s ds → IsDoomed (view (effects h c).heap) s ds }
{}
