//! Nothing comes back, through calls in any order.
ghost use Rattle.std.specs.Prelude.{◌≡◌, ◌≢◌, ◌+◌, ℕ, false, Option, Some};
ghost use Rattle.cc_lists.specs.Members.{Among};
ghost use Rattle.cc_names.specs.declared.name.Name.{Name};
ghost use Rattle.cc_names.specs.Names.{is_reflector, native, object};
ghost use Rattle.cc_model.specs.Telling.{Telling};
ghost use Rattle.cc_model.specs.WellFormed.{names_there};
ghost use Rattle.cc_laws_told.specs.Lasting.{all_freed};
ghost use Rattle.cc_heaps.specs.Leaving.{HasLeft};
ghost use Rattle.cc_host.specs.declared.object.Object.{Object};
ghost use Rattle.cc_host.specs.declared.stop.Stop.TheVariants.{Gone};
ghost use Rattle.cc_host.specs.Hosted.{Hosted, IsKept};
ghost use Rattle.cc_host.specs.Stops.{stop_at};
ghost use Rattle.cc_host.specs.Lasting.{Lasts, Later, TellsFreedOnce, WasGiven};
ghost use Rattle.cc_host.specs.Freed.{Leaves};

/// A law, over any calls in any order, each of which keeps what its `lasts` says: nothing comes back. The reflector of a native is
/// left aside: where it was freed, `wrap` makes it again.
///
/// What was given and is gone is gone for ever, whatever is handed in (`gone`). What a call or a collection told as freed has left,
/// and is gone for each object of its name (`freed`). It is there never again, so no later call can let it leave a second time
/// (`away`, `once`). And no number is given twice (`numbers`).
pub fn nothing_comes_back()
    ensures composes { (but : Option Name) (a b c : Hosted) → Lasts but a b → Lasts but b c → Lasts but a c }
    ensures gone { (a b : Hosted) (x : Object) → Later a b → is_reflector x.name ≡ false → WasGiven a.heaps.heap x.name →
        stop_at a x ≡ Some Gone → stop_at b x ≡ Some Gone }
    // a name that is not there comes by no call
    ensures away { (a b : Hosted) (x : Name) → Later a b → is_reflector x ≡ false → WasGiven a.heaps.heap x →
        ¬ (Among x (names_there a.heaps.heap)) → ¬ (Among x (names_there b.heaps.heap)) }
    // what is told as freed leaves, by `tells` of a call (`AreAllThatLeft`) and by `freed_once` of a collection
    ensures by_calls { (a b : Hosted) (number : ℕ) → HasLeft a.heaps.heap b.heaps.heap number → Leaves (native number) a b }
    ensures by_collections { (a b : Hosted) (before after : Telling) (x : Name) (told : TellsFreedOnce a b before after) →
        Among x (all_freed told.events) → Leaves x a b }
    ensures freed { (a b : Hosted) (x : Object) → IsKept a → IsKept b → is_reflector x.name ≡ false → Leaves x.name a b → x.mark ≡ b.mark →
        stop_at b x ≡ Some Gone }
    ensures once { (a b c d : Hosted) (x : Name) → IsKept a → is_reflector x ≡ false → Leaves x a b → Later a b → Later b c → ¬ (Leaves x c d) }
    // what is made next has none of the names that were given
    ensures numbers { (a b : Hosted) (x : Name) → Later a b → WasGiven a.heaps.heap x →
        (x ≢ native (b.heaps.heap.natives_made + 1)) × (x ≢ object (b.heaps.heap.scripts_made + 1)) }
{}
