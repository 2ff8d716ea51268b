//! White script objects swept.
ghost use Rattle.std.specs.Prelude.{◌≡◌, ◌≤◌, ◌==◌, ℕ, List, [], count_by, map, Some, option_map, option_to_list, IsTrue, if◌then◌else◌, ◌<◌};
ghost use Rattle.cc_model.specs.Telling.{TellsEvents};
ghost use Rattle.cc_model.specs.Colours.{HasColourInvariant};
ghost use Rattle.cc_model.specs.Sweep.{sweep, sweeps};
ghost use Rattle.cc_model.specs.View.{view};
ghost use Rattle.cc_laws_heap.specs.Marks.{AreMarksClosed, IsBlackClosed};
ghost use Rattle.cc_script.specs.Objects.{Object, is_there, object_at, without_object};
ghost use Rattle.cc_counted.specs.Counts.{key_left, the_number};
ghost use Rattle.cc_counted.specs.Owning.{Transfers};
ghost use Rattle.cc_heaps.specs.Keyed.{IsInOrder};
ghost use Rattle.cc_weakmaps.specs.Living.{living};
ghost use Rattle.cc_marking.specs.Marking.{AreEntriesThere};
ghost use Rattle.cc_heaps.specs.Sweeping.{are_some, is_marked, is_white, let_native_go, native_keys, native_keys_where, not_white, sweep_where, swept_counts, white_names, whites, OwnEach};
ghost use Rattle.cc_heaps.specs.Standing.{StillStands};
ghost use Rattle.cc_heaps.specs.Keeping.{KeepsHeaps};

use crate::heaps::Heaps;
use cc_counted::Counted;
use cc_model::{Event, Item, Notices};
use cc_names::{Colour, NKey, SKey};
use cc_script::Scripts;
use cc_weakmaps::WeakMaps;

// A swept reflector's native forgets it, and the reference that the reflector owned is given up, with all that it deletes.
fn let_native_go<N: Notices>(counted: &mut Counted, native: Option<NKey>, out: &mut N)
    requires owned { OwnEach counted.old (option_to_list (option_map (λ k. k.0) native)) counted.old }
    ensures natives { counted.new ≡ (let_native_go counted.old counted.old (option_map (λ k. k.0) native)).counts }
    ensures told { TellsEvents (N.telling out.old) (N.telling out.new) (let_native_go counted.old counted.old (option_map (λ k. k.0) native)).events }
    ensures owned { Transfers (map (the_number counted.old) (option_to_list (option_map (λ k. k.0) native))) [] counted.old counted.new }
{
    if let Some(key) = native {
        counted.set_reflector(key, None);
        counted.release(key, out);
    }
}

// Takes out an object where it is white: it is told before, and a reflector lets its native go after. Whether it was.
fn sweep_one<N: Notices>(
    counted: &mut Counted,
    scripts: &mut Scripts,
    key: SKey,
    out: &mut N,
) -> bool
    requires live { IsTrue (is_there scripts.old key.0) }
    requires owned { (o : Object) → object_at scripts.old key.0 ≡ Some o → OwnEach counted.old (native_keys_where (is_white o) o) counted.old }
    ensures white { option_map is_white (object_at scripts.old key.0) ≡ Some result }
    ensures left { scripts.new ≡ (if result then without_object scripts.old key.0 else scripts.old) }
    ensures natives { (o : Object) → object_at scripts.old key.0 ≡ Some o → counted.new ≡ (sweep_where result counted.old counted.old o).counts }
    ensures told { (o : Object) → object_at scripts.old key.0 ≡ Some o →
        TellsEvents (N.telling out.old) (N.telling out.new) (sweep_where result counted.old counted.old o).events }
    ensures owned { (o : Object) → object_at scripts.old key.0 ≡ Some o →
        Transfers (map (the_number counted.old) (native_keys_where result o)) [] counted.old counted.new }
{
    match scripts.colour(key) {
        Colour::White => {
            let native = scripts.native_of(key);
            out.tell(Item::Event(Event::Freed(scripts.name(key))));
            scripts.remove(key);
            let_native_go(counted, native, out);
            true
        }
        Colour::Gray | Colour::Black => false,
    }
}

// Sweeps the white objects, in order of making. Whether there were any.
fn sweep_whites<N: Notices>(counted: &mut Counted, scripts: &mut Scripts, out: &mut N) -> bool
    requires one { (key : ℕ) → count_by (λ o. o.key == key) scripts.old ≤ 1 }
    requires owned { OwnEach counted.old (native_keys (whites scripts.old)) counted.old }
    ensures swept { result ≡ are_some (white_names scripts.old) }
    ensures left { scripts.new ≡ not_white scripts.old }
    ensures natives { counted.new ≡ (swept_counts counted.old scripts.old).counts }
    ensures told { TellsEvents (N.telling out.old) (N.telling out.new) (swept_counts counted.old scripts.old).events }
{
    let mut swept = false;
    let mut at = scripts.first();
    while let Some(key) = at {
        at = scripts.next(key);
        swept |= sweep_one(counted, scripts, key, out);
    }
    swept
}

// Drops the entries of which the map or the key is white.
fn drop_dead(weak: &mut WeakMaps, scripts: &Scripts)
    requires { AreEntriesThere scripts.now weak.old }
    ensures { weak.new ≡ living (is_marked scripts.now) weak.old }
{
    weak.drop_dead(|key| scripts.colour(key) != Colour::White);
}

// Drops the entries of which the map or the key is white, and then sweeps the white objects. Whether there were any: where
// all live, neither entries nor objects are gone over.
fn sweep_all<N: Notices>(
    weak: &mut WeakMaps,
    counted: &mut Counted,
    scripts: &mut Scripts,
    out: &mut N,
) -> bool
    requires entries { AreEntriesThere scripts.old weak.old }
    requires one { (key : ℕ) → count_by (λ o. o.key == key) scripts.old ≤ 1 }
    requires owned { OwnEach counted.old (native_keys (whites scripts.old)) counted.old }
    ensures living { weak.new ≡ living (is_marked scripts.old) weak.old }
    ensures swept { result ≡ are_some (white_names scripts.old) }
    ensures left { scripts.new ≡ not_white scripts.old }
    ensures natives { counted.new ≡ (swept_counts counted.old scripts.old).counts }
    ensures told { TellsEvents (N.telling out.old) (N.telling out.new) (swept_counts counted.old scripts.old).events }
{
    if !scripts.has_colour(Colour::White) {
        return false;
    }
    drop_dead(weak, scripts);
    sweep_whites(counted, scripts, out)
}

impl Heaps {
    /// Drops the entries whose map or key is white, and then sweeps the white script objects, in order of making: each is
    /// told and removed. A reflector's native forgets it, and the reference that it owned is given up, with all that it
    /// deletes, before the next object is swept. Whether something was swept.
    ///
    /// Called where the marks are closed, as those of `mark_scripts` are: what is not white leads to nothing white. Takes no
    /// memory.
    pub fn sweep<N: Notices>(&mut self, out: &mut N) -> bool
        requires order { (owned : List ℕ) × IsInOrder owned self.old }
        requires closed { AreMarksClosed self.old.heap }
        ensures swept { result ≡ sweeps self.old.heap }
        ensures heap { self.new.heap ≡ (sweep self.old.heap).heap }
        ensures told { TellsEvents (N.telling out.old) (N.telling out.new) (sweep self.old.heap).events }
        ensures natives { self.new.keys ≡ map (key_left self.new.heap) self.old.keys }
        ensures kept { KeepsHeaps [] [] self.old self.new }
        ensures stands { StillStands self.old.heap self.new.heap }
        ensures invariant { IsBlackClosed self.old.heap → HasColourInvariant (view self.new.heap) }
    {
        sweep_all(&mut self.weak, &mut self.counted, &mut self.scripts, out)
    }
}
