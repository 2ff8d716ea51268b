//! What is asked: how an object is reached.
ghost use Rattle.std.specs.Prelude.{◌≡◌, ℕ, List, false, map, IfOk, OnErr, OnOk};
ghost use Rattle.cc_model.specs.Answers.{item_of_step};
ghost use Rattle.cc_model.specs.Derivations.{is_led_to, leads_in, path_to};
ghost use Rattle.cc_model.specs.Telling.{Tells};
ghost use Rattle.cc_heaps.specs.Keyed.{IsInOrder};

use crate::heap_leads::HeapLeads;
use cc_heaps::Heaps;
use cc_model::{Item, Notices, Reason};
use cc_names::{Name, NoMemory};
use cc_search::Reach;
use std::alloc::Global;

/// Why an object is alive: tells the steps by which the registers reach it, each once and itself last. Each step names an object
/// and why it is reached: the register that holds it, the object in one of whose places it stands, or the map and the key of
/// the entry that gives it; what it rests on was told before. `false`, and nothing told, exactly where nothing leads to the
/// object, as where there never was one of that name.
///
/// It changes nothing, and may be called between any two slices of a collection. It takes time and memory in step with what
/// is reached before the object is found.
///
/// `NoMemory` comes before the first step is told.
pub fn why<N: Notices>(
    alloc: Global,
    heaps: &Heaps,
    name: &Name,
    out: &mut N,
) -> Result<bool, NoMemory>
    requires order { (owned : List ℕ) × IsInOrder owned heaps.now }
    ensures found { IfOk result (λ b. b ≡ is_led_to (leads_in heaps.now.heap) name.now) }
    ensures told { OnOk result (Tells (N.telling out.old) (N.telling out.new) (map item_of_step (path_to (leads_in heaps.now.heap) name.now))) }
    ensures nothing { IfOk result (λ b. b ≡ false → N.telling out.new ≡ N.telling out.old) }
    ensures err { OnErr result (N.telling out.new ≡ N.telling out.old) }
{
    let mut reach = Reach::new(alloc);
    reach.seek(&HeapLeads { heaps }, name)?;
    if !reach.has(name) {
        return Ok(false);
    }
    let path = reach.path_to(alloc, name)?;
    tell(&path, out);
    Ok(true)
}

/// Tells steps, one after another.
fn tell<N: Notices>(path: &[(Name, Reason)], out: &mut N)
    ensures { Tells (N.telling out.old) (N.telling out.new) (map item_of_step path.now) }
{
    for i in 0..path.len() {
        let (name, reason) = path[i];
        out.tell(Item::Step(name, reason));
    }
}
