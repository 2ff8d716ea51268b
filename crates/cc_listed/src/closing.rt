//! Places that were emptied are given back: the names close up.
ghost use Rattle.std.specs.Prelude.{◌≡◌, ℕ, ◌+◌, ◌*◌, ◌<◌, ◌≤◌, [], ◌∷◌, ◌++◌, length, take, None, OnOk};
ghost use Rattle.cc_model.specs.Slots.{contents};
ghost use Rattle.cc_listed.specs.Found.{AreFound, slot_at};

use cc_names::{Name, NoMemory};
use cc_pages::ByName;

/// How many places more than twice the names there may be before the names close up.
const SPARE: usize = 16;

/// The names close up where there are more than twice as many places, and some.
///
/// This costs no more than taking out the names whose places are empty did.
pub(crate) fn close_up_if_sparse(
    places: &mut Vec<Option<Name>>,
    by_name: &mut ByName,
    names: usize,
) -> Result<(), NoMemory>
    requires found { AreFound places.old.items by_name.old }
    requires names { names ≡ length (contents places.old.items) }
    ensures found { AreFound places.new.items by_name.new }
    ensures names { contents places.new.items ≡ contents places.old.items }
    ensures few { OnOk result (length places.new.items ≤ 2 * names + 16) }
{
    if places.len() - names <= names + SPARE {
        return Ok(());
    }
    close_up(places, by_name)
}

/// The names go to the first places, in the order in which they stand, and all other places are given back.
///
/// After `NoMemory` some of them may stand where they stood.
fn close_up(places: &mut Vec<Option<Name>>, by_name: &mut ByName) -> Result<(), NoMemory>
    requires { AreFound places.old.items by_name.old }
    ensures found { AreFound places.new.items by_name.new }
    ensures names { contents places.new.items ≡ contents places.old.items }
    ensures closed { OnOk result (length places.new.items ≡ length (contents places.old.items)) }
{
    let mut end = 0;
    for place in 0..places.len() {
        if let Some(name) = places[place] {
            move_forward(places, by_name, name, place, end)?;
            end += 1;
        }
    }
    places.truncate(end);
    Ok(())
}

/// A name goes to a place from which on there was none before it. `NoMemory` changes nothing.
fn move_forward(
    places: &mut Vec<Option<Name>>,
    by_name: &mut ByName,
    name: Name,
    from: usize,
    to: usize,
) -> Result<(), NoMemory>
    requires found { AreFound places.old.items by_name.old }
    requires name { slot_at places.old.items from ≡ Some name }
    requires order { to ≤ from }
    requires empty { (k : ℕ) → to ≤ k → k < from → slot_at places.old.items k ≡ None }
    ensures found { AreFound places.new.items by_name.new }
    ensures names { contents places.new.items ≡ contents places.old.items }
    ensures empty { OnOk result ((k : ℕ) → to < k → k ≤ from → slot_at places.new.items k ≡ None) }
    ensures front { OnOk result (take (to + 1) places.new.items ≡ take to places.old.items ++ Some name ∷ []) }
    ensures places { length places.new.items ≡ length places.old.items }
{
    by_name.set(name, to)?;
    places[from] = None;
    places[to] = Some(name);
    Ok(())
}
