//! Answers that can be but one way, as the items that are left of them, the next one last.
ghost use Rattle.std.specs.Prelude.{◌≡◌, ◌<◌, ◌++◌, ◌∷◌, [], length, reverse, OnOk};
ghost use Rattle.cc_model.specs.Answers.{explaining, items_of, listing};

use cc_model::{Item, Reason, Reply};
use cc_names::{Name, NoMemory};

/// Puts the answer that lists names on an empty recital.
pub(crate) fn list(
    recital: &mut Vec<Item>,
    mut names: Vec<Name>,
    reply: Reply,
) -> Result<(), NoMemory>
    requires { recital.old.items ≡ [] }
    ensures items { OnOk result (reverse recital.new.items ≡ items_of (listing names.items reply)) }
    ensures some { OnOk result (0 < length recital.new.items) }
{
    put(recital, Item::Reply(reply))?;
    while let Some(name) = names.pop() {
        put(recital, Item::Listed(name))?;
    }
    Ok(())
}

/// Puts the answer that has steps on an empty recital.
pub(crate) fn explain(
    recital: &mut Vec<Item>,
    mut steps: Vec<(Name, Reason)>,
    reply: Reply,
) -> Result<(), NoMemory>
    requires { recital.old.items ≡ [] }
    ensures items { OnOk result (reverse recital.new.items ≡ items_of (explaining steps.items reply)) }
    ensures some { OnOk result (0 < length recital.new.items) }
{
    put(recital, Item::Reply(reply))?;
    while let Some(step) = steps.pop() {
        put(recital, Item::Step(step.0, step.1))?;
    }
    Ok(())
}

/// An item goes last.
fn put(recital: &mut Vec<Item>, item: Item) -> Result<(), NoMemory>
    ensures { OnOk result (recital.new.items ≡ recital.old.items ++ item ∷ []) }
{
    if recital.push(item).is_err() {
        return Err(NoMemory);
    }
    Ok(())
}
