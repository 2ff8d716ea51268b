//! The order of a census.
ghost use Rattle.std.specs.Prelude.{◌≡◌, ◌++◌, filter, option_to_list, IfOk, OnOk};
ghost use Rattle.cc_names.specs.Names.{is_native};
ghost use Rattle.cc_model.specs.Listed.{census_order};
ghost use Rattle.cc_model.specs.Slots.{contents};
ghost use Rattle.cc_listed.specs.Found.{is_of_kind};

use cc_names::{Name, NoMemory};
use std::alloc::Global;

/// The names that stand at places, natives first; each part keeps its order.
pub(crate) fn natives_first(alloc: Global, places: &[Option<Name>]) -> Result<Vec<Name>, NoMemory>
    ensures { IfOk result (λ names. names.items ≡ census_order (contents places.now)) }
{
    let mut names = Vec::new(alloc);
    add(&mut names, places, true)?;
    add(&mut names, places, false)?;
    Ok(names)
}

/// Those that stand at places, natives or script objects, go last in their order.
fn add(names: &mut Vec<Name>, places: &[Option<Name>], natives: bool) -> Result<(), NoMemory>
    ensures { OnOk result (names.new.items ≡ names.old.items ++ filter (is_of_kind natives) (contents places.now)) }
{
    for place in places {
        add_one(names, place, natives)?;
    }
    Ok(())
}

/// What stands at a place goes last, where it is a native, or a script object.
fn add_one(names: &mut Vec<Name>, place: &Option<Name>, natives: bool) -> Result<(), NoMemory>
    ensures { OnOk result (names.new.items ≡ names.old.items ++ filter (is_of_kind natives) (option_to_list place.now)) }
{
    if let Some(name) = place {
        if is_native(name) == natives {
            names.reserve(1)?;
            names.push_reserved(*name);
        }
    }
    Ok(())
}

/// Whether a name is that of a native.
fn is_native(name: &Name) -> bool
    ensures { result ≡ is_native name.now }
{
    matches!(name, Name::Native(_))
}
