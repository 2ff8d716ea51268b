//! A script object as it was made and written since.
ghost use Rattle.std.specs.Prelude.{◌≡◌, option_map};
ghost use Rattle.cc_model.specs.Checks.{slots_or_none};
ghost use Rattle.cc_model.specs.Graph.{delegate_of_script, slots_of_script, with_script_slot};
ghost use Rattle.cc_object_graph.specs.Made.{script_made};

use crate::slots::Slots;
use cc_names::Name;

/// A script object with a number of its own.
#[derive(Drop)]
pub(crate) enum MadeScript {
    /// A plain object, with its slots.
    Plain(Slots),
    /// A weak map. Its entries stand apart.
    Map,
    /// A proxy of its delegate.
    Proxy(Name),
}

impl MadeScript {
    /// Its slots; a proxy has none, and a weak map has no such list.
    pub(crate) fn slots(&self) -> Option<&[Option<Name>]>
        ensures { option_map (λ s. s.now) result ≡ slots_of_script (script_made self.now) }
    {
        match self {
            MadeScript::Plain(slots) => Some(slots.as_slice()),
            MadeScript::Map => None,
            MadeScript::Proxy(_) => Some(&[]),
        }
    }

    /// Its slots; no slots where it is a weak map.
    pub(crate) fn all_slots(&self) -> &[Option<Name>]
        ensures { result.now ≡ slots_or_none (slots_of_script (script_made self.now)) }
    {
        match self.slots() {
            Some(slots) => slots,
            None => &[],
        }
    }

    /// Its delegate, where it is a proxy.
    pub(crate) fn delegate(&self) -> Option<Name>
        ensures { result ≡ delegate_of_script (script_made self.now) }
    {
        match self {
            MadeScript::Proxy(delegate) => Some(*delegate),
            MadeScript::Plain(_) => None,
            MadeScript::Map => None,
        }
    }

    /// Writes a slot. A weak map and a proxy have none to write.
    pub(crate) fn write(&mut self, i: usize, content: Option<Name>)
        ensures { script_made self.new ≡ with_script_slot i content (script_made self.old) }
    {
        if let MadeScript::Plain(slots) = self {
            slots.write(i, content);
        }
    }
}
