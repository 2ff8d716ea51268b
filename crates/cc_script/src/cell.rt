//! An object in two parts: what it is, and what marking looks at.
ghost use Rattle.std.specs.Prelude.{◌≡◌};
ghost use Rattle.cc_script.specs.Cells.{nothing};
ghost use Rattle.cc_script.specs.Objects.{is_below as is_below_it};

use crate::being::Being;
use cc_chain::Neighbours;
use cc_names::{Colour, SKey};
use std::alloc::Global;
use std::marker::Model;
use std::mem::size_of;

/// What an object is, as it stands in the slab.
#[derive(Drop)]
pub(crate) struct Cell {
    pub(crate) being: Being,
    /// Its neighbours in order of making.
    pub(crate) order: Neighbours,
    /// Its neighbours in a walk over both heaps, while it is in it.
    pub(crate) walk: Neighbours,
}

// the slab adds 8 bytes to each
const _: () = prove!(size_of::<Cell>() == 36);

impl Model for Cell {
    ghost use Rattle.cc_script.specs.Beings.{delegate_key_of, kind_of, name_of, native_key_of};
    ghost use Rattle.cc_script.specs.Cells.{Label};

    ghost Value = { Label };

    ghost view = { λ c. record {
      name = name_of c.being;
      kind = kind_of c.being;
      native = native_key_of c.being;
      delegate = delegate_key_of c.being;
      order = c.order;
      walk = c.walk;
    } };
}

/// What marking looks at of an object.
#[derive(Drop)]
pub(crate) struct Body {
    /// As many as it was made with, and no room for more.
    pub(crate) slots: Vec<Option<SKey>>,
    /// Whether it is a proxy, which leads to its delegate too: so marking asks of no other object what it is.
    pub(crate) is_proxy: bool,
    /// Its neighbours among those that marking has yet to look into, while it is one of them.
    pub(crate) waiting: Neighbours,
}

const _: () = prove!(size_of::<Body>() == 40);

impl Model for Body {
    ghost use Rattle.std.specs.Prelude.{◌≡◌, length, map, option_map};
    ghost use Rattle.std.specs.Vec.{vec_capacity};
    ghost use Rattle.cc_script.specs.Cells.{Content};

    ghost Value = { Content };

    ghost view = { λ b. record {
      slots = map (option_map (λ k. k.0)) b.slots.items;
      is_proxy = b.is_proxy;
      waiting = b.waiting;
    } };

    // no room for more
    ghost invariant = { λ b. vec_capacity b.slots ≡ length b.slots.items };
}

impl Body {
    /// That of no object: no slots, and no memory taken.
    pub(crate) fn nothing(alloc: Global) -> Body
        ensures { result ≡ nothing }
    {
        Body {
            slots: Vec::new(alloc),
            is_proxy: false,
            waiting: Neighbours::of(None),
        }
    }
}

/// Whether a colour is below another: white below gray below black.
pub(crate) fn is_below(colour: Colour, other: Colour) -> bool
    ensures { result ≡ is_below_it colour other }
{
    match (colour, other) {
        (Colour::White, Colour::Gray) => true,
        (Colour::White, Colour::Black) => true,
        (Colour::Gray, Colour::Black) => true,
        _ => false,
    }
}
