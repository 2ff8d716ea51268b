//! A receiver of items that keeps their lines in memory.

ghost use Rattle.std.specs.Prelude.{◌≡◌, false, [], None};

use crate::item::{Item, write_item};
use crate::notices::Notices;
use cc_names::LineBuf;
use std::alloc::Global;
use std::marker::Model;

/// A receiver that keeps the lines of its items in memory.
///
/// It keeps no items. It breaks where it wants memory for a line that is not there; that line is left out whole.
#[derive(Drop)]
pub struct Notebook {
    text: Vec<u8>,
    broken: bool,
    faults: u64,
}

impl Model for Notebook {
    ghost use Rattle.std.specs.Prelude.{Some, None};
    ghost use Rattle.cc_model.specs.Telling.{Telling};

    ghost Value = { Telling };

    ghost view = { λ n. record { told = Some n.text.items; broken = n.broken; faults = n.faults; sink = 0; sums = None; items = None } };
}

impl Notebook {
    /// An empty notebook.
    pub fn new(alloc: Global) -> Notebook
        ensures { result ≡ record { told = Some []; broken = false; faults = 0; sink = 0; sums = None; items = None } }
    {
        Notebook {
            text: Vec::new(alloc),
            broken: false,
            faults: 0,
        }
    }

    /// The lines so far.
    pub fn text(&self) -> &[u8]
        ensures { self.now.told ≡ Some result.now }
    {
        self.text.as_slice()
    }

    /// Whether a line was left out.
    pub fn is_broken(&self) -> bool
        ensures { result ≡ self.now.broken }
    {
        self.broken
    }
}

impl Notices for Notebook {
    ghost telling = { λ n. n };

    fn tell(&mut self, item: Item) {
        if self.broken {
            return;
        }
        let mut line = LineBuf::new();
        write_item(&item, &mut line);
        if self.text.extend_from_slice(line.bytes()).is_err() {
            self.broken = true;
            self.faults = self.faults.saturating_add(1);
        }
    }
}
