//! The host: its fields, what it has been told, and what it counts.
ghost use Rattle.std.specs.Prelude.{◌≡◌, ◌⊎◌, ◌<◌, ◌≤◌, ◌+◌, ◌^◌, ◌∷◌, false, [], Some, None, Err, IfOk, OnOk, is_none};
ghost use Rattle.cc_model.specs.declared.item.Item.{Item};
ghost use Rattle.cc_host.specs.Stops.{stop_at};
ghost use Rattle.cc_host.specs.Hosts.{IsNew, State, most_told};

mod collecting;
mod entries;
mod making;
mod reading;
mod referring;
mod rooting;
mod walking;
mod writing;

use crate::book::Book;
use crate::marks::Marks;
use crate::object::Object;
use crate::queue::Queue;
use crate::runtime::Runtime;
use crate::stop::Stop;
use cc_model::Item;
use cc_names::{Limits, NoMemory};
use std::alloc::Global;
use std::marker::Model;

// The room for what can be told where no object is there: that two collections were given up, and one more.
const LEAST_ROOM: usize = 3;

// What an object adds to that: it is freed, and a native is unlinked by two collections; one more.
const ROOM_FOR_ONE: usize = 4;

/// The room where one object more is there.
fn with_one_more(room: usize) -> Result<usize, NoMemory>
    ensures { IfOk result (λ more. more ≡ room + 4) }
{
    match room.checked_add(ROOM_FOR_ONE) {
        Some(more) => Ok(more),
        None => Err(NoMemory),
    }
}

/// Both heaps, the collector that runs in them, and what was told.
#[derive(Drop)]
pub struct Host {
    runtime: Runtime,
    told: Queue,
    steps: Queue,
    book: Book,
    alloc: Global,
}

impl Model for Host {
    ghost use Rattle.std.specs.Prelude.{◌≡◌, false};
    ghost use Rattle.cc_host.specs.Hosts.{HasRoom, IsBooked, State};

    ghost Value = { State };

    ghost view = { λ s. record { host = s.runtime; told = s.told.items; room = s.told.room; steps = s.steps.items; books = s.book } };

    ghost invariant = { λ s. HasRoom s.runtime s.told × (s.steps.broken ≡ false) × IsBooked s.runtime s.book };
}

impl Host {
    /// A host without objects, whose roots hold nothing. At most `natives` natives, and at most `scripts` plain objects, weak maps and
    /// proxies, may ever be made, each number 0 to 1 000 000; reflectors are not counted. Its objects and roots have a mark that it
    /// draws from a source, so that it has another one than each host of that source.
    ///
    /// `Index` where a number is greater, and then no mark is used up; `Full` where the source has no mark left. Where memory is wanted
    /// a mark is used up.
    pub fn new(alloc: Global, natives: u32, scripts: u32, marks: &mut Marks) -> Result<Host, Stop>
        ensures limit { (1000000 < natives) ⊎ (1000000 < scripts) → result ≡ Err Stop.Index }
        ensures causes { natives ≤ 1000000 → scripts ≤ 1000000 → (s : Stop) → result ≡ Err s →
            (s ≡ Stop.NoMemory) ⊎ ((s ≡ Stop.Full) × (2 ^ 64 ≤ marks.old + 1)) }
        ensures new { IfOk result (IsNew marks.new natives scripts) }
        ensures drawn { OnOk result (marks.new ≡ marks.old + 1) }
        ensures marks { (marks.old ≤ marks.new) × (marks.new ≤ marks.old + 1) }
        ensures unused { result ≡ Err Stop.Index → marks.new ≡ marks.old }
    {
        if natives > Limits::MOST || scripts > Limits::MOST {
            return Err(Stop::Index);
        }
        let Some(mark) = marks.draw() else {
            return Err(Stop::Full);
        };
        Host::with_mark(alloc, natives, scripts, mark)
    }

    /// The same with a mark of the caller's, which no other host may have: for a program whose hosts have no source in common.
    pub fn with_mark(alloc: Global, natives: u32, scripts: u32, mark: u64) -> Result<Host, Stop>
        ensures limit { (1000000 < natives) ⊎ (1000000 < scripts) → result ≡ Err Stop.Index }
        ensures causes { natives ≤ 1000000 → scripts ≤ 1000000 → (s : Stop) → result ≡ Err s → s ≡ Stop.NoMemory }
        ensures new { IfOk result (IsNew mark natives scripts) }
    {
        if natives > Limits::MOST || scripts > Limits::MOST {
            return Err(Stop::Index);
        }
        let runtime = Runtime::new(alloc, Limits::new(natives, scripts, 0), mark)?;
        let mut told = Queue::new(alloc);
        told.reserve(LEAST_ROOM)?;
        Ok(Host {
            runtime,
            told,
            steps: Queue::new(alloc),
            book: Book::new(alloc),
            alloc,
        })
    }

    /// The mark of this host's objects and roots.
    pub fn object_mark(&self) -> u64
        ensures { result ≡ self.now.host.mark }
    {
        self.runtime.object_mark()
    }

    /// Whether an object is there, and of this host: it was not freed, and is no native that was unlinked.
    pub fn is_there(&self, x: Object) -> bool
        ensures { result ≡ is_none (stop_at self.now.host x) }
    {
        self.runtime.is_there(x)
    }

    // What was told

    /// The first item that was told and not fetched yet, which is fetched then; none where there is none.
    pub fn next_told(&mut self) -> Option<Item>
        ensures next { (x : Item) → result ≡ Some x → self.old ≡ record self.new { told = x ∷ self.new.told } }
        ensures none { result ≡ None → (self.new ≡ self.old) × (self.old.told ≡ []) }
    {
        self.told.next()
    }

    /// The next step of the last answer to `why`, which is fetched then; none where all were fetched.
    pub fn next_step(&mut self) -> Option<Item>
        ensures next { (x : Item) → result ≡ Some x → self.old ≡ record self.new { steps = x ∷ self.new.steps } }
        ensures none { result ≡ None → (self.new ≡ self.old) × (self.old.steps ≡ []) }
    {
        self.steps.next()
    }

    // One more than a call can tell at most.
    fn most_told(&self) -> usize
        ensures { result ≡ most_told self.now.host }
    {
        let natives = self.runtime.natives();
        let scripts = self.runtime.scripts();
        // there is room for so many, so the sum fits
        let _room = self.told.room();
        natives + natives + (natives + scripts) + 3
    }
}
