//! The host's own books: the program's numbers for objects, and which roots are in use.
ghost use Rattle.std.specs.Prelude.{◌≡◌, ◌≢◌, ◌⊎◌, ◌+◌, ◌^◌, ◌≤◌, ◌<◌, ℕ, [], length, Some, None, Err, IfOk, OnOk, OnErr};
ghost use Rattle.cc_names.specs.declared.name.Name.{Name as TheName};
ghost use Rattle.cc_names.specs.Names.{number_of};
ghost use Rattle.cc_host.specs.Hosts.{Books, Enters, data_at, empty_books, list_for, serial_at, AreTaken};
ghost use Rattle.cc_host.specs.Booking.{link_at};
ghost use Rattle.cc_host.specs.Places.{places};

use crate::data::Data;
use crate::runtime::PLACES;
use crate::stop::Stop;
use cc_names::{Name, NoMemory};
use std::alloc::Global;
use std::marker::Model;

/// A place of a root: free, with the one to look at after it, or taken by the root with this serial number.
#[derive(Clone, Copy, Drop)]
enum Place {
    Free(u32),
    Taken(u64),
}

/// The program's numbers for objects; and which roots are in use, by their places, each with a
/// serial number of its own.
///
/// `next` is a free place where there is one. Where it is taken none is free, and the next root's place is made at the end.
#[derive(Drop)]
pub(crate) struct Book {
    given: Data,
    roots: Vec<Place>,
    next: u32,
    last: u64,
}

impl Model for Book {
    ghost use Rattle.std.specs.Prelude.{map};
    ghost use Rattle.cc_host.specs.Hosts.{Books};
    ghost use Rattle.cc_host.specs.Booking.{IsInRow, serial_of};

    ghost Value = { Books };

    ghost view = { λ b. record { given = b.given; roots = map serial_of b.roots.items; last = b.last } };

    ghost invariant = { λ b. IsInRow b.roots.items b.next };
}

// The place that a free place leads to; none where it is not free.
fn link(places: &[Place], index: u32) -> Option<u32>
    ensures { result ≡ link_at places.now index }
{
    match places.get(index as usize) {
        Some(Place::Free(next)) => Some(*next),
        Some(Place::Taken(_)) | None => None,
    }
}

impl Book {
    /// Nothing is known.
    pub(crate) fn new(alloc: Global) -> Book
        ensures { result ≡ empty_books }
    {
        Book {
            given: Data::new(alloc),
            roots: Vec::new(alloc),
            next: 0,
            last: 0,
        }
    }

    /// The program's number for the object of this name; 0 where none was given.
    pub(crate) fn data(&self, x: Name) -> u64
        ensures { result ≡ data_at self.now x }
    {
        self.given.of(x)
    }

    /// Gives the object of this name a number of the program's. `NoMemory` changes no number.
    pub(crate) fn set_data(&mut self, x: Name, value: u64) -> Result<(), NoMemory>
        ensures given { OnOk result (data_at self.new x ≡ value) }
        ensures others { (y : TheName) → y ≢ x → data_at self.new y ≡ data_at self.old y }
        ensures err { OnErr result ((y : TheName) → data_at self.new y ≡ data_at self.old y) }
        ensures wanted { OnErr result (length (list_for self.old.given x) ≤ number_of x) }
        ensures roots { self.new.roots ≡ self.old.roots }
        ensures last { self.new.last ≡ self.old.last }
    {
        self.given.set(x, value)
    }

    /// The object of this name has the number 0 from then on.
    pub(crate) fn clear_data(&mut self, x: Name)
        ensures cleared { data_at self.new x ≡ 0 }
        ensures others { (y : TheName) → y ≢ x → data_at self.new y ≡ data_at self.old y }
        ensures roots { self.new.roots ≡ self.old.roots }
        ensures last { self.new.last ≡ self.old.last }
    {
        self.given.clear(x);
    }

    /// The serial number of the root at a place; none where no root is in use there.
    pub(crate) fn serial(&self, index: u32) -> Option<u64>
        ensures { result ≡ serial_at self.now index }
    {
        match self.roots.get(index as usize) {
            Some(Place::Taken(serial)) => Some(*serial),
            Some(Place::Free(_)) | None => None,
        }
    }

    /// A root is in use at the place of the next one, from then on: its place and its serial number, one above the last.
    ///
    /// The place is a free one that was made before, and a new one at the end only where each of those is taken (`place`). `Full` only
    /// where every place is taken, or no serial number is left (`full`), and then, as for `NoMemory`, nothing changes.
    pub(crate) fn enter(&mut self) -> Result<(u32, u64), Stop>
        ensures free { IfOk result (λ r. serial_at self.old r.0 ≡ None) }
        ensures within { IfOk result (λ r. r.0 < places) }
        ensures place { IfOk result (λ r. (r.0 < length self.old.roots) ⊎ ((r.0 ≡ length self.old.roots) × AreTaken self.old (length self.old.roots))) }
        ensures entered { IfOk result (λ r. Enters self.old self.new r.0 (Some r.1)) }
        ensures serial { IfOk result (λ r. r.1 ≡ self.old.last + 1) }
        ensures last { OnOk result (self.new.last ≡ self.old.last + 1) }
        ensures refused { (s : Stop) → result ≡ Err s → (s ≡ Stop.NoMemory) ⊎ (s ≡ Stop.Full) }
        ensures full { result ≡ Err Stop.Full → AreTaken self.old places ⊎ (2 ^ 64 ≤ self.old.last + 1) }
        ensures err { OnErr result (self.new ≡ self.old) }
    {
        let Some(serial) = self.last.checked_add(1) else {
            return Err(Stop::Full);
        };
        let index = self.next;
        if let Some(next) = link(&self.roots, index) {
            self.next = next;
            self.roots[index as usize] = Place::Taken(serial);
            self.last = serial;
            return Ok((index, serial));
        }
        let Ok(index) = u32::try_from(self.roots.len()) else {
            return Err(Stop::Full);
        };
        if index >= PLACES {
            return Err(Stop::Full);
        }
        if self.roots.push(Place::Taken(serial)).is_err() {
            return Err(Stop::NoMemory);
        }
        self.last = serial;
        Ok((index, serial))
    }

    /// The root at a place is no longer in use, and the place comes next. Takes no memory.
    pub(crate) fn leave(&mut self, index: u32)
        ensures left { Enters self.old self.new index None }
        ensures last { self.new.last ≡ self.old.last }
    {
        if self.serial(index).is_some() {
            self.roots[index as usize] = Place::Free(self.next);
            self.next = index;
        }
    }
}
