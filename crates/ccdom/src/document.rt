//! A document of elements, listeners and private data over a host. No call of it has a condition, as none of a host has.
use cc_host::{Ended, Hindrance, Host, Marks, Name, NativeNo, Object, RegNo, SlotNo, Stop, Weak};
use slab::Slab;
use std::alloc::Global;

// What the slots of an element hold, which is a native: its children, then its parent, and last its listener.
const PARENT: SlotNo = 8;

const LISTENER: SlotNo = 9;

// The roots by number: what was made last, of each kind; and what script has of an element.
const MADE: RegNo = 0;

const REFLECTOR: RegNo = 1;

/// The script root of another world.
pub const PROXY: RegNo = 2;

/// The script root of the weak map of all private data.
pub const DATA: RegNo = 3;

/// An element by its title. It keeps the element no more alive than the title does.
#[derive(Clone, Copy, Drop)]
struct Entry {
    title: &'static str,
    element: Weak,
}

/// A host, a row for each element that was not told as freed, and an index of these elements by title, which keeps none of them
/// alive.
#[derive(Drop)]
pub struct Document {
    pub host: Host,
    titles: Slab<&'static str>,
    index: Vec<Entry>,
    // whether a script marking ended that no collection has followed yet
    is_marked: bool,
}

impl Document {
    /// No elements; the host's mark is from the program's source. The first row is that of each native to which the program gave no
    /// number.
    pub fn new(alloc: Global, marks: &mut Marks) -> Result<Document, Stop> {
        let mut titles = Slab::new(alloc);
        titles.insert("untitled").map_err(|_| Stop::NoMemory)?;
        let host = Host::new(alloc, 1000, 1000, marks)?;
        Ok(Document {
            host,
            titles,
            index: Vec::new(alloc),
            is_marked: false,
        })
    }

    // The index has an element from then on.
    fn enter(&mut self, title: &'static str, element: Object) -> Result<(), Stop> {
        let element = self.host.weak(element)?;
        self.index
            .push(Entry { title, element })
            .map_err(|_| Stop::NoMemory)
    }

    /// The first element with a title, which a root holds until the next one is made; none where there is none, and from the
    /// moment on where a collection took it.
    pub fn find(&mut self, title: &str) -> Result<Option<Object>, Stop> {
        match self
            .index
            .iter()
            .find(|entry| entry.title == title)
            .copied()
        {
            Some(entry) => self.host.upgrade_into(MADE, entry.element),
            None => Ok(None),
        }
    }

    /// Makes an element, which a root holds until the next one is made. Its row is its number of the program's.
    pub fn make(&mut self, title: &'static str) -> Result<Object, Stop> {
        let element = self.host.new_native(MADE, LISTENER + 1)?;
        let row = self.titles.insert(title).map_err(|_| Stop::NoMemory)?;
        self.host.set_data(element, row as u64)?;
        self.enter(title, element)?;
        Ok(element)
    }

    // The first place of an element's children that holds this.
    fn place_of(&self, parent: Object, held: Option<Object>) -> Result<SlotNo, Stop> {
        (0..PARENT)
            .find(|i| self.host.slot(parent, *i) == Ok(held))
            .ok_or(Stop::Index)
    }

    /// Makes an element that is a child of another: each holds the other.
    pub fn append(&mut self, parent: Object, title: &'static str) -> Result<Object, Stop> {
        let place = self.place_of(parent, None)?;
        let child = self.make(title)?;
        self.host.store(parent, place, Some(child))?;
        self.host.store(child, PARENT, Some(parent))?;
        Ok(child)
    }

    /// An element is a child no more. What is below it stays with it.
    pub fn remove(&mut self, parent: Object, child: Object) -> Result<(), Stop> {
        let place = self.place_of(parent, Some(child))?;
        self.host.store(child, PARENT, None)?;
        self.host.store(parent, place, None)
    }

    // What script has of an element, in a root until the next one.
    fn reflect(&mut self, element: Object) -> Result<Object, Stop> {
        let reflector = self.host.wrap(element)?;
        self.host.set_script_root(REFLECTOR, Some(reflector))?;
        Ok(reflector)
    }

    // A closure over an element: a script object that holds its reflector, in a root until the next one.
    fn close_over(&mut self, element: Object) -> Result<Object, Stop> {
        let reflector = self.reflect(element)?;
        let closure = self.host.new_plain(MADE, 1)?;
        self.host.store(closure, 0, Some(reflector))?;
        Ok(closure)
    }

    /// An element listens for another: it holds a closure over that one.
    pub fn listen(&mut self, element: Object, other: Object) -> Result<(), Stop> {
        let closure = self.close_over(other)?;
        self.host.store(element, LISTENER, Some(closure))
    }

    /// An element gets private data: its reflector has a closure over another one in the weak map.
    pub fn remember(&mut self, element: Object, other: Object) -> Result<(), Stop> {
        let closure = self.close_over(other)?;
        let reflector = self.reflect(element)?;
        let data = self.host.script_root(DATA).ok_or(Stop::Gone)?;
        self.host.set_entry(data, reflector, closure)
    }

    /// Another world of script gets a proxy of an element, in a root of its own.
    pub fn share(&mut self, element: Object) -> Result<Object, Stop> {
        let reflector = self.reflect(element)?;
        self.host.new_proxy(PROXY, reflector)
    }

    /// The roots of what was being made hold nothing.
    pub fn let_go(&mut self) -> Result<(), Stop> {
        self.host.set_native_root(MADE, None)?;
        self.host.set_script_root(MADE, None)?;
        self.host.set_script_root(REFLECTOR, None)
    }

    /// A few units, in a frame: of a script marking until it ends, and then of a collection, which does not begin at what is alive.
    pub fn frame(&mut self, units: u32) -> Result<(), Hindrance> {
        let ended = if self.is_marked {
            self.collect(units)?
        } else {
            self.host.mark(units)?
        };
        if let Ended::Yes = ended {
            self.is_marked = !self.is_marked;
        }
        Ok(())
    }

    // Units of a collection, of the one that runs, or of one that begins here.
    fn collect(&mut self, units: u32) -> Result<Ended, Hindrance> {
        if !self.host.running() && self.host.has_suspects() {
            self.host.forget();
        }
        self.host.slice(units)
    }

    /// What the program calls a native, there or gone.
    pub fn title(&self, number: NativeNo) -> &'static str {
        let row = self.host.data_of(Name::Native(number)) as usize;
        self.titles.get(row).copied().unwrap_or("gone")
    }

    // An element that was told as freed leaves the index.
    fn leave(&mut self, number: NativeNo) {
        let place = self
            .index
            .iter()
            .position(|entry| entry.element.number == number);
        if let Some(place) = place {
            self.index.remove(place);
        }
    }

    /// The row of a native that was told as freed goes.
    pub fn remove_row(&mut self, name: Name) {
        if let Name::Native(number) = name {
            let row = self.host.data_of(name) as usize;
            self.titles.try_remove(row);
            self.leave(number);
        }
    }
}
