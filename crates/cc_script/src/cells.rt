//! The objects by key: what they are, and apart from that what marking looks at, their colours, and their new marks.
//!
//! A marking reads and writes bodies and colours alone, at 41 bytes an object, and what else is known of it, at 45, stays
//! where it is. Making all white, and the look for objects of a colour, go over the colours alone, which stand
//! together, a byte each: so a heap that lives is marked without going over its objects before and after. The new marks stand
//! together in the same way, a byte each, so that to make all white is one fill, and a marking that has ended can hand them
//! over for the colours.
ghost use Rattle.std.specs.Prelude.{◌≡◌, ◌≢◌, ◌↔◌, ◌<◌, ◌≤◌, ℕ, [], Some, get_or, is_some, length, option_map, slice_set, IfOk, IsSome, IsTrue, false, OnErr, OnOk};
ghost use Rattle.slab.specs.Slab.{ContainsKey, Updates, get, slab_len};
ghost use Rattle.cc_names.specs.declared.kind.Colour.{Colour};
ghost use Rattle.cc_names.specs.declared.kind.Colour.TheVariants.{White, Gray, Black};
ghost use Rattle.cc_script.specs.Lists.{cell_at, exchanged_marks, newly_marked, painted, slots_placed, written};
ghost use Rattle.cc_script.specs.Cells.{Changes, ChangesEach, Content, HasColourAt, Label, cells_of, filled, in_colour, in_new_mark, nothing};

use crate::cell::{Body, Cell};
use cc_names::{Colour, NoMemory, SKey, narrow_key};
use slab::Slab;
use std::alloc::Global;
use std::marker::Model;
use std::mem;

/// The objects as they stand at their keys, each with what it holds, its colour and its new mark.
#[derive(Drop)]
pub(crate) struct Cells {
    pub(crate) slab: Slab<Cell>,
    // all three by key; where no object stands, what is left there says nothing, and holds no memory
    pub(crate) bodies: Vec<Body>,
    colours: Vec<Colour>,
    new_marks: Vec<Colour>,
    // set where one is painted gray, and cleared where all are made white. Not set, none is gray; set, one may be, and all
    // those that were may be black by now
    may_be_gray: bool,
    // the same of the new marks, for the time when they are the colours
    may_be_marked_gray: bool,
    alloc: Global,
}

impl Model for Cells {
    ghost use Rattle.std.specs.Prelude.{◌+◌};
    ghost use Rattle.std.specs.Vec.{vec_capacity};
    ghost use Rattle.slab.specs.Slab.{Slab};
    ghost use Rattle.cc_script.specs.Cells.{HaveAll, Linked, bare_slab, coloured_slab};

    ghost Value = { Slab Linked };

    ghost view = { λ c. coloured_slab (c.slab.capacity + vec_capacity c.bodies + vec_capacity c.new_marks + vec_capacity c.colours) (bare_slab c.slab c.bodies.items c.new_marks.items) c.colours.items };

    ghost invariant = { λ c. HaveAll c.slab c.bodies.items c.new_marks.items c.colours.items c.may_be_marked_gray c.may_be_gray };
}

/// Lengthens the bodies to so many at least, by those of no object. `NoMemory` leaves them at some length between.
fn reach(bodies: &mut Vec<Body>, count: usize, alloc: Global) -> Result<(), NoMemory>
    ensures reaches { OnOk result (count ≤ length bodies.new.items) }
    ensures longer { length bodies.old.items ≤ length bodies.new.items }
    ensures same { (key : ℕ) → get_or bodies.new.items key nothing ≡ get_or bodies.old.items key nothing }
{
    while bodies.len() < count {
        bodies.reserve(1)?;
        bodies.push_reserved(Body::nothing(alloc));
    }
    Ok(())
}

/// Lengthens colours, or new marks, to so many at least, by white. `NoMemory` leaves them as they were.
fn reach_white(colours: &mut Vec<Colour>, count: usize) -> Result<(), NoMemory>
    ensures reaches { OnOk result (count ≤ length colours.new.items) }
    ensures longer { length colours.old.items ≤ length colours.new.items }
    ensures same { (key : ℕ) → get_or colours.new.items key White ≡ get_or colours.old.items key White }
{
    if count <= colours.len() {
        return Ok(());
    }
    colours.resize(count, Colour::White)?;
    Ok(())
}

/// Whether one may be gray among those before and one of this colour.
fn may_be_gray_with(before: bool, colour: Colour) -> bool
    ensures { result ≡ false → (before ≡ false) × (colour ≢ Gray) }
{
    if before {
        return true;
    }
    colour == Colour::Gray
}

impl Cells {
    /// No objects, and no memory taken.
    pub(crate) fn new(alloc: Global) -> Cells
        ensures empty { result.slots ≡ [] }
        ensures capacity { result.capacity ≡ 0 }
    {
        Cells {
            slab: Slab::new(alloc),
            bodies: Vec::new(alloc),
            colours: Vec::new(alloc),
            new_marks: Vec::new(alloc),
            may_be_gray: false,
            may_be_marked_gray: false,
            alloc,
        }
    }

    /// Puts an object at a key that had none, black by the new mark. `NoMemory` comes also where the key needs more than 32
    /// bits, and changes nothing of what stands there.
    pub(crate) fn insert(&mut self, cell: Cell, body: Body, colour: Colour) -> Result<u32, NoMemory>
        ensures was_vacant { IfOk result (λ key. get self.old key ≡ None) }
        ensures updates { IfOk result (λ key. Updates self.old self.new key (Some (in_colour colour (in_new_mark Black (filled body cell))))) }
        ensures err { OnErr result (self.new.slots ≡ self.old.slots) }
    {
        self.slab.reserve(1)?;
        let place = self.slab.vacant_key();
        let key = narrow_key(place)?;
        let count = place + 1;
        reach(&mut self.bodies, count, self.alloc)?;
        reach_white(&mut self.colours, count)?;
        reach_white(&mut self.new_marks, count)?;
        self.bodies[place] = body;
        self.colours[place] = colour;
        self.new_marks[place] = Colour::Black;
        self.may_be_gray = may_be_gray_with(self.may_be_gray, colour);
        self.slab.insert_reserved(cell);
        Ok(key)
    }

    /// Whether an object stands at a key.
    pub(crate) fn contains(&self, key: u32) -> bool
        ensures { result ≡ is_some (get self.now key) }
    {
        self.slab.contains(key as usize)
    }

    /// How many objects there are.
    pub(crate) fn len(&self) -> usize
        ensures { result ≡ slab_len self.now }
    {
        self.slab.len()
    }

    /// What the object at a key is.
    pub(crate) fn cell(&self, key: u32) -> &Cell
        requires { ContainsKey self.now key }
        ensures { (colour : Colour) × ((mark : Colour) × ((content : Content) ×
            (get self.now key ≡ Some (in_colour colour (in_new_mark mark (filled content result.now)))))) }
    {
        &self.slab[key as usize]
    }

    /// What marking looks at of the object at a key.
    pub(crate) fn body(&self, key: u32) -> &Body
        requires { ContainsKey self.now key }
        ensures { (colour : Colour) × ((mark : Colour) × ((label : Label) ×
            (get self.now key ≡ Some (in_colour colour (in_new_mark mark (filled result.now label)))))) }
    {
        &self.bodies[key as usize]
    }

    /// The colour of the object at a key.
    pub(crate) fn colour(&self, key: u32) -> Colour
        requires { ContainsKey self.now key }
        ensures { option_map (λ c. c.placed.colour) (get self.now key) ≡ Some result }
    {
        self.colours[key as usize]
    }

    /// The new mark of the object at a key.
    pub(crate) fn new_mark(&self, key: u32) -> Colour
        requires { ContainsKey self.now key }
        ensures { option_map (λ c. c.placed.new_mark) (get self.now key) ≡ Some result }
    {
        self.new_marks[key as usize]
    }

    /// The delegate of the object at a key, where it is a proxy.
    // of what is none, what it is isn't read: only what marking looks at
    pub(crate) fn delegate(&self, key: u32) -> Option<SKey>
        requires { ContainsKey self.now key }
        ensures { option_map (λ c. c.placed.delegate) (get self.now key) ≡ Some (option_map (λ k. k.0) result) }
    {
        if self.bodies[key as usize].is_proxy {
            self.slab[key as usize].being.delegate()
        } else {
            None
        }
    }

    /// Gives the object at a key a colour.
    pub(crate) fn paint(&mut self, key: SKey, colour: Colour)
        requires live { IsSome (cell_at (cells_of self.old.slots) key.0) }
        ensures changes { Changes self.old self.new key.0 (painted colour) }
    {
        self.colours[key.0 as usize] = colour;
        self.may_be_gray = may_be_gray_with(self.may_be_gray, colour);
    }

    /// Gives the object at a key a new mark.
    pub(crate) fn set_new_mark(&mut self, key: SKey, mark: Colour)
        requires live { IsSome (cell_at (cells_of self.old.slots) key.0) }
        ensures changes { Changes self.old self.new key.0 (newly_marked mark) }
    {
        self.new_marks[key.0 as usize] = mark;
        self.may_be_marked_gray = may_be_gray_with(self.may_be_marked_gray, mark);
    }

    /// Makes all objects white.
    pub(crate) fn whiten(&mut self)
        ensures { ChangesEach self.old self.new (painted White) }
    {
        self.colours.fill(Colour::White);
        self.may_be_gray = false;
    }

    /// Makes all objects white by the new mark.
    pub(crate) fn unmark_new(&mut self)
        ensures { ChangesEach self.old self.new (newly_marked White) }
    {
        self.new_marks.fill(Colour::White);
        self.may_be_marked_gray = false;
    }

    /// The new marks become the colours, and the colours the new marks.
    pub(crate) fn exchange_marks(&mut self)
        ensures { ChangesEach self.old self.new exchanged_marks }
    {
        mem::swap(&mut self.colours, &mut self.new_marks);
        mem::swap(&mut self.may_be_gray, &mut self.may_be_marked_gray);
    }

    /// Whether there is an object at a key, and it is of this colour.
    fn has_colour_at(&self, key: usize, colour: Colour) -> bool
        ensures { IsTrue result ↔ HasColourAt self.now colour key }
    {
        if key >= self.colours.len() {
            return false;
        }
        if self.colours[key] != colour {
            return false;
        }
        self.slab.contains(key)
    }

    /// Whether the object at some key is of this colour.
    // goes over no colours for gray where none was painted gray since all were made white
    pub(crate) fn has_colour(&self, colour: Colour) -> bool
        ensures some { IsTrue result → (key : ℕ) × HasColourAt self.now colour key }
        ensures none { (key : ℕ) → HasColourAt self.now colour key → IsTrue result }
    {
        if colour == Colour::Gray {
            if !self.may_be_gray {
                return false;
            }
        }
        for key in 0..self.colours.len() {
            if self.has_colour_at(key, colour) {
                return true;
            }
        }
        false
    }

    /// Writes slot `i` of the object at a key.
    pub(crate) fn write(&mut self, key: SKey, i: usize, item: Option<SKey>)
        requires live { IsSome (cell_at (cells_of self.old.slots) key.0) }
        requires within { i < length (slots_placed (cell_at (cells_of self.old.slots) key.0)) }
        ensures changes { Changes self.old self.new key.0 (written i (option_map (λ k. k.0) item)) }
    {
        let body = &mut self.bodies[key.0 as usize];
        body.slots[i] = item;
    }

    /// Takes out the object at a key.
    pub(crate) fn remove(&mut self, key: u32)
        requires { ContainsKey self.old key }
        ensures slots { self.new.slots ≡ slice_set self.old.slots key None }
        ensures updates { Updates self.old self.new key None }
        ensures capacity { self.new.capacity ≡ self.old.capacity }
    {
        let _cell = self.slab.remove(key as usize);
        self.bodies[key as usize] = Body::nothing(self.alloc);
    }
}
