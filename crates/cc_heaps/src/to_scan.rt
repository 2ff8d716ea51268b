//! What a marking in slices has yet to scan.
ghost use Rattle.std.specs.Prelude.{◌≡◌, ◌≤◌, [], None, Some, IfSome, MatchOption, OnOk, is_some, option_map};
ghost use Rattle.std.specs.VecDeque.{deque_capacity};
ghost use Rattle.cc_heaps.specs.ToScan.{HasMoreRoom, HasRoom, HasRoomFor, HasSameRoom, listed_last, nothing_listed, with_black, with_gray};

use cc_names::{Colour, NoMemory, SKey};
use std::alloc::Global;
use std::collections::VecDeque;
use std::marker::Model;

/// The objects that a marking in slices has yet to scan, where one goes on: those whose neighbours are to be black, and those
/// whose neighbours are to be gray. Each list is first in, first out, and has room for as many as are asked for, so that a
/// marking never wants memory.
#[derive(Drop)]
pub(crate) struct ToScan {
    goes_on: bool,
    black: VecDeque<SKey>,
    gray: VecDeque<SKey>,
}

impl Model for ToScan {
    ghost use Rattle.std.specs.VecDeque.{deque_capacity};
    ghost use Rattle.cc_heaps.specs.ToScan.{Lists, marking_of};

    ghost Value = { Lists };

    ghost view = { λ t. record { marking = marking_of t.goes_on t.black.items t.gray.items; black_room = deque_capacity t.black; gray_room = deque_capacity t.gray } };
}

// Room for so many in a list.
fn reach(list: &mut VecDeque<SKey>, count: usize) -> Result<(), NoMemory>
    ensures items { list.new.items ≡ list.old.items }
    ensures room { OnOk result (count ≤ deque_capacity list.new) }
    ensures more { deque_capacity list.old ≤ deque_capacity list.new }
{
    list.reserve(count.saturating_sub(list.len()))?;
    Ok(())
}

impl ToScan {
    /// No marking goes on, and no memory is taken.
    pub(crate) fn new(alloc: Global) -> ToScan
        ensures { result.marking ≡ None }
    {
        ToScan {
            goes_on: false,
            black: VecDeque::new(alloc),
            gray: VecDeque::new(alloc),
        }
    }

    /// Whether a marking goes on.
    pub(crate) fn goes_on(&self) -> bool
        ensures { result ≡ is_some self.now.marking }
    {
        self.goes_on
    }

    /// Room for so many objects in each list. What they hold stays, whatever comes of it.
    pub(crate) fn reserve(&mut self, count: usize) -> Result<(), NoMemory>
        ensures marking { self.new.marking ≡ self.old.marking }
        ensures room { OnOk result (HasRoom self.new count) }
        ensures more { HasMoreRoom self.old self.new }
    {
        reach(&mut self.black, count)?;
        reach(&mut self.gray, count)
    }

    /// A marking goes on from here, and nothing is to be scanned yet.
    pub(crate) fn begin(&mut self)
        ensures marking { self.new.marking ≡ Some nothing_listed }
        ensures room { HasSameRoom self.old self.new }
    {
        self.black.clear();
        self.gray.clear();
        self.goes_on = true;
    }

    /// No marking goes on any more.
    pub(crate) fn discard(&mut self)
        ensures marking { self.new.marking ≡ None }
        ensures room { HasSameRoom self.old self.new }
    {
        self.black.clear();
        self.gray.clear();
        self.goes_on = false;
    }

    /// An object goes last on the list of its new mark, for which there is room.
    pub(crate) fn push(&mut self, key: SKey, mark: Colour)
        requires room { HasRoomFor mark self.old }
        ensures marking { self.new.marking ≡ option_map (listed_last mark key.0) self.old.marking }
        ensures room { HasSameRoom self.old self.new }
    {
        match mark {
            Colour::White => {}
            Colour::Gray => self.gray.push_back_reserved(key),
            Colour::Black => self.black.push_back_reserved(key),
        }
    }

    /// Takes the first of those whose neighbours are to be black; none exactly where there is none.
    pub(crate) fn pop_black(&mut self) -> Option<SKey>
        ensures first { MatchOption result ((self.new.marking ≡ self.old.marking) × IfSome self.old.marking (λ t. t.black ≡ []))
            (λ key. self.old.marking ≡ option_map (with_black key.0) self.new.marking) }
        ensures room { HasSameRoom self.old self.new }
    {
        self.black.pop_front()
    }

    /// Takes the first of those whose neighbours are to be gray; none exactly where there is none.
    pub(crate) fn pop_gray(&mut self) -> Option<SKey>
        ensures first { MatchOption result ((self.new.marking ≡ self.old.marking) × IfSome self.old.marking (λ t. t.gray ≡ []))
            (λ key. self.old.marking ≡ option_map (with_gray key.0) self.new.marking) }
        ensures room { HasSameRoom self.old self.new }
    {
        self.gray.pop_front()
    }
}
