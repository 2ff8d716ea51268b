//! Kinds and colours of script objects.

/// What a script object is.
#[derive(Clone, Copy, Debug, PartialEq, Eq, Drop)]
pub enum Kind {
    /// Slots that each hold a script object or nothing.
    Plain,
    /// Four such slots, and a native behind it.
    Reflector,
    /// A weak map: no slots; its entries stand in a list of their own.
    Map,
    /// No slots, and a delegate for good: the script object that it stands for.
    Proxy,
}

/// The colour that script marking gives a script object.
///
/// Between two commands a script object is black or gray. It is white only between a marking and the sweep that frees it.
#[derive(Clone, Copy, Debug, PartialEq, Eq, Drop)]
pub enum Colour {
    /// Marked from nothing.
    White,
    /// Marked from what natives hold alone: a collection looks at it.
    Gray,
    /// Marked from the script registers, or touched since: alive.
    Black,
}

/// Where an object stands in a walk over both heaps.
#[derive(Clone, Copy, Debug, PartialEq, Eq, Drop)]
pub enum Walked {
    /// It is not in the set.
    Out,
    /// It is in the set, and was not given yet.
    Waiting,
    /// It is in the set, and was given.
    Given,
}
