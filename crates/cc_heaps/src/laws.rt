//! What the words of this crate's contracts mean for one another.
ghost use Rattle.cc_heaps.specs.Keyed.{Keyed};
ghost use Rattle.cc_heaps.specs.Marks.{MarksGoOn};
ghost use Rattle.cc_heaps.specs.NewMarks.{AreListed};

/// A call after which a marking in slices goes on leaves its lists well listed: what is on them is there, and has its mark.
pub fn marks_stay_listed()
    ensures { (old new : Keyed) → MarksGoOn old new → AreListed old → AreListed new }
{}
