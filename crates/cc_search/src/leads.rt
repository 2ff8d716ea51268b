//! The trait of whatever holds objects and is searched.
ghost use Rattle.std.specs.Prelude.{◌≡◌, ◌≤◌, ◌<◌, List, length, Option, None, Some, IsSome, slice_get, slice_index_or};
ghost use Rattle.cc_names.specs.declared.name.Name.{Name as TheName};
ghost use Rattle.cc_model.specs.Entries.{Entry};
ghost use Rattle.cc_model.specs.Derivations.{AreWithin, Leads as TheLeads};
ghost use Rattle.cc_search.specs.Banks.{AreEmptyFrom, slots_in};
ghost use Rattle.cc_search.specs.Members.{IsPlaceOf, place_below};
ghost use Rattle.cc_search.specs.Named.{AreMembers, IsHeldAs};

use crate::bank::Bank;
use cc_names::{Name, RegNo};

/// What leads from one object to another: registers, the places of objects, and the entries of weak maps.
///
/// An object is handed out and in as what stands for it, a small value, and has a name.
pub trait Leads {
    /// What stands for an object.
    type Object: Copy;

    /// What the registers and the places of objects hold, and the entries.
    ghost leads: { Self → TheLeads };

    /// All objects.
    ghost names: { Self → List TheName };

    /// The name of what stands for an object; none where there is no such object.
    ghost name_of: { Self → Self.Object → Option TheName };

    /// Whether it can be searched.
    ghost is_ready: { Self → Type 0 };

    /// The number past the last register of a bank that may hold something. From it on all are empty.
    fn used(&self, bank: Bank) -> RegNo
        requires ready { is_ready self.now }
        ensures within { result ≤ length (slots_in (leads self.now) bank) }
        ensures empty { AreEmptyFrom (slots_in (leads self.now) bank) result };

    /// What a register holds.
    fn register(&self, bank: Bank, r: RegNo) -> Option<Self::Object>
        requires ready { is_ready self.now }
        ensures { IsHeldAs (name_of self.now) (slice_index_or (slots_in (leads self.now) bank) r None) result };

    /// The name of an object.
    fn name(&self, object: Self::Object) -> Name
        requires there { IsSome (name_of self.now object) }
        ensures { name_of self.now object ≡ Some result };

    /// How many places an object has in which it may refer to another.
    fn places(&self, object: Self::Object) -> usize
        requires ready { is_ready self.now }
        requires there { IsSome (name_of self.now object) }
        ensures { (x : TheName) → name_of self.now object ≡ Some x → result ≡ length ((leads self.now).places x) };

    /// What a place of an object holds, counted from 0.
    fn place(&self, object: Self::Object, i: usize) -> Option<Self::Object>
        requires ready { is_ready self.now }
        requires there { IsSome (name_of self.now object) }
        requires within { (x : TheName) → name_of self.now object ≡ Some x → i < length ((leads self.now).places x) }
        ensures { (x : TheName) → name_of self.now object ≡ Some x → IsHeldAs (name_of self.now) (slice_index_or ((leads self.now).places x) i None) result };

    /// The place of the last entry of which an object is the map, the key or the key's delegate; none where there is none. From it
    /// `next_with` goes on to the others.
    fn first_with(&self, object: Self::Object) -> Option<usize>
        requires ready { is_ready self.now }
        requires there { IsSome (name_of self.now object) }
        ensures { (x : TheName) → name_of self.now object ≡ Some x → result ≡ place_below (leads self.now).entries x (length (leads self.now).entries) };

    /// The last place before this one of an entry of which the object is a member; none where this is the first of them.
    fn next_with(&self, object: Self::Object, place: usize) -> Option<usize>
        requires ready { is_ready self.now }
        requires there { IsSome (name_of self.now object) }
        requires place { (x : TheName) → name_of self.now object ≡ Some x → IsPlaceOf (leads self.now).entries x place }
        ensures { (x : TheName) → name_of self.now object ≡ Some x → result ≡ place_below (leads self.now).entries x place };

    /// Map, key, the key's delegate and value of the entry at a place, counted from 0.
    fn entry(
        &self,
        i: usize,
    ) -> (
        Self::Object,
        Self::Object,
        Option<Self::Object>,
        Self::Object,
    )
        requires ready { is_ready self.now }
        requires within { i < length (leads self.now).entries }
        ensures { (e : Entry) → slice_get (leads self.now).entries i ≡ Some e → AreMembers (name_of self.now) e result };

    /// What registers, places and entries hold are such objects, and there are no more than may be found.
    ghost within: { (s : Self) → is_ready s → AreWithin (leads s) (names s) };
}
