//! Roots without number: places behind the numbered roots.
ghost use Rattle.std.specs.Prelude.{◌≡◌, ◌<◌, ◌≤◌, [], ◌∷◌, Some, None, true, OnErr, OnOk};
ghost use Rattle.cc_names.specs.Names.{is_native};
ghost use Rattle.cc_heaps.specs.Standing.{IsReachedOrReflects};
ghost use Rattle.cc_host.specs.Calls.{Always, Brings, Does, NoneComes, TellsFreed};
ghost use Rattle.cc_host.specs.Hosted.{IsRootedIfAny, IsThereIfAny, named};
ghost use Rattle.cc_host.specs.Lasting.{Lasts, StaysUsable};
ghost use Rattle.cc_host.specs.Places.{IsFree, KeepsOtherPlaces, TakesPlace, held_at, placed, places, unplaced, native_place, place_for, script_place};
ghost use Rattle.cc_host.specs.Spots.{Spot, WritesOnly};
ghost use Rattle.cc_host.specs.Stops.{IsStoppedBy, IsStoppedOrRefused, stop_at, stop_place, stop_placing};

use crate::changes;
use crate::object::Object;
use crate::runtime::Runtime;
use crate::stop::Stop;
use cc_model::Notices;
use cc_names::{MOST_ROOTS, NKey, Name, NoMemory, RegNo, SKey};

/// The register of the first place: those before it are the numbered roots, and one that the host keeps for itself.
pub const FIRST_PLACE: RegNo = 1024;

/// How many places there are for roots without number. They are counted from 0.
pub const PLACES: RegNo = MOST_ROOTS - FIRST_PLACE;

impl Runtime {
    /// What a place of a root without number holds; none where it holds nothing, or where there is no such place.
    pub fn at_place(&self, place: RegNo) -> Option<Object>
        ensures name { place < places → named result ≡ held_at self.now.heaps.heap place }
        ensures none { places ≤ place → result ≡ None }
        ensures there { IsThereIfAny self.now result }
        ensures reached { IsRootedIfAny self.now result }
    {
        if place >= PLACES {
            return None;
        }
        match self.heaps.native_reg(FIRST_PLACE + place) {
            Some(key) => self.of_native(Some(key)),
            None => self.of_script(self.heaps.script_reg(FIRST_PLACE + place)),
        }
    }

    /// A place holds an object from then on, in the register for objects of its kind. Any native that is there is taken, whether
    /// anything reaches it or not.
    ///
    /// What that register held is given up, and what then has no reference is deleted and told. Where the place is beyond all
    /// those that were taken so far, registers up to it are made, of 8 bytes each: `NoMemory` changes nothing.
    pub fn root_at<N: Notices>(&mut self, place: RegNo, x: Object, out: &mut N) -> Result<(), Stop>
        ensures stops { IsStoppedOrRefused (stop_placing self.old place x) result }
        ensures does { OnOk result (Does (IsReachedOrReflects self.old.heaps.heap (Some x.name)) (placed place x.name) self.old self.new) }
        ensures writes { OnOk result (WritesOnly (Spot.register (place_for place x.name) ∷ []) self.old.heaps.heap self.new.heaps.heap) }
        ensures brings { OnOk result (is_native x.name ≡ true → Brings (Some x.name) (placed place x.name) self.old self.new) }
        ensures takes { OnOk result (TakesPlace place x.name self.old.heaps.heap self.new.heaps.heap) }
        ensures same { OnErr result (self.new ≡ self.old) }
        ensures tells { TellsFreed self.old self.new (N.telling out.old) (N.telling out.new) }
        ensures silent { OnErr result (N.telling out.new ≡ N.telling out.old) }
        ensures none_came { NoneComes self.old self.new }
        ensures lasts { Lasts None self.old self.new }
        ensures stays { StaysUsable self.old self.new }
    {
        self.look(x)?;
        if place >= PLACES {
            return Err(Stop::Index);
        }
        let register = FIRST_PLACE + place;
        let done = match x.name {
            Name::Native(_) => {
                changes::place_native(&mut self.heaps, register, NKey(x.key), out)
            }
            Name::Script(_) | Name::Reflector(_) => {
                changes::place_script(&mut self.heaps, register, SKey(x.key), out)
            }
        };
        match done {
            Ok(()) => Ok(()),
            Err(NoMemory) => Err(Stop::NoMemory),
        }
    }

    /// A place holds nothing from then on. What it held is given up, and what then has no reference is deleted and told. Takes no
    /// memory.
    pub fn unroot_at<N: Notices>(&mut self, place: RegNo, out: &mut N) -> Result<(), Stop>
        ensures stops { IsStoppedBy (stop_place place) result }
        ensures does { OnOk result (Does Always (unplaced place) self.old self.new) }
        ensures writes { OnOk result (WritesOnly (Spot.register (native_place place) ∷ Spot.register (script_place place) ∷ [])
            self.old.heaps.heap self.new.heaps.heap) }
        ensures empty { OnOk result (IsFree self.new.heaps.heap place) }
        ensures others { KeepsOtherPlaces place self.old.heaps.heap self.new.heaps.heap }
        ensures same { OnErr result (self.new ≡ self.old) }
        ensures tells { TellsFreed self.old self.new (N.telling out.old) (N.telling out.new) }
        ensures silent { OnErr result (N.telling out.new ≡ N.telling out.old) }
        ensures none_came { NoneComes self.old self.new }
        ensures lasts { Lasts None self.old self.new }
        ensures stays { StaysUsable self.old self.new }
    {
        if place >= PLACES {
            return Err(Stop::Index);
        }
        changes::unplace_script(&mut self.heaps, FIRST_PLACE + place);
        changes::unplace_native(&mut self.heaps, FIRST_PLACE + place, out);
        Ok(())
    }
}
