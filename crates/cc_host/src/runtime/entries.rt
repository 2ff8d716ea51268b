//! Entries of weak maps.
ghost use Rattle.std.specs.Prelude.{◌≡◌, ◌≢◌, [], ◌∷◌, Some, None, OnErr, OnOk};
ghost use Rattle.cc_model.specs.Checks.{value_at};
ghost use Rattle.cc_model.specs.Graph as graph;
ghost use Rattle.cc_model.specs.Heap.{objects_of};
ghost use Rattle.cc_heaps.specs.Leaving.{NothingLeft};
ghost use Rattle.cc_heaps.specs.Standing.{IsReachedOrReflects};
ghost use Rattle.cc_host.specs.Calls.{Does, NoneComes, Tries};
ghost use Rattle.cc_host.specs.Hosted.{IsRooted};
ghost use Rattle.cc_host.specs.Lasting.{Lasts, StaysUsable};
ghost use Rattle.cc_host.specs.Places.{KeepsPlaces};
ghost use Rattle.cc_host.specs.Spots.{IsWritten, Spot, WritesOnly, if_reflector};
ghost use Rattle.cc_host.specs.Stops.{IsStoppedBy, IsStoppedOrRefused, stop_entry, stop_setting};

use crate::changes;
use crate::object::Object;
use crate::runtime::Runtime;
use crate::stop::Stop;

impl Runtime {
    /// A key has a value in a weak map from then on: its entry keeps its place, or goes last where there was none. A key that
    /// is a reflector is preserved.
    ///
    /// `NoMemory` leaves the graph as it is (`tried`), and comes only where there was no entry (`wanted`). Each other refusal changes
    /// nothing at all (`same`). No object leaves or comes in any case.
    #[tactic(auto, using(crate::proofs::KeptDoomed::still_doomed))]
    pub fn set_entry(&mut self, the_map: Object, key: Object, value: Object) -> Result<(), Stop>
        ensures stops { IsStoppedOrRefused (stop_setting self.old the_map key value) result }
        ensures does { OnOk result (Does (IsRooted self.old the_map × IsReachedOrReflects self.old.heaps.heap (Some key.name)
            × IsReachedOrReflects self.old.heaps.heap (Some value.name))
            (λ g. graph.set_entry g (Some the_map.name) (Some key.name) (Some value.name)) self.old self.new) }
        ensures writes { OnOk result (WritesOnly (Spot.entry the_map.name key.name ∷ Spot.preserved key.name ∷ []) self.old.heaps.heap self.new.heaps.heap) }
        ensures written { OnOk result (IsWritten (Spot.entry the_map.name key.name) (Some value.name) self.new.heaps.heap) }
        ensures preserves { OnOk result (IsWritten (Spot.preserved key.name) (if_reflector key.name) self.new.heaps.heap) }
        // each other cause is told before anything is done; memory is wanted only for an entry that is not there
        ensures same { (s : Stop) → result ≡ Err s → s ≢ Stop.NoMemory → self.new ≡ self.old }
        ensures wanted { result ≡ Err Stop.NoMemory → value_at (objects_of self.old.heaps.heap) (Some the_map.name) (Some key.name) ≡ None }
        ensures tried { OnErr result (Tries (IsReachedOrReflects self.old.heaps.heap (Some key.name)
            × IsReachedOrReflects self.old.heaps.heap (Some value.name)) self.old self.new) }
        ensures unwritten { OnErr result (WritesOnly [] self.old.heaps.heap self.new.heaps.heap) }
        ensures none_left { NothingLeft self.old.heaps.heap self.new.heaps.heap }
        ensures none_came { NoneComes self.old self.new }
        ensures places { KeepsPlaces self.old.heaps.heap self.new.heaps.heap }
        ensures lasts { Lasts None self.old self.new }
        ensures stays { StaysUsable self.old self.new }
    {
        let the_map = self.map(the_map)?;
        let key = self.script(key)?;
        let value = self.script(value)?;
        changes::set_entry(&mut self.heaps, the_map, key, value)?;
        Ok(())
    }

    /// A key has no value in a weak map from then on. No object leaves or comes by it. Takes no memory.
    pub fn unset_entry(&mut self, the_map: Object, key: Object) -> Result<(), Stop>
        ensures stops { IsStoppedBy (stop_entry self.old the_map key) result }
        ensures does { OnOk result (Does (IsRooted self.old the_map × IsReachedOrReflects self.old.heaps.heap (Some key.name))
            (λ g. graph.set_entry g (Some the_map.name) (Some key.name) None) self.old self.new) }
        ensures writes { OnOk result (WritesOnly (Spot.entry the_map.name key.name ∷ []) self.old.heaps.heap self.new.heaps.heap) }
        ensures written { OnOk result (IsWritten (Spot.entry the_map.name key.name) None self.new.heaps.heap) }
        ensures same { OnErr result (self.new ≡ self.old) }
        ensures none_left { NothingLeft self.old.heaps.heap self.new.heaps.heap }
        ensures none_came { NoneComes self.old self.new }
        ensures places { KeepsPlaces self.old.heaps.heap self.new.heaps.heap }
        ensures lasts { Lasts None self.old self.new }
        ensures stays { StaysUsable self.old self.new }
    {
        let the_map = self.map(the_map)?;
        let key = self.script(key)?;
        changes::unset_entry(&mut self.heaps, the_map, key);
        Ok(())
    }
}
