//! Entries of weak maps.
ghost use Rattle.std.specs.Prelude.{◌≡◌, ◌∷◌, [], ◌≢◌, Some, None, OnErr, OnOk};
ghost use Rattle.cc_model.specs.Checks.{value_at};
ghost use Rattle.cc_model.specs.Graph as graph;
ghost use Rattle.cc_model.specs.Heap.{objects_of};
ghost use Rattle.cc_heaps.specs.Standing.{IsReachedOrReflects};
ghost use Rattle.cc_host.specs.Calls.{Does, NoneComes, Tries};
ghost use Rattle.cc_host.specs.Hosted.{IsRooted};
ghost use Rattle.cc_host.specs.Lasting.{Lasts, StaysUsable};
ghost use Rattle.cc_host.specs.Spots.{IsWritten, Spot, WritesOnly, if_reflector};
ghost use Rattle.cc_host.specs.Stops.{IsStoppedBy, IsStoppedOrRefused, stop_entry, stop_setting};
ghost use Rattle.cc_host.specs.Hosts.{Quiet};

use crate::host::Host;
use crate::object::Object;
use crate::stop::Stop;

impl Host {
    /// A key has a value in a weak map from then on: its entry keeps its place, or goes last where there was none. A key that
    /// is a reflector is preserved.
    ///
    /// `NoMemory` leaves the graph as it is (`tried`), and comes only where there was no entry (`wanted`). Each other refusal changes
    /// nothing at all (`same`). No object leaves or comes in any case.
    #[tactic(auto, using(crate::proofs::HasRoom::after_nothing))]
    pub fn set_entry(&mut self, the_map: Object, key: Object, value: Object) -> Result<(), Stop>
        ensures stops { IsStoppedOrRefused (stop_setting self.old.host the_map key value) result }
        ensures does { OnOk result (Does (IsRooted self.old.host the_map × IsReachedOrReflects self.old.host.heaps.heap (Some key.name)
            × IsReachedOrReflects self.old.host.heaps.heap (Some value.name))
            (λ g. graph.set_entry g (Some the_map.name) (Some key.name) (Some value.name)) self.old.host self.new.host) }
        ensures writes { OnOk result (WritesOnly (Spot.entry the_map.name key.name ∷ Spot.preserved key.name ∷ [])
            self.old.host.heaps.heap self.new.host.heaps.heap) }
        ensures written { OnOk result (IsWritten (Spot.entry the_map.name key.name) (Some value.name) self.new.host.heaps.heap) }
        ensures preserves { OnOk result (IsWritten (Spot.preserved key.name) (if_reflector key.name) self.new.host.heaps.heap) }
        // each other cause is told before anything is done; memory is wanted only for an entry that is not there
        ensures same { (s : Stop) → result ≡ Err s → s ≢ Stop.NoMemory → self.new ≡ self.old }
        ensures wanted { result ≡ Err Stop.NoMemory → value_at (objects_of self.old.host.heaps.heap) (Some the_map.name) (Some key.name) ≡ None }
        ensures tried { OnErr result (Tries (IsReachedOrReflects self.old.host.heaps.heap (Some key.name)
            × IsReachedOrReflects self.old.host.heaps.heap (Some value.name)) self.old.host self.new.host) }
        ensures unwritten { OnErr result (WritesOnly [] self.old.host.heaps.heap self.new.host.heaps.heap) }
        ensures quiet { Quiet self.old self.new }
        ensures none_came { NoneComes self.old.host self.new.host }
        ensures lasts { Lasts None self.old.host self.new.host }
        ensures stays { StaysUsable self.old.host self.new.host }
    {
        let done = self.runtime.set_entry(the_map, key, value);
        self.runtime.keeps();
        done
    }

    /// A key has no value in a weak map from then on. No object leaves or comes by it. Takes no memory.
    #[tactic(auto, using(crate::proofs::HasRoom::after_nothing))]
    pub fn unset_entry(&mut self, the_map: Object, key: Object) -> Result<(), Stop>
        ensures stops { IsStoppedBy (stop_entry self.old.host the_map key) result }
        ensures does { OnOk result (Does (IsRooted self.old.host the_map × IsReachedOrReflects self.old.host.heaps.heap (Some key.name))
            (λ g. graph.set_entry g (Some the_map.name) (Some key.name) None) self.old.host self.new.host) }
        ensures writes { OnOk result (WritesOnly (Spot.entry the_map.name key.name ∷ []) self.old.host.heaps.heap self.new.host.heaps.heap) }
        ensures written { OnOk result (IsWritten (Spot.entry the_map.name key.name) None self.new.host.heaps.heap) }
        ensures same { OnErr result (self.new ≡ self.old) }
        ensures quiet { Quiet self.old self.new }
        ensures none_came { NoneComes self.old.host self.new.host }
        ensures lasts { Lasts None self.old.host self.new.host }
        ensures stays { StaysUsable self.old.host self.new.host }
    {
        let done = self.runtime.unset_entry(the_map, key);
        self.runtime.keeps();
        done
    }
}
