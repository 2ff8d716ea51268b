//! Roots and slots written, reflectors, and the program's numbers.
ghost use Rattle.std.specs.Prelude.{◌≡◌, ◌≢◌, ◌≤◌, true, false, length, Some, None, Err, IfOk, IsOk, OnErr, OnOk, ◌∷◌, []};
ghost use Rattle.cc_names.specs.declared.name.Name.{Name as TheName};
ghost use Rattle.cc_names.specs.Names.{number_of};
ghost use Rattle.cc_names.specs.declared.register.Reg.TheVariants.{N as n_register, S as s_register};
ghost use Rattle.cc_model.specs.Checks.{reflector_of};
ghost use Rattle.cc_model.specs.Graph as graph;
ghost use Rattle.cc_model.specs.Heap.{has_reflector};
ghost use Rattle.cc_heaps.specs.Changes.{slot_held};
ghost use Rattle.cc_heaps.specs.Standing.{IsReachedOrReflects};
ghost use Rattle.cc_host.specs.Calls.{Comes, Does, NoneComes, TellsFreed, Tries, stored};
ghost use Rattle.cc_host.specs.Hosted.{IsRooted, IsRootedIfAny, IsThere, named};
ghost use Rattle.cc_host.specs.Lasting.{Lasts, StaysUsable};
ghost use Rattle.cc_host.specs.Spots.{IsWritten, Spot, WritesOnly, if_reflector, reads};
ghost use Rattle.cc_host.specs.Queues.{told_all};
ghost use Rattle.cc_host.specs.Stops.{IsStoppedBy, IsStoppedOrRefused, stop_at, stop_moving, stop_native, stop_reflector, stop_rooting, stop_script, stop_storing};
ghost use Rattle.cc_host.specs.Hosts.{Aside, Quiet, Reflects, data_at, list_for};

use crate::host::{Host, with_one_more};
use crate::object::Object;
use crate::stop::Stop;
use cc_names::{Name, RegNo, SlotNo};

impl Host {
    /// Numbered native root `r` holds a native from then on, or nothing. Any native that is there is taken, whether anything reaches it
    /// or not.
    ///
    /// What it held is given up, and what then has no reference is deleted and told. Takes no memory.
    #[tactic(auto, using(crate::proofs::HasRoom::after_freeing, crate::proofs::HasRoom::told_freed))]
    pub fn set_native_root(&mut self, r: RegNo, x: Option<Object>) -> Result<(), Stop>
        ensures stops { IsStoppedBy (stop_rooting stop_native self.old.host r x) result }
        ensures does { OnOk result (Does (IsRootedIfAny self.old.host x) (λ g. graph.set_register g (n_register r) (named x)) self.old.host self.new.host) }
        ensures writes { OnOk result (WritesOnly (Spot.register (n_register r) ∷ []) self.old.host.heaps.heap self.new.host.heaps.heap) }
        ensures written { OnOk result (IsWritten (Spot.register (n_register r)) (named x) self.new.host.heaps.heap) }
        ensures same { OnErr result (self.new ≡ self.old) }
        ensures tells { TellsFreed self.old.host self.new.host (told_all self.old.told) (told_all self.new.told) }
        ensures aside { Aside self.old self.new }
        ensures none_came { NoneComes self.old.host self.new.host }
        ensures lasts { Lasts None self.old.host self.new.host }
        ensures stays { StaysUsable self.old.host self.new.host }
    {
        let done = self.runtime.set_native_root(r, x, &mut self.told);
        self.told.keeps();
        self.runtime.keeps();
        done
    }

    /// Numbered script root `r` holds a script object from then on, or nothing. No object leaves or comes by it. Takes no memory.
    #[tactic(auto, using(crate::proofs::HasRoom::after_nothing))]
    pub fn set_script_root(&mut self, r: RegNo, x: Option<Object>) -> Result<(), Stop>
        ensures stops { IsStoppedBy (stop_rooting stop_script self.old.host r x) result }
        ensures does { OnOk result (Does (IsReachedOrReflects self.old.host.heaps.heap (named x))
            (λ g. graph.set_register g (s_register r) (named x)) self.old.host self.new.host) }
        ensures writes { OnOk result (WritesOnly (Spot.register (s_register r) ∷ []) self.old.host.heaps.heap self.new.host.heaps.heap) }
        ensures written { OnOk result (IsWritten (Spot.register (s_register r)) (named x) self.new.host.heaps.heap) }
        ensures same { OnErr result (self.new ≡ self.old) }
        ensures quiet { Quiet self.old self.new }
        ensures none_came { NoneComes self.old.host self.new.host }
        ensures lasts { Lasts None self.old.host self.new.host }
        ensures stays { StaysUsable self.old.host self.new.host }
    {
        let done = self.runtime.set_script_root(r, x);
        self.runtime.keeps();
        done
    }

    /// Slot `i` of an object, counted from 0, holds another object from then on, or nothing. A native holds natives and script
    /// objects; a script object holds script objects, and a reflector is preserved before.
    ///
    /// What is handed in is reached, or is the reflector of a native that is reached: one that `wrap` just made, which nothing holds
    /// yet, may be stored, and may be written.
    ///
    /// What a native's slot held is given up, and what then has no reference is deleted and told. A native that is written is a
    /// suspect then. Takes no memory.
    #[tactic(auto, using(crate::proofs::HasRoom::after_freeing, crate::proofs::HasRoom::told_freed))]
    pub fn store(&mut self, x: Object, i: SlotNo, y: Option<Object>) -> Result<(), Stop>
        ensures stops { IsStoppedBy (stop_storing self.old.host x i y) result }
        ensures does { OnOk result (Does (IsReachedOrReflects self.old.host.heaps.heap (Some x.name)
            × IsReachedOrReflects self.old.host.heaps.heap (named y)) (stored x i (named y)) self.old.host self.new.host) }
        ensures writes { OnOk result (WritesOnly (Spot.slot x.name i ∷ Spot.preserved x.name ∷ []) self.old.host.heaps.heap self.new.host.heaps.heap) }
        ensures written { OnOk result (IsWritten (Spot.slot x.name i) (named y) self.new.host.heaps.heap) }
        ensures preserves { OnOk result (IsWritten (Spot.preserved x.name) (if_reflector x.name) self.new.host.heaps.heap) }
        ensures same { OnErr result (self.new ≡ self.old) }
        ensures tells { TellsFreed self.old.host self.new.host (told_all self.old.told) (told_all self.new.told) }
        ensures aside { Aside self.old self.new }
        ensures none_came { NoneComes self.old.host self.new.host }
        ensures lasts { Lasts None self.old.host self.new.host }
        ensures stays { StaysUsable self.old.host self.new.host }
    {
        let done = self.runtime.store(x, i, y, &mut self.told);
        self.told.keeps();
        self.runtime.keeps();
        done
    }

    /// Slot `i` of the native `to`, counted from 0, holds from then on what slot `j` of the native `from` held, which is empty
    /// then. Where both are one place nothing moves.
    ///
    /// What moves keeps its references, but for what slot `i` held, which is given up as in `store`. `to` is a suspect then.
    /// Takes no memory.
    #[tactic(auto, using(crate::proofs::HasRoom::after_freeing, crate::proofs::HasRoom::told_freed))]
    pub fn move_slot(&mut self, to: Object, i: SlotNo, from: Object, j: SlotNo) -> Result<(), Stop>
        ensures stops { IsStoppedBy (stop_moving self.old.host to i from j) result }
        ensures does { OnOk result (Does (IsRooted self.old.host to × IsRooted self.old.host from)
            (λ g. graph.move_slot g (Some to.name) i (Some from.name) j (slot_held self.old.host.heaps.heap (number_of from.name) j))
            self.old.host self.new.host) }
        ensures writes { OnOk result (WritesOnly (Spot.slot to.name i ∷ Spot.slot from.name j ∷ []) self.old.host.heaps.heap self.new.host.heaps.heap) }
        ensures written { OnOk result (IsWritten (Spot.slot to.name i) (reads self.old.host.heaps.heap (Spot.slot from.name j)) self.new.host.heaps.heap) }
        ensures emptied { OnOk result (Spot.slot to.name i ≢ Spot.slot from.name j → IsWritten (Spot.slot from.name j) None self.new.host.heaps.heap) }
        ensures same { OnErr result (self.new ≡ self.old) }
        ensures tells { TellsFreed self.old.host self.new.host (told_all self.old.told) (told_all self.new.told) }
        ensures aside { Aside self.old self.new }
        ensures none_came { NoneComes self.old.host self.new.host }
        ensures lasts { Lasts None self.old.host self.new.host }
        ensures stays { StaysUsable self.old.host self.new.host }
    {
        let done = self.runtime.move_slot(to, i, from, j, &mut self.told);
        self.told.keeps();
        self.runtime.keeps();
        done
    }

    /// The reflector of a native, for script. The one that it has, or one that is made: put it into a root, a slot or an entry, make
    /// a proxy of it or preserve it, for by itself it is held by nothing. Each of these takes it while its native is reached. One that
    /// is made has the number 0 of the program's.
    ///
    /// `NoMemory` leaves the graph as it is (`tried`), and comes only where the native has no reflector (`wanted`); the native may be a
    /// suspect then. Each other refusal changes nothing at all (`same`).
    #[tactic(auto, using(crate::proofs::KeptDoomed::still_doomed))]
    pub fn wrap(&mut self, x: Object) -> Result<Object, Stop>
        ensures stops { IsStoppedOrRefused (stop_native self.old.host x) result }
        ensures does { OnOk result (Does (IsRooted self.old.host x) (λ g. graph.wrapped g (Some x.name)) self.old.host self.new.host) }
        ensures writes { WritesOnly [] self.old.host.heaps.heap self.new.host.heaps.heap }
        ensures there { IfOk result (λ y. IsThere self.new.host y) }
        ensures name { IfOk result (λ y. Some y.name ≡ reflector_of (Some x.name)) }
        // each other cause changes nothing; memory is wanted only for a reflector that is not there
        ensures same { (s : Stop) → result ≡ Err s → s ≢ Stop.NoMemory → self.new ≡ self.old }
        ensures wanted { result ≡ Err Stop.NoMemory → has_reflector self.old.host.heaps.heap (number_of x.name) ≡ false }
        ensures tried { OnErr result (Tries (IsRooted self.old.host x) self.old.host self.new.host) }
        ensures tells { TellsFreed self.old.host self.new.host (told_all self.old.told) (told_all self.new.told) }
        ensures aside { OnErr result (Aside self.old self.new) }
        ensures reflects { IfOk result (λ y. Reflects y.name (has_reflector self.old.host.heaps.heap (number_of x.name)) self.old self.new) }
        // no object comes but that reflector
        ensures came { IfOk result (λ y. Comes y.name self.old.host self.new.host) }
        ensures none_came { OnErr result (NoneComes self.old.host self.new.host) }
        ensures lasts { Lasts (reflector_of (Some x.name)) self.old.host self.new.host }
        ensures stays { StaysUsable self.old.host self.new.host }
    {
        let Some(reflector) = self.runtime.reflector_of(x)? else {
            let reflector = self.wrap_anew(x)?;
            self.book.clear_data(reflector.name);
            return Ok(reflector);
        };
        self.wrap_again(x, reflector)
    }

    // The reflector that a native has: nothing is wanted, and none comes.
    #[tactic(auto, using(crate::proofs::KeptDoomed::still_doomed))]
    fn wrap_again(&mut self, x: Object, reflector: Object) -> Result<Object, Stop>
        requires native { stop_native self.old.host x ≡ None }
        requires has { has_reflector self.old.host.heaps.heap (number_of x.name) ≡ true }
        requires there { IsThere self.old.host reflector }
        requires reflects { Some reflector.name ≡ reflector_of (Some x.name) }
        ensures ok { IsOk result }
        ensures does { Does (IsRooted self.old.host x) (λ g. graph.wrapped g (Some x.name)) self.old.host self.new.host }
        ensures writes { WritesOnly [] self.old.host.heaps.heap self.new.host.heaps.heap }
        ensures there { IfOk result (λ y. IsThere self.new.host y) }
        ensures name { IfOk result (λ y. Some y.name ≡ reflector_of (Some x.name)) }
        ensures tells { TellsFreed self.old.host self.new.host (told_all self.old.told) (told_all self.new.told) }
        ensures aside { Aside self.old self.new }
        ensures none_came { NoneComes self.old.host self.new.host }
        ensures lasts { Lasts (reflector_of (Some x.name)) self.old.host self.new.host }
        ensures stays { StaysUsable self.old.host self.new.host }
    {
        let answer = self.runtime.wrap(x, &mut self.told);
        self.told.keeps();
        self.runtime.keeps();
        answer
    }

    // One that is made for a native that has none.
    #[tactic(auto, using(crate::proofs::KeptDoomed::still_doomed))]
    fn wrap_anew(&mut self, x: Object) -> Result<Object, Stop>
        requires native { stop_native self.old.host x ≡ None }
        ensures refused { (s : Stop) → result ≡ Err s → s ≡ Stop.NoMemory }
        ensures does { OnOk result (Does (IsRooted self.old.host x) (λ g. graph.wrapped g (Some x.name)) self.old.host self.new.host) }
        ensures writes { WritesOnly [] self.old.host.heaps.heap self.new.host.heaps.heap }
        ensures there { IfOk result (λ y. IsThere self.new.host y) }
        ensures name { IfOk result (λ y. Some y.name ≡ reflector_of (Some x.name)) }
        ensures tried { OnErr result (Tries (IsRooted self.old.host x) self.old.host self.new.host) }
        ensures tells { TellsFreed self.old.host self.new.host (told_all self.old.told) (told_all self.new.told) }
        ensures aside { Aside self.old self.new }
        ensures came { IfOk result (λ y. Comes y.name self.old.host self.new.host) }
        ensures none_came { OnErr result (NoneComes self.old.host self.new.host) }
        ensures lasts { Lasts (reflector_of (Some x.name)) self.old.host self.new.host }
        ensures stays { StaysUsable self.old.host self.new.host }
    {
        let room = with_one_more(self.most_told())?;
        self.told.reserve(room)?;
        let made = self.runtime.wrap(x, &mut self.told);
        self.told.keeps();
        self.runtime.keeps();
        made
    }

    /// A reflector is preserved from then on: its native holds it. It may be one that nothing held before, where its native is
    /// reached. No object leaves or comes by it. Takes no memory.
    #[tactic(auto, using(crate::proofs::HasRoom::after_nothing))]
    pub fn preserve(&mut self, x: Object) -> Result<(), Stop>
        ensures stops { IsStoppedBy (stop_reflector self.old.host x) result }
        ensures does { OnOk result (Does (IsReachedOrReflects self.old.host.heaps.heap (Some x.name))
            (λ g. graph.preserve g (Some x.name)) self.old.host self.new.host) }
        ensures writes { OnOk result (WritesOnly (Spot.preserved x.name ∷ []) self.old.host.heaps.heap self.new.host.heaps.heap) }
        ensures written { OnOk result (IsWritten (Spot.preserved x.name) (Some x.name) self.new.host.heaps.heap) }
        ensures same { OnErr result (self.new ≡ self.old) }
        ensures quiet { Quiet self.old self.new }
        ensures none_came { NoneComes self.old.host self.new.host }
        ensures lasts { Lasts None self.old.host self.new.host }
        ensures stays { StaysUsable self.old.host self.new.host }
    {
        let done = self.runtime.preserve(x);
        self.runtime.keeps();
        done
    }

    // The program's numbers

    /// The number that the program gave an object, 0 where it gave none.
    pub fn data(&self, x: Object) -> Result<u64, Stop>
        ensures stops { IsStoppedBy (stop_at self.now.host x) result }
        ensures value { IfOk result (λ value. value ≡ data_at self.now.books x.name) }
    {
        self.runtime.slots(x)?;
        Ok(self.book.data(x.name))
    }

    /// Gives an object a number, an address say, that the program finds again by `data`, and by `data_of` once the object is gone.
    /// It takes 8 bytes for each object of its kind (native, script object, reflector) that was made before it. `NoMemory` changes
    /// no number.
    pub fn set_data(&mut self, x: Object, value: u64) -> Result<(), Stop>
        ensures stops { IsStoppedOrRefused (stop_at self.old.host x) result }
        ensures given { OnOk result (data_at self.new.books x.name ≡ value) }
        ensures others { (y : TheName) → y ≢ x.name → data_at self.new.books y ≡ data_at self.old.books y }
        ensures err { OnErr result ((y : TheName) → data_at self.new.books y ≡ data_at self.old.books y) }
        // memory is wanted only where the list of its kind is too short for it
        ensures wanted { result ≡ Err Stop.NoMemory → length (list_for self.old.books.given x.name) ≤ number_of x.name }
        // each other cause changes nothing
        ensures same { (s : Stop) → result ≡ Err s → s ≢ Stop.NoMemory → self.new ≡ self.old }
        ensures rest { self.new ≡ record self.old { books = record self.old.books { given = self.new.books.given } } }
    {
        self.runtime.slots(x)?;
        self.book.set_data(x.name, value)?;
        Ok(())
    }

    /// The number that the program gave the object of this name, there or gone; 0 where it gave none. To be asked for what was told.
    /// No name but a reflector's is used twice, and a reflector that is made anew has the number 0.
    pub fn data_of(&self, x: Name) -> u64
        ensures { result ≡ data_at self.now.books x }
    {
        self.book.data(x)
    }
}
