//! Roots at places of their bank. The place may lie beyond the registers that commands can name: then the bank is lengthened.
ghost use Rattle.std.specs.Prelude.{◌≡◌, ◌+◌, ◌-◌, ◌<◌, ◌≤◌, ◌++◌, ℕ, List, None, replicate, length, is_ok, OnOk, OnErr, if◌then◌else◌, option_map};
ghost use Rattle.cc_names.specs.Sizes.{most_roots};
ghost use Rattle.cc_names.specs.declared.register.Reg.TheVariants.{N as n_register, S as s_register};
ghost use Rattle.cc_model.specs.Banks.{of_natives, of_scripts};
ghost use Rattle.cc_model.specs.Heap.{lengthen};
ghost use Rattle.cc_model.specs.Effects.{root_at};
ghost use Rattle.cc_model.specs.Telling.{TellsEvents};
ghost use Rattle.cc_model.specs.Graph as graph;
ghost use Rattle.cc_heaps.specs.Keyed.{IsInOrder, changed_to};
ghost use Rattle.cc_heaps.specs.Changes.{IsNativeThere, IsScriptThere, native_name, script_name};
ghost use Rattle.cc_heaps.specs.Rooting.{IsOfNatives, IsRootedThere, MayBeRooted, bank_rooted, register_at, rooted_name};
ghost use Rattle.cc_heaps.specs.Standing.{IsReached, IsReachedOrReflects, StandsAfter};
ghost use Rattle.cc_heaps.specs.Few.{AreOwnedOnce};
ghost use Rattle.cc_heaps.specs.Marks.{KeepsMarks};
ghost use Rattle.cc_heaps.specs.NewMarks.{marks_of};
ghost use Rattle.cc_model.specs.Marking.{exposed_marks};
ghost use Rattle.cc_heaps.specs.Keeping.{KeepsAll};
ghost use Rattle.cc_heaps.specs.Leaving.{NothingLeft, TellsWhatIsFreed};

use crate::heaps::Heaps;
use crate::rooted::Rooted;
use cc_model::Notices;
use cc_names::{NKey, NoMemory, RegNo, SKey};

// A bank of natives with so many places at least: those that come are empty. `NoMemory` changes nothing.
fn lengthen_natives(bank: &mut Vec<Option<NKey>>, places: usize) -> Result<(), NoMemory>
    ensures items { bank.new.items ≡ (if is_ok result then bank.old.items ++ replicate (places - length bank.old.items) None else bank.old.items) }
    ensures wanted { OnErr result (length bank.old.items < places) }
{
    if bank.len() < places {
        bank.resize(places, None)?;
    }
    Ok(())
}

// A bank of script objects with so many places at least: those that come are empty. `NoMemory` changes nothing.
fn lengthen_scripts(bank: &mut Vec<Option<SKey>>, places: usize) -> Result<(), NoMemory>
    ensures items { bank.new.items ≡ (if is_ok result then bank.old.items ++ replicate (places - length bank.old.items) None else bank.old.items) }
    ensures wanted { OnErr result (length bank.old.items < places) }
{
    if bank.len() < places {
        bank.resize(places, None)?;
    }
    Ok(())
}

impl Heaps {
    /// How many native registers there are: those that commands can name, and those that came with roots beyond them.
    pub fn native_reg_count(&self) -> RegNo
        ensures { result ≡ length self.now.heap.native_registers }
    {
        self.native_registers.len() as RegNo
    }

    /// How many script registers there are: those that commands can name, and those that came with roots beyond them.
    pub fn script_reg_count(&self) -> RegNo
        ensures { result ≡ length self.now.heap.script_registers }
    {
        self.script_registers.len() as RegNo
    }

    // A register for a native at a place, which is empty where it comes. `NoMemory` changes nothing.
    fn reach_native_reg(&mut self, place: RegNo) -> Result<(), NoMemory>
        requires { place < most_roots }
        ensures heap { OnOk result (self.new ≡ changed_to self.old (lengthen self.old.heap of_natives (place + 1))) }
        ensures same { OnErr result (self.new ≡ self.old) }
        ensures beyond { OnErr result (length self.old.heap.native_registers ≤ place) }
    {
        lengthen_natives(&mut self.native_registers, place as usize + 1)
    }

    // A register for a script object at a place, which is empty where it comes. `NoMemory` changes nothing.
    fn reach_script_reg(&mut self, place: RegNo) -> Result<(), NoMemory>
        requires { place < most_roots }
        ensures heap { OnOk result (self.new ≡ changed_to self.old (lengthen self.old.heap of_scripts (place + 1))) }
        ensures same { OnErr result (self.new ≡ self.old) }
        ensures beyond { OnErr result (length self.old.heap.script_registers ≤ place) }
    {
        lengthen_scripts(&mut self.script_registers, place as usize + 1)
    }

    // A place of the bank of natives holds a native from then on, or nothing.
    fn root_native_at<N: Notices>(
        &mut self,
        place: RegNo,
        content: Option<NKey>,
        out: &mut N,
    ) -> Result<(), NoMemory>
        requires within { place < most_roots }
        requires order { (owned : List ℕ) × IsInOrder owned self.old × AreOwnedOnce owned }
        requires there { IsNativeThere self.old content }
        ensures heap { OnOk result (self.new.heap ≡ (root_at self.old.heap (n_register place) (native_name self.old content)).heap) }
        ensures told { OnOk result (TellsEvents (N.telling out.old) (N.telling out.new)
            (root_at self.old.heap (n_register place) (native_name self.old content)).events) }
        ensures tells { TellsWhatIsFreed self.old.heap self.new.heap (N.telling out.old) (N.telling out.new) }
        ensures kept { KeepsAll self.old self.new }
        ensures marks { KeepsMarks self.old self.new }
        ensures marking { marks_of self.new ≡ marks_of self.old }
        ensures same { OnErr result (self.new ≡ self.old) }
        ensures silent { OnErr result (N.telling out.new ≡ N.telling out.old) }
        ensures beyond { OnErr result (length self.old.heap.native_registers ≤ place) }
        ensures stands { OnOk result (IsReached self.old.heap (native_name self.old content) →
            StandsAfter self.old.heap self.new.heap (λ g. graph.root_at g (n_register place) (native_name self.old content))) }
    {
        self.reach_native_reg(place)?;
        self.set_native_reg(place, content, out);
        Ok(())
    }

    // A place of the bank of script objects holds a script object from then on, or nothing.
    fn root_script_at(&mut self, place: RegNo, content: Option<SKey>) -> Result<(), NoMemory>
        requires within { place < most_roots }
        requires order { (owned : List ℕ) × IsInOrder owned self.old }
        requires there { IsScriptThere self.old content }
        ensures heap { OnOk result (self.new.heap ≡ (root_at self.old.heap (s_register place) (script_name self.old content)).heap) }
        ensures left { NothingLeft self.old.heap self.new.heap }
        ensures kept { KeepsAll self.old self.new }
        ensures marking { OnOk result (marks_of self.new ≡ option_map (exposed_marks self.old.heap (script_name self.old content)) (marks_of self.old)) }
        ensures same { OnErr result (self.new ≡ self.old) }
        ensures beyond { OnErr result (length self.old.heap.script_registers ≤ place) }
        ensures stands { OnOk result (IsReachedOrReflects self.old.heap (script_name self.old content) →
            StandsAfter self.old.heap self.new.heap (λ g. graph.root_at g (s_register place) (script_name self.old content))) }
    {
        self.reach_script_reg(place)?;
        self.set_script_reg(place, content);
        Ok(())
    }

    /// A place of a bank, counted from 0 and below 1073741824, holds an object from then on, or nothing. Where the place is beyond
    /// the bank's end the bank is lengthened up to it: a register takes 8 bytes.
    ///
    /// What the place held is given up as by `set_native_reg`, and what comes into a script register is exposed as by
    /// `set_script_reg`, by the new mark too where a marking goes on in slices. `NoMemory` changes nothing.
    pub fn root_at<N: Notices>(
        &mut self,
        place: RegNo,
        content: Rooted,
        out: &mut N,
    ) -> Result<(), NoMemory>
        requires within { place < most_roots }
        requires order { (owned : List ℕ) × IsInOrder owned self.old × AreOwnedOnce owned }
        requires there { IsRootedThere self.old content }
        ensures heap { OnOk result (self.new.heap ≡ (root_at self.old.heap (register_at place content) (rooted_name self.old content)).heap) }
        ensures told { OnOk result (TellsEvents (N.telling out.old) (N.telling out.new)
            (root_at self.old.heap (register_at place content) (rooted_name self.old content)).events) }
        ensures tells { TellsWhatIsFreed self.old.heap self.new.heap (N.telling out.old) (N.telling out.new) }
        ensures kept { KeepsAll self.old self.new }
        ensures marks { IsOfNatives content → KeepsMarks self.old self.new }
        ensures marking { OnOk result (marks_of self.new ≡ option_map (exposed_marks self.old.heap (rooted_name self.old content)) (marks_of self.old)) }
        ensures same { OnErr result (self.new ≡ self.old) }
        ensures silent { OnErr result (N.telling out.new ≡ N.telling out.old) }
        ensures beyond { OnErr result (length (bank_rooted self.old.heap content) ≤ place) }
        ensures stands { OnOk result (MayBeRooted self.old content →
            StandsAfter self.old.heap self.new.heap (λ g. graph.root_at g (register_at place content) (rooted_name self.old content))) }
    {
        match content {
            Rooted::Native(native) => self.root_native_at(place, native, out),
            Rooted::Script(object) => self.root_script_at(place, object),
        }
    }
}
