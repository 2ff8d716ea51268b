//! Script objects made, held, written and exposed.
ghost use Rattle.std.specs.Prelude.{◌≡◌, ◌+◌, ◌<◌, ◌≤◌, ◌++◌, ◌∷◌, ℕ, List, [], false, length, Some, Err, IsTrue, IfOk, IfSome, OnOk, OnErr, nat_le, option_map};
ghost use Rattle.cc_names.specs.declared.kind.Colour.TheVariants.{Black};
ghost use Rattle.cc_names.specs.declared.kind.Kind.TheVariants.{Map, Plain};
ghost use Rattle.cc_names.specs.declared.register.Reg.TheVariants.{S as s_register};
ghost use Rattle.cc_names.specs.Names.{object};
ghost use Rattle.cc_names.specs.Sizes.{most_slots};
ghost use Rattle.cc_model.specs.Heap.{preserve, set_register, set_slot};
ghost use Rattle.cc_model.specs.Effects.{hold_script, make_object, make_proxy, with_object};
ghost use Rattle.cc_model.specs.Exposure.{exposed};
ghost use Rattle.cc_model.specs.Marking.{exposed_marks};
ghost use Rattle.cc_model.specs.declared.command.Command.TheVariants as command;
ghost use Rattle.cc_model.specs.Graph as graph;
ghost use Rattle.cc_script.specs.Objects.{colour_at, is_there, name_at, slots_at};
ghost use Rattle.cc_heaps.specs.Keyed.{IsInOrder, changed_to};
ghost use Rattle.cc_heaps.specs.Making.{IsDelegateThere, MayBeMade, delegate_name, kind_to_make, made_in, object_to_make, slots_to_make};
ghost use Rattle.cc_heaps.specs.Changes.{IsScriptThere, KeepsKeys, script_name};
ghost use Rattle.cc_heaps.specs.Standing.{IsReached, IsReachedOrReflects, MayHold, StandsAfter, StillStands};
ghost use Rattle.cc_heaps.specs.Marks.{KeepsMarks, MarksGoOn};
ghost use Rattle.cc_heaps.specs.Keeping.{KeepsAll};
ghost use Rattle.cc_heaps.specs.NewMarks.{IsRemarked, marks_of};

use crate::heaps::Heaps;
use crate::heaps::to_make::ToMake;
use crate::make_stop::MakeStop;
use cc_names::{Name, NoMemory, RegNo, SKey, ScriptNo, SlotNo};
use cc_script::Scripts;

// Makes a script object; its key.
fn create(scripts: &mut Scripts, number: ScriptNo, what: ToMake) -> Result<SKey, NoMemory>
    requires { MayBeMade scripts.old what }
    ensures made { IfOk result (λ key. scripts.new ≡ scripts.old ++ object_to_make key.0 number.0 what ∷ []) }
    ensures vacant { IfOk result (λ key. is_there scripts.old key.0 ≡ false) }
    ensures err { OnErr result (scripts.new ≡ scripts.old) }
{
    match what {
        ToMake::Plain(slots) => scripts.create_plain(number, slots),
        ToMake::Map => scripts.create_map(number),
        ToMake::Proxy(delegate) => scripts.create_proxy(number, delegate),
    }
}

impl Heaps {
    // A script register written. What it holds is exposed before.
    fn write_script_reg(&mut self, r: RegNo, content: Option<SKey>)
        requires within { r < length self.old.heap.script_registers }
        requires order { (owned : List ℕ) × IsInOrder owned self.old }
        requires there { IsScriptThere self.old content }
        ensures heap { self.new.heap ≡ set_register self.old.heap (s_register r) (script_name self.old content) }
        ensures natives { self.new.keys ≡ self.old.keys }
        ensures scripts { self.new.scripts ≡ self.old.scripts }
        ensures marks { KeepsMarks self.old self.new }
        ensures order { (owned : List ℕ) → IsInOrder owned self.old → IsInOrder owned self.new }
    {
        self.script_registers[r as usize] = content;
    }

    // A script object that is exposed is black by the new mark, where a marking goes on, with all that it reaches past objects that
    // are not black so.
    fn expose_new(&mut self, key: SKey)
        requires order { (owned : List ℕ) × IsInOrder owned self.old }
        requires live { IsTrue (is_there self.old.scripts key.0) }
        ensures marking { marks_of self.new ≡ option_map (exposed_marks self.old.heap (name_at self.old.scripts key.0)) (marks_of self.old) }
        ensures heap { self.new.heap ≡ self.old.heap }
        ensures natives { self.new.keys ≡ self.old.keys }
        ensures same { IsRemarked self.old.scripts self.new.scripts }
        ensures marks { MarksGoOn self.old self.new }
        ensures order { (owned : List ℕ) → IsInOrder owned self.old → IsInOrder owned self.new }
    {
        if self.to_scan.goes_on() {
            self.scripts.expose_new(key);
        }
    }

    // A script object that is exposed is black, with all that it reaches.
    fn expose_colours(&mut self, key: SKey)
        requires order { (owned : List ℕ) × IsInOrder owned self.old }
        requires live { IsTrue (is_there self.old.scripts key.0) }
        ensures heap { self.new.heap ≡ exposed self.old.heap (name_at self.old.scripts key.0) }
        ensures natives { self.new.keys ≡ self.old.keys }
        ensures names { (k : ℕ) → name_at self.new.scripts k ≡ name_at self.old.scripts k }
        ensures marks { KeepsMarks self.old self.new }
        ensures marking { marks_of self.new ≡ marks_of self.old }
        ensures order { (owned : List ℕ) → IsInOrder owned self.old → IsInOrder owned self.new }
    {
        self.scripts.expose(key);
    }

    // What comes into a script register exposed.
    fn expose_content(&mut self, content: Option<SKey>)
        requires order { (owned : List ℕ) × IsInOrder owned self.old }
        requires there { IsScriptThere self.old content }
        ensures heap { self.new.heap ≡ exposed self.old.heap (script_name self.old content) }
        ensures natives { self.new.keys ≡ self.old.keys }
        ensures keys { KeepsKeys self.old self.new }
        ensures marks { MarksGoOn self.old self.new }
        ensures marking { marks_of self.new ≡ option_map (exposed_marks self.old.heap (script_name self.old content)) (marks_of self.old) }
        ensures name { script_name self.new content ≡ script_name self.old content }
        ensures there { IsScriptThere self.new content }
        ensures order { (owned : List ℕ) → IsInOrder owned self.old → IsInOrder owned self.new }
    {
        if let Some(key) = content {
            self.expose_new(key);
            self.expose_colours(key);
        }
    }

    // A script object with the next number; its key.
    fn add_object(&mut self, what: ToMake) -> Result<SKey, NoMemory>
        requires order { (owned : List ℕ) × IsInOrder owned self.old }
        requires may { MayBeMade self.old.scripts what }
        requires room { self.old.heap.scripts_made < self.old.heap.limits.scripts }
        ensures made { OnOk result (self.new.heap.scripts_made ≡ self.old.heap.scripts_made + 1) }
        ensures heap { OnOk result (self.new.heap ≡ with_object self.old.heap (kind_to_make what) (slots_to_make what) (delegate_name self.old what)) }
        ensures name { IfOk result (λ key. name_at self.new.scripts key.0 ≡ Some (object (self.old.heap.scripts_made + 1))) }
        ensures delegate { OnOk result (delegate_name self.new what ≡ delegate_name self.old what) }
        ensures there { OnOk result (IsDelegateThere self.new.scripts what) }
        ensures natives { self.new.keys ≡ self.old.keys }
        ensures keys { KeepsKeys self.old self.new }
        ensures marks { KeepsMarks self.old self.new }
        ensures same { OnErr result (self.new ≡ self.old) }
        ensures order { (owned : List ℕ) → IsInOrder owned self.old → IsInOrder owned self.new }
    {
        let number = ScriptNo(self.scripts_made + 1);
        self.to_scan.reserve(self.scripts.len() + 1)?;
        let key = create(&mut self.scripts, number, what)?;
        self.scripts_made += 1;
        Ok(key)
    }

    // The delegate of what is made is preserved, where it is a reflector.
    fn preserve_delegate(&mut self, what: ToMake)
        requires order { (owned : List ℕ) × IsInOrder owned self.old }
        requires there { IsDelegateThere self.old.scripts what }
        ensures heap { self.new ≡ changed_to self.old (preserve self.old.heap (delegate_name self.old what)) }
        ensures order { (owned : List ℕ) → IsInOrder owned self.old → IsInOrder owned self.new }
    {
        if let ToMake::Proxy(delegate) = what {
            self.preserve(delegate);
        }
    }

    // A script object made and held by a register. Its name.
    fn new_object(&mut self, r: RegNo, what: ToMake) -> Result<Name, MakeStop>
        requires within { r < length self.old.heap.script_registers }
        requires order { (owned : List ℕ) × IsInOrder owned self.old }
        requires may { MayBeMade self.old.scripts what }
        ensures full { result ≡ Err MakeStop.Full → self.old.heap.limits.scripts ≤ self.old.heap.scripts_made }
        ensures full_always { self.old.heap.limits.scripts ≤ self.old.heap.scripts_made → result ≡ Err MakeStop.Full }
        ensures name { IfOk result (λ x. x ≡ object (self.old.heap.scripts_made + 1)) }
        ensures heap { OnOk result (self.new.heap ≡ make_object (preserve self.old.heap (delegate_name self.old what)) r (kind_to_make what)
            (slots_to_make what) (delegate_name self.old what)) }
        ensures natives { self.new.keys ≡ self.old.keys }
        ensures kept { KeepsAll self.old self.new }
        ensures marks { KeepsMarks self.old self.new }
        ensures same { OnErr result (self.new ≡ self.old) }
        ensures stands { OnOk result (IsReached self.old.heap (delegate_name self.old what) →
            StandsAfter self.old.heap self.new.heap (λ g. made_in g r what (delegate_name self.old what))) }
    {
        if self.scripts_made >= self.limits.scripts() {
            return Err(MakeStop::Full);
        }
        let name = Name::Script(ScriptNo(self.scripts_made + 1));
        match self.add_object(what) {
            Ok(key) => {
                self.preserve_delegate(what);
                self.write_script_reg(r, Some(key));
                Ok(name)
            }
            Err(NoMemory) => Err(MakeStop::NoMemory),
        }
    }

    /// Whether as many plain objects, weak maps and proxies as the limit were ever made.
    pub fn has_all_scripts(&self) -> bool
        ensures { result ≡ nat_le self.now.heap.limits.scripts self.now.heap.scripts_made }
    {
        self.scripts_made >= self.limits.scripts()
    }

    /// Makes a plain script object with `slots` empty slots (0 to 256), which register `r` holds from then on. Its name.
    ///
    /// `Full` exactly where as many plain objects, weak maps and proxies as the limit were ever made; `NoMemory` at any other
    /// time. Neither changes anything.
    pub fn new_plain(&mut self, r: RegNo, slots: SlotNo) -> Result<Name, MakeStop>
        requires within { r < length self.old.heap.script_registers }
        requires order { (owned : List ℕ) × IsInOrder owned self.old }
        requires slots { slots ≤ most_slots }
        ensures full { result ≡ Err MakeStop.Full → self.old.heap.limits.scripts ≤ self.old.heap.scripts_made }
        ensures full_always { self.old.heap.limits.scripts ≤ self.old.heap.scripts_made → result ≡ Err MakeStop.Full }
        ensures name { IfOk result (λ x. x ≡ object (self.old.heap.scripts_made + 1)) }
        ensures heap { OnOk result (self.new.heap ≡ make_object self.old.heap r Plain slots None) }
        ensures natives { self.new.keys ≡ self.old.keys }
        ensures kept { KeepsAll self.old self.new }
        ensures marks { KeepsMarks self.old self.new }
        ensures same { OnErr result (self.new ≡ self.old) }
        ensures stands { OnOk result (StandsAfter self.old.heap self.new.heap (λ g. graph.step g (command.Script r slots))) }
    {
        self.new_object(r, ToMake::Plain(slots))
    }

    /// Makes a weak map without entries, which register `r` holds from then on. Its name.
    ///
    /// `Full` exactly where as many plain objects, weak maps and proxies as the limit were ever made; `NoMemory` at any other
    /// time. Neither changes anything.
    pub fn new_map(&mut self, r: RegNo) -> Result<Name, MakeStop>
        requires within { r < length self.old.heap.script_registers }
        requires order { (owned : List ℕ) × IsInOrder owned self.old }
        ensures full { result ≡ Err MakeStop.Full → self.old.heap.limits.scripts ≤ self.old.heap.scripts_made }
        ensures full_always { self.old.heap.limits.scripts ≤ self.old.heap.scripts_made → result ≡ Err MakeStop.Full }
        ensures name { IfOk result (λ x. x ≡ object (self.old.heap.scripts_made + 1)) }
        ensures heap { OnOk result (self.new.heap ≡ make_object self.old.heap r Map 0 None) }
        ensures natives { self.new.keys ≡ self.old.keys }
        ensures kept { KeepsAll self.old self.new }
        ensures marks { KeepsMarks self.old self.new }
        ensures same { OnErr result (self.new ≡ self.old) }
        ensures stands { OnOk result (StandsAfter self.old.heap self.new.heap (λ g. graph.step g (command.WeakMap r))) }
    {
        self.new_object(r, ToMake::Map)
    }

    /// Makes a proxy of a black script object, its delegate for good, which register `r` holds from then on. Its name. A
    /// delegate that is a reflector is preserved.
    ///
    /// `Full` exactly where as many plain objects, weak maps and proxies as the limit were ever made; `NoMemory` at any other
    /// time. Neither changes anything.
    pub fn new_proxy(&mut self, r: RegNo, delegate: SKey) -> Result<Name, MakeStop>
        requires within { r < length self.old.heap.script_registers }
        requires order { (owned : List ℕ) × IsInOrder owned self.old }
        requires black { colour_at self.old.scripts delegate.0 ≡ Some Black }
        ensures full { result ≡ Err MakeStop.Full → self.old.heap.limits.scripts ≤ self.old.heap.scripts_made }
        ensures full_always { self.old.heap.limits.scripts ≤ self.old.heap.scripts_made → result ≡ Err MakeStop.Full }
        ensures name { IfOk result (λ x. x ≡ object (self.old.heap.scripts_made + 1)) }
        ensures heap { OnOk result (self.new.heap ≡ make_proxy self.old.heap r (name_at self.old.scripts delegate.0)) }
        ensures natives { self.new.keys ≡ self.old.keys }
        ensures kept { KeepsAll self.old self.new }
        ensures marks { KeepsMarks self.old self.new }
        ensures same { OnErr result (self.new ≡ self.old) }
        ensures stands { OnOk result (IsReached self.old.heap (name_at self.old.scripts delegate.0) →
            StandsAfter self.old.heap self.new.heap (λ g. graph.with_proxy g r (name_at self.old.scripts delegate.0))) }
    {
        self.new_object(r, ToMake::Proxy(delegate))
    }

    /// Register `r` holds a script object from then on, or nothing. What comes into it is exposed: it is black, with all
    /// that it reaches over slots and from proxies to their delegates. Where a marking goes on in slices it is black by the new mark
    /// too, with all that it reaches so past objects that are not black by it. Takes no memory.
    pub fn set_script_reg(&mut self, r: RegNo, content: Option<SKey>)
        requires within { r < length self.old.heap.script_registers }
        requires order { (owned : List ℕ) × IsInOrder owned self.old }
        requires there { IsScriptThere self.old content }
        ensures heap { self.new.heap ≡ hold_script self.old.heap r (script_name self.old content) }
        ensures natives { self.new.keys ≡ self.old.keys }
        ensures kept { KeepsAll self.old self.new }
        ensures marking { marks_of self.new ≡ option_map (exposed_marks self.old.heap (script_name self.old content)) (marks_of self.old) }
        ensures stands { IsReachedOrReflects self.old.heap (script_name self.old content) →
            StandsAfter self.old.heap self.new.heap (λ g. graph.set_register g (s_register r) (script_name self.old content)) }
    {
        self.expose_content(content);
        self.write_script_reg(r, content);
    }

    /// Slot `i` of a plain object or a reflector, counted from 0, holds a black script object from then on, or nothing.
    ///
    /// A reflector that is given contents is preserved before (`set_preserved`): one that is not is blank, so that it
    /// can be made again. The heaps stand for the graph with the slot written where that is so.
    pub fn store_script(&mut self, key: SKey, i: SlotNo, content: Option<SKey>)
        requires order { (owned : List ℕ) × IsInOrder owned self.old }
        requires live { IsTrue (is_there self.old.scripts key.0) }
        requires within { i < length (slots_at self.old.scripts key.0) }
        requires there { IsScriptThere self.old content }
        requires black { IfSome content (λ k. colour_at self.old.scripts k.0 ≡ Some Black) }
        ensures heap { self.new.heap ≡ set_slot self.old.heap (name_at self.old.scripts key.0) i (script_name self.old content) }
        ensures natives { self.new.keys ≡ self.old.keys }
        ensures kept { KeepsAll self.old self.new }
        ensures marks { KeepsMarks self.old self.new }
        ensures stands { IsReached self.old.heap (name_at self.old.scripts key.0) → IsReached self.old.heap (script_name self.old content) →
            MayHold self.old.heap (name_at self.old.scripts key.0) →
            StandsAfter self.old.heap self.new.heap (λ g. graph.set_slot g (name_at self.old.scripts key.0) i (script_name self.old content)) }
    {
        self.scripts.set_slot(key, i, content);
    }

    /// A script object that script touches is black from then on, with all that it reaches over slots and from proxies to
    /// their delegates: neither through natives nor over anything else. Where a marking goes on in slices it is black by the new mark
    /// too, with all that it reaches so past objects that are not black by it, whatever their colours are. Takes no memory.
    pub fn expose(&mut self, key: SKey)
        requires order { (owned : List ℕ) × IsInOrder owned self.old }
        requires live { IsTrue (is_there self.old.scripts key.0) }
        ensures heap { self.new.heap ≡ exposed self.old.heap (name_at self.old.scripts key.0) }
        ensures natives { self.new.keys ≡ self.old.keys }
        ensures kept { KeepsAll self.old self.new }
        ensures marking { marks_of self.new ≡ option_map (exposed_marks self.old.heap (name_at self.old.scripts key.0)) (marks_of self.old) }
        ensures stands { StillStands self.old.heap self.new.heap }
    {
        self.expose_content(Some(key));
    }
}
