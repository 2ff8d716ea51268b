//! The script heap as callers see it.
ghost use Rattle.std.specs.Prelude.{◌≡◌, ◌↔◌, ◌<◌, ◌≤◌, false, List, [], ◌∷◌, ◌++◌, length, map, Some, None, option_map, slice_index_or, IsSome, IsTrue, IfNone, IfSome, IfOk, OnOk, OnErr};
ghost use Rattle.cc_lists.specs.Members.{Among};
ghost use Rattle.cc_names.specs.declared.kind.Colour.TheVariants.{White, Black};
ghost use Rattle.cc_names.specs.declared.kind.Kind.TheVariants.{Proxy, Reflector};
ghost use Rattle.cc_names.specs.Sizes.{most_slots};
ghost use Rattle.cc_walk.specs.Walks.{is_walked};
ghost use Rattle.cc_script.specs.Objects.{Object, AreWhole, HaveOwnKeys, IsGiven, NoObjectWaits, change_object, colour_at, delegate_at, entering, first_key, is_there, key_after, kind_at, map_object, name_at, native_at, new_mark_at, plain_object, proxy_object, reflector_object, raised_among, slots_at, unwalked, walked_at, whitened, with_new_mark, with_slot, without_object, IsNotBelow};
ghost use Rattle.cc_script.specs.Walking.{keys_reached};
ghost use Rattle.cc_script.specs.NewMarks.{exchanged, keys_to_blacken, newly_blackened};
ghost use Rattle.cc_script.specs.ColourOrder.{HasColourOrder};

use crate::being::Being;
use crate::marking::Marking;
use crate::parts::ScriptParts;
use cc_names::{Colour, Kind, NKey, Name, NativeNo, NoMemory, SKey, ScriptNo, SlotNo};
use std::alloc::Global;
use std::marker::Model;
use std::mem;

/// The script objects by key, in order of making.
#[derive(Drop)]
pub struct Scripts {
    parts: ScriptParts,
    alloc: Global,
}

impl Model for Scripts {
    ghost use Rattle.std.specs.Prelude.{List};
    ghost use Rattle.cc_script.specs.Objects.{Object};

    ghost Value = { List Object };

    ghost use Rattle.cc_script.specs.Parts.{shows, IsAtRest};

    ghost view = { λ s. shows s.parts };

    ghost invariant = { λ s. IsAtRest s.parts };
}

impl Scripts {
    /// No objects, and no memory taken.
    pub fn new(alloc: Global) -> Scripts
        ensures { result ≡ [] }
    {
        Scripts {
            parts: ScriptParts::new(alloc),
            alloc,
        }
    }

    /// Makes a plain object with `slots` empty slots (0 to 256) and the number `no`. It is black, and goes last.
    ///
    /// `NoMemory` changes nothing. Beside the four calls that make an object none takes memory.
    pub fn create_plain(&mut self, no: ScriptNo, slots: SlotNo) -> Result<SKey, NoMemory>
        requires slots { slots ≤ most_slots }
        ensures made { IfOk result (λ key. self.new ≡ self.old ++ plain_object key.0 no.0 slots ∷ []) }
        ensures vacant { IfOk result (λ key. is_there self.old key.0 ≡ false) }
        ensures err { OnErr result (self.new ≡ self.old) }
    {
        self.parts.create(self.alloc, Being::Plain(no), slots)
    }

    /// Makes the reflector of the native with the number `no`, which stands at the key `native` of its own heap. It has
    /// four empty slots, is black, and goes last.
    ///
    /// `NoMemory` changes nothing.
    pub fn create_reflector(&mut self, native: NKey, no: NativeNo) -> Result<SKey, NoMemory>
        ensures made { IfOk result (λ key. self.new ≡ self.old ++ reflector_object key.0 native.0 no.0 ∷ []) }
        ensures vacant { IfOk result (λ key. is_there self.old key.0 ≡ false) }
        ensures err { OnErr result (self.new ≡ self.old) }
    {
        self.parts
            .create(self.alloc, Being::Reflector(no, native), 4)
    }

    /// Makes a weak map with the number `no`. It has no slots, is black, and goes last.
    ///
    /// `NoMemory` changes nothing.
    pub fn create_map(&mut self, no: ScriptNo) -> Result<SKey, NoMemory>
        ensures made { IfOk result (λ key. self.new ≡ self.old ++ map_object key.0 no.0 ∷ []) }
        ensures vacant { IfOk result (λ key. is_there self.old key.0 ≡ false) }
        ensures err { OnErr result (self.new ≡ self.old) }
    {
        self.parts.create(self.alloc, Being::Map(no), 0)
    }

    /// Makes a proxy with the number `no`, which stands for its delegate for good. It has no slots, is black, and goes last.
    /// The delegate is there, and black.
    ///
    /// `NoMemory` changes nothing.
    pub fn create_proxy(&mut self, no: ScriptNo, delegate: SKey) -> Result<SKey, NoMemory>
        requires black { colour_at self.old delegate.0 ≡ Some Black }
        ensures made { IfOk result (λ key. self.new ≡ self.old ++ proxy_object key.0 no.0 delegate.0 ∷ []) }
        ensures vacant { IfOk result (λ key. is_there self.old key.0 ≡ false) }
        ensures err { OnErr result (self.new ≡ self.old) }
    {
        self.parts.create(self.alloc, Being::Proxy(no, delegate), 0)
    }

    /// What an object is.
    pub fn kind(&self, key: SKey) -> Kind
        requires live { IsTrue (is_there self.now key.0) }
        ensures { kind_at self.now key.0 ≡ Some result }
    {
        self.parts.cell(key).being.kind()
    }

    /// The name of an object.
    pub fn name(&self, key: SKey) -> Name
        requires live { IsTrue (is_there self.now key.0) }
        ensures { name_at self.now key.0 ≡ Some result }
    {
        self.parts.cell(key).being.name()
    }

    /// The name of the object at a key; none exactly where the key holds nothing.
    ///
    /// This is the one call that may be given a key whose object is no more. Its name tells whether it is still the one that
    /// was meant.
    pub fn called(&self, key: SKey) -> Option<Name>
        ensures { result ≡ name_at self.now key.0 }
    {
        if self.parts.contains(key) {
            Some(self.name(key))
        } else {
            None
        }
    }

    /// Where the native of a reflector stands in its own heap; none exactly of what is no reflector.
    pub fn native_of(&self, key: SKey) -> Option<NKey>
        requires live { IsTrue (is_there self.now key.0) }
        ensures native { option_map (λ k. k.0) result ≡ native_at self.now key.0 }
        ensures exactly { IsSome result ↔ (kind_at self.now key.0 ≡ Some Reflector) }
    {
        self.parts.cell(key).being.native()
    }

    /// The delegate of a proxy; none exactly of what is no proxy.
    pub fn delegate(&self, key: SKey) -> Option<SKey>
        requires live { IsTrue (is_there self.now key.0) }
        ensures delegate { option_map (λ k. k.0) result ≡ delegate_at self.now key.0 }
        ensures exactly { IsSome result ↔ (kind_at self.now key.0 ≡ Some Proxy) }
    {
        self.parts.delegate(key)
    }

    /// The colour of an object.
    pub fn colour(&self, key: SKey) -> Colour
        requires live { IsTrue (is_there self.now key.0) }
        ensures { colour_at self.now key.0 ≡ Some result }
    {
        self.parts.colour(key)
    }

    /// The new mark of an object: what a marking that goes on in slices has found of it so far. An object is made black by it.
    ///
    /// Marking by colours neither reads nor writes it.
    pub fn new_mark(&self, key: SKey) -> Colour
        requires live { IsTrue (is_there self.now key.0) }
        ensures { new_mark_at self.now key.0 ≡ Some result }
    {
        self.parts.new_mark(key)
    }

    /// Gives an object a new mark. It takes no memory, and the object's colour stays.
    pub fn set_new_mark(&mut self, key: SKey, mark: Colour)
        requires live { IsTrue (is_there self.old key.0) }
        ensures { self.new ≡ change_object self.old key.0 (with_new_mark mark) }
    {
        self.parts.set_new_mark(key, mark);
    }

    /// No object has a new mark from then on: a marking in slices begins. It takes time by the objects, one fill.
    pub fn unmark_new(&mut self)
        ensures { self.new ≡ map (with_new_mark White) self.old }
    {
        self.parts.unmark_new();
    }

    /// An object is black by the new mark from then on, with all that it reaches over slots and from proxies to their delegates
    /// past objects that are not black so. Where it is black by it, nothing changes.
    ///
    /// It takes no memory, and colours stay.
    pub fn expose_new(&mut self, key: SKey)
        requires live { IsTrue (is_there self.old key.0) }
        requires whole { AreWhole self.old }
        ensures { self.new ≡ newly_blackened (keys_to_blacken self.old key.0) self.old }
    {
        self.parts.expose_new(key);
    }

    /// The new marks become the colours, and the colours the new marks: a marking in slices ends. No object that isn't white by the
    /// new mark holds one that is lower by it.
    ///
    /// It takes the same time however many objects there are.
    pub fn exchange_marks(&mut self)
        requires order { HasColourOrder (map exchanged self.old) }
        ensures { self.new ≡ map exchanged self.old }
    {
        self.parts.exchange_marks();
    }

    /// Whether there is an object of this colour.
    // O(keys), a byte each, until one is found; O(1) for gray where none was made gray since all were made white
    pub fn has_colour(&self, colour: Colour) -> bool
        ensures { IsTrue result ↔ ((o : Object) × (Among o self.now × (o.colour ≡ colour))) }
    {
        self.parts.has_colour(colour)
    }

    /// How many slots an object has: 0 to 256.
    pub fn slots(&self, key: SKey) -> SlotNo
        requires live { IsTrue (is_there self.now key.0) }
        ensures { result ≡ length (slots_at self.now key.0) }
    {
        self.parts.body(key).slots.len() as SlotNo
    }

    /// What slot `i` of an object holds, counted from 0.
    pub fn slot(&self, key: SKey, i: SlotNo) -> Option<SKey>
        requires live { IsTrue (is_there self.now key.0) }
        requires within { i < length (slots_at self.now key.0) }
        ensures { option_map (λ k. k.0) result ≡ slice_index_or (slots_at self.now key.0) i None }
    {
        self.parts.body(key).slots[i as usize]
    }

    /// Puts `item`, or nothing, into slot `i` of an object, counted from 0. Its colour isn't lower than the object's.
    pub fn set_slot(&mut self, key: SKey, i: SlotNo, item: Option<SKey>)
        requires live { IsTrue (is_there self.old key.0) }
        requires within { i < length (slots_at self.old key.0) }
        requires item_live { IfSome item (λ k. IsTrue (is_there self.old k.0)) }
        requires colours { IfSome item (λ k. IsNotBelow (colour_at self.old k.0) (colour_at self.old key.0)) }
        ensures { self.new ≡ change_object self.old key.0 (with_slot i (option_map (λ k. k.0) item)) }
    {
        self.parts.set_slot(key, i, item);
    }

    /// How many script objects there are. It takes the same time however many there are.
    pub fn len(&self) -> usize
        ensures { result ≡ length self.now }
    {
        self.parts.len()
    }

    /// The object that was made first; none exactly where there is none.
    pub fn first(&self) -> Option<SKey>
        ensures key { option_map (λ k. k.0) result ≡ first_key self.now }
        ensures live { IfSome result (λ k. IsTrue (is_there self.now k.0)) }
    {
        self.parts.first()
    }

    /// The object that was made next after another; none exactly where that is the last.
    pub fn next(&self, key: SKey) -> Option<SKey>
        requires live { IsTrue (is_there self.now key.0) }
        ensures key { option_map (λ k. k.0) result ≡ key_after self.now key.0 }
        ensures live { IfSome result (λ k. IsTrue (is_there self.now k.0)) }
    {
        self.parts.next(key)
    }

    /// Makes all objects white.
    pub fn clear_marks(&mut self)
        ensures { self.new ≡ whitened self.old }
    {
        self.parts.clear_marks();
    }

    /// Raises an object, and all that it reaches over slots and from proxies to their delegates, to at least the colour `to`.
    pub fn mark_from(&mut self, key: SKey, to: Colour)
        requires live { IsTrue (is_there self.old key.0) }
        requires whole { AreWhole self.old }
        ensures { self.new ≡ raised_among (keys_reached self.old (key.0 ∷ [])) to self.old }
    {
        self.parts.mark_from(key, to);
    }

    /// Hands over all objects, to be marked in the colour `to`, and has none itself then. `end_marking` takes them back.
    pub fn start_marking(&mut self, to: Colour) -> Marking
        ensures marking { result ≡ record { objects = self.old; waiting = []; to = to } }
        ensures own { HaveOwnKeys self.old }
        ensures left { self.new ≡ [] }
    {
        let parts = mem::replace(&mut self.parts, ScriptParts::new(self.alloc));
        Marking::begin(parts, to)
    }

    /// Takes back the objects that were marked. No object waits to be looked into. What this heap had meanwhile is gone.
    pub fn end_marking(&mut self, marking: Marking)
        requires done { marking.waiting ≡ [] }
        ensures { self.new ≡ marking.objects }
    {
        self.parts = marking.into_parts();
    }

    /// Makes an object black that script touches, with all that it reaches over slots and from proxies to their delegates.
    pub fn expose(&mut self, key: SKey)
        requires live { IsTrue (is_there self.old key.0) }
        requires whole { AreWhole self.old }
        ensures { self.new ≡ raised_among (keys_reached self.old (key.0 ∷ [])) Black self.old }
    {
        self.parts.mark_from(key, Colour::Black);
    }

    /// Empties the walk: no object is in it then. Takes time by those that were.
    pub fn walk_clear(&mut self)
        ensures { self.new ≡ unwalked self.old }
    {
        self.parts.walk_clear();
    }

    /// An object is in the walk: it stays as it stands there, or comes in and waits to be given.
    pub fn walk_add(&mut self, key: SKey)
        requires live { IsTrue (is_there self.old key.0) }
        ensures { self.new ≡ change_object self.old key.0 entering }
    {
        self.parts.walk_add(key);
    }

    /// An object of the walk that was not given yet, and is from then on; none exactly where there is none.
    pub fn walk_next(&mut self) -> Option<SKey>
        ensures some { IfSome result (λ k. IsGiven self.old self.new k.0) }
        ensures none { IfNone result (NoObjectWaits self.old × (self.new ≡ self.old)) }
    {
        self.parts.walk_next()
    }

    /// Whether an object is in the walk, given or not.
    pub fn walked(&self, key: SKey) -> bool
        requires live { IsTrue (is_there self.now key.0) }
        ensures { option_map is_walked (walked_at self.now key.0) ≡ Some result }
    {
        self.parts.walked(key)
    }

    /// Takes out an object that is white. White objects that hold it hold its key still, which is then that of none.
    pub fn remove(&mut self, key: SKey)
        requires white { colour_at self.old key.0 ≡ Some White }
        ensures { self.new ≡ without_object self.old key.0 }
    {
        self.parts.remove(key);
    }
}
