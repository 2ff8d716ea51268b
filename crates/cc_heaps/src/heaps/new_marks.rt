//! A marking of script objects that goes on in slices: begun, gone on with by one object, and dropped.
ghost use Rattle.std.specs.Prelude.{◌≡◌, ◌≢◌, ◌∷◌, ℕ, [], List, IfSome, IsSome, IsTrue, MatchOption, None, Some, map, not, option_map};
ghost use Rattle.cc_lists.specs.Members.{Among};
ghost use Rattle.cc_names.specs.declared.kind.Colour.TheVariants.{White};
ghost use Rattle.cc_model.specs.Slots.{contents};
ghost use Rattle.cc_model.specs.Heap.{Heap};
ghost use Rattle.cc_model.specs.Marking.{begun_marks, each_raised, is_scanned, scanned};
ghost use Rattle.cc_script.specs.Objects.{AreWhole, is_below, is_there};
ghost use Rattle.cc_heaps.specs.Keyed.{IsInOrder, name_held, named_objects, the_name_at};
ghost use Rattle.cc_heaps.specs.NewMarks.{AreListed, IsGoingOn, IsRemarked, black_before, gray_before, marks_held, marks_of, names_held_at, raised_to};
ghost use Rattle.cc_heaps.specs.Standing.{StillStands};
ghost use Rattle.cc_heaps.specs.Keeping.{KeepsAllButMarks};

use crate::heaps::Heaps;
use crate::heaps::roots::{HeldRoots, RegisterRoots};
use crate::to_scan::ToScan;
use cc_marking::Roots;
use cc_names::{Colour, SKey};
use cc_script::Scripts;

// Whether a new mark is lower than another: white below gray below black.
fn is_lower(mark: Colour, to: Colour) -> bool
    ensures { result ≡ is_below mark to }
{
    match to {
        Colour::White => false,
        Colour::Gray => mark == Colour::White,
        Colour::Black => mark != Colour::Black,
    }
}

// An object gets this new mark where its own is lower, and goes last on the list of that mark then.
fn raise(scripts: &mut Scripts, to_scan: &mut ToScan, key: SKey, to: Colour)
    requires there { IsTrue (is_there scripts.old key.0) }
    requires marked { to ≢ White }
    requires going_on { IsGoingOn scripts.old to_scan.old }
    ensures marks { marks_held scripts.new to_scan.new ≡ option_map (λ m. raised_to to m (the_name_at scripts.old key.0)) (marks_held scripts.old to_scan.old) }
    ensures same { IsRemarked scripts.old scripts.new }
    ensures going_on { IsGoingOn scripts.new to_scan.new }
{
    if is_lower(scripts.new_mark(key), to) {
        scripts.set_new_mark(key, to);
        to_scan.push(key, to);
    }
}

// What roots give gets this new mark at least, in their order.
fn raise_roots<R: Roots>(scripts: &mut Scripts, to_scan: &mut ToScan, roots: &mut R, to: Colour)
    requires there { (key : ℕ) → Among key (R.left roots.old) → IsTrue (is_there scripts.old key) }
    requires marked { to ≢ White }
    requires going_on { IsGoingOn scripts.old to_scan.old }
    ensures marks { marks_held scripts.new to_scan.new ≡
        option_map (λ m. each_raised (raised_to to) m (map (the_name_at scripts.old) (R.left roots.old))) (marks_held scripts.old to_scan.old) }
    ensures same { IsRemarked scripts.old scripts.new }
    ensures going_on { IsGoingOn scripts.new to_scan.new }
{
    while let Some(key) = roots.next_root() {
        raise(scripts, to_scan, key, to);
    }
}

// What a place has gets this new mark at least.
fn raise_content(scripts: &mut Scripts, to_scan: &mut ToScan, content: Option<SKey>, to: Colour)
    requires there { IfSome content (λ key. IsTrue (is_there scripts.old key.0)) }
    requires marked { to ≢ White }
    requires going_on { IsGoingOn scripts.old to_scan.old }
    ensures marks { marks_held scripts.new to_scan.new ≡
        option_map (λ m. each_raised (raised_to to) m (contents (name_held scripts.old (option_map (λ k. k.0) content) ∷ [])))
        (marks_held scripts.old to_scan.old) }
    ensures same { IsRemarked scripts.old scripts.new }
    ensures going_on { IsGoingOn scripts.new to_scan.new }
{
    if let Some(key) = content {
        raise(scripts, to_scan, key, to);
    }
}

// What the slots and the delegate of an object hold gets this new mark at least, in their order.
fn raise_held(scripts: &mut Scripts, to_scan: &mut ToScan, key: SKey, to: Colour)
    requires there { IsTrue (is_there scripts.old key.0) }
    requires whole { AreWhole scripts.old }
    requires marked { to ≢ White }
    requires going_on { IsGoingOn scripts.old to_scan.old }
    ensures marks { marks_held scripts.new to_scan.new ≡
        option_map (λ m. each_raised (raised_to to) m (names_held_at scripts.old key.0)) (marks_held scripts.old to_scan.old) }
    ensures same { IsRemarked scripts.old scripts.new }
    ensures going_on { IsGoingOn scripts.new to_scan.new }
{
    for i in 0..scripts.slots(key) {
        let content = scripts.slot(key, i);
        raise_content(scripts, to_scan, content, to);
    }
    let delegate = scripts.delegate(key);
    raise_content(scripts, to_scan, delegate, to);
}

// Takes the first of the black list.
fn next_black(scripts: &Scripts, to_scan: &mut ToScan) -> Option<SKey>
    requires going_on { IsGoingOn scripts.now to_scan.old }
    ensures there { IfSome result (λ key. IsTrue (is_there scripts.now key.0)) }
    ensures first { MatchOption result
        ((marks_held scripts.now to_scan.new ≡ marks_held scripts.now to_scan.old) × IfSome (marks_held scripts.now to_scan.old) (λ m. m.black_list ≡ []))
        (λ key. marks_held scripts.now to_scan.old ≡ option_map (black_before (the_name_at scripts.now key.0)) (marks_held scripts.now to_scan.new)) }
    ensures going_on { IsGoingOn scripts.now to_scan.new }
{
    to_scan.pop_black()
}

// Takes the first of the gray list that is not black by now; those before it are passed.
fn next_gray(scripts: &Scripts, to_scan: &mut ToScan) -> Option<SKey>
    requires going_on { IsGoingOn scripts.now to_scan.old }
    ensures there { IfSome result (λ key. IsTrue (is_there scripts.now key.0)) }
    ensures first { MatchOption result
        ((marks_held scripts.now to_scan.new ≡ marks_held scripts.now to_scan.old) × IfSome (marks_held scripts.now to_scan.old) (λ m. m.gray_list ≡ []))
        (λ key. marks_held scripts.now to_scan.old ≡ option_map (gray_before (the_name_at scripts.now key.0)) (marks_held scripts.now to_scan.new)) }
    ensures going_on { IsGoingOn scripts.now to_scan.new }
{
    while let Some(key) = to_scan.pop_gray() {
        if scripts.new_mark(key) != Colour::Black {
            return Some(key);
        }
    }
    None
}

// Scans the first of the black list, or else of the gray one. Whether there was one.
fn scan(scripts: &mut Scripts, to_scan: &mut ToScan) -> bool
    requires whole { AreWhole scripts.old }
    requires going_on { IsGoingOn scripts.old to_scan.old }
    ensures some { IfSome (marks_held scripts.old to_scan.old) (λ m. result ≡ not (is_scanned m)) }
    ensures marks { (h : Heap) → h.scripts ≡ named_objects scripts.old →
        marks_held scripts.new to_scan.new ≡ option_map (scanned h) (marks_held scripts.old to_scan.old) }
    ensures same { IsRemarked scripts.old scripts.new }
    ensures going_on { IsGoingOn scripts.new to_scan.new }
{
    if let Some(key) = next_black(scripts, to_scan) {
        raise_held(scripts, to_scan, key, Colour::Black);
        return true;
    }
    if let Some(key) = next_gray(scripts, to_scan) {
        raise_held(scripts, to_scan, key, Colour::Gray);
        return true;
    }
    false
}

impl Heaps {
    /// Begins a marking that goes on in slices; none goes on yet. What script registers hold is black by the new marks, and what
    /// natives hold gray, where it is not black; these are on the lists of those to scan, and all else has no new mark. Takes no
    /// memory.
    pub fn begin_new(&mut self)
        requires order { (owned : List ℕ) × IsInOrder owned self.old }
        requires idle { self.old.marking ≡ None }
        ensures marks { marks_of self.new ≡ Some (begun_marks self.old.heap) }
        ensures runs { IsSome self.new.marking }
        ensures listed { AreListed self.new }
        ensures heap { self.new.heap ≡ self.old.heap }
        ensures rest { self.new ≡ record self.old { scripts = self.new.scripts; marking = self.new.marking } }
        ensures same { IsRemarked self.old.scripts self.new.scripts }
        ensures kept { KeepsAllButMarks self.old self.new }
        ensures stands { StillStands self.old.heap self.new.heap }
    {
        self.scripts.unmark_new();
        self.to_scan.begin();
        let mut registers = RegisterRoots::new(self.script_registers.as_slice());
        raise_roots(
            &mut self.scripts,
            &mut self.to_scan,
            &mut registers,
            Colour::Black,
        );
        let mut held = HeldRoots::new(&self.counted);
        raise_roots(
            &mut self.scripts,
            &mut self.to_scan,
            &mut held,
            Colour::Gray,
        );
    }

    /// Scans one object of a marking that goes on in slices: the first of the black list, or else of the gray one. What its slots
    /// and its delegate hold has its new mark at least from then on, and what gets it goes last on that list. Whether there was
    /// one. Takes no memory.
    pub fn scan_new(&mut self) -> bool
        requires order { (owned : List ℕ) × IsInOrder owned self.old }
        requires listed { AreListed self.old }
        requires runs { IsSome self.old.marking }
        ensures some { IfSome (marks_of self.old) (λ m. result ≡ not (is_scanned m)) }
        ensures marks { marks_of self.new ≡ option_map (scanned self.old.heap) (marks_of self.old) }
        ensures runs { IsSome self.new.marking }
        ensures listed { AreListed self.new }
        ensures heap { self.new.heap ≡ self.old.heap }
        ensures rest { self.new ≡ record self.old { scripts = self.new.scripts; marking = self.new.marking } }
        ensures same { IsRemarked self.old.scripts self.new.scripts }
        ensures kept { KeepsAllButMarks self.old self.new }
        ensures stands { StillStands self.old.heap self.new.heap }
    {
        scan(&mut self.scripts, &mut self.to_scan)
    }

    /// Drops a marking that goes on in slices, where one does. New marks stay, and say nothing from then on.
    pub fn drop_new(&mut self)
        ensures marking { self.new ≡ record self.old { marking = None } }
        ensures kept { KeepsAllButMarks self.old self.new }
    {
        self.to_scan.discard();
    }
}
