//! What was told, and steps by which an object is reached, for C.
ghost use Rattle.std.specs.Prelude.{◌≡◌, [], None, Some};
ghost use Rattle.cc_names.specs.Names.{number_of};
ghost use Rattle.cc_c.specs.Telling.{FetchesStep, FetchesTold, kind_of, shown, shown_step, step_by, step_by_root, step_for, told_alone, told_of};
ghost use Rattle.cc_c.specs.declared.values.CStep.{CStep};
ghost use Rattle.cc_c.specs.declared.values.CTold.{CTold};

use crate::values::{CStep, CTold};
use cc_host::{FIRST_PLACE, Host};
use cc_model::{Event, Item, Reason};
use cc_names::{Name, Reg, RegNo};

// The kind and the number of an object.
fn kind_of(x: Name) -> (u32, u32)
    ensures kind { result.0 ≡ kind_of x }
    ensures number { result.1 ≡ number_of x }
{
    match x {
        Name::Native(k) => (1, k.0),
        Name::Script(k) => (2, k.0),
        Name::Reflector(k) => (3, k.0),
    }
}

// What was told of an object.
fn told_of(host: &Host, what: u32, x: Name) -> CTold
    ensures { result ≡ told_of host.now.books what x }
{
    let (kind, number) = kind_of(x);
    CTold {
        value: host.data_of(x),
        what,
        kind,
        number,
    }
}

// What was told of none.
fn told_alone(what: u32) -> CTold
    ensures { result ≡ told_alone what }
{
    CTold {
        value: 0,
        what,
        kind: 0,
        number: 0,
    }
}

// An item for C.
fn shown(host: &Host, item: Item) -> CTold
    ensures { result ≡ shown host.now.books item }
{
    match item {
        Item::Event(Event::Unlinked(x)) => told_of(host, 1, x),
        Item::Event(Event::Freed(x)) => told_of(host, 2, x),
        Item::Event(Event::Abandoned) => told_alone(3),
        Item::Listed(_) => told_alone(0),
        Item::Step(_, _) => told_alone(0),
        Item::Reply(_) => told_alone(0),
    }
}

// A step to an object, by a number for its reason, and by a root or an object.
fn step_by(x: Name, why: u32, by_kind: u32, by_number: u32) -> CStep
    ensures { result ≡ step_by x why by_kind by_number }
{
    let (kind, number) = kind_of(x);
    CStep {
        kind,
        number,
        why,
        by_kind,
        by_number,
        key_kind: 0,
        key_number: 0,
    }
}

// A step to an object, by a register of natives (1) or of script objects (2): a numbered root, or a root without number.
fn step_by_root(x: Name, bank: u32, r: RegNo) -> CStep
    ensures { result ≡ step_by_root x bank r }
{
    if r >= FIRST_PLACE {
        return step_by(x, 4, bank, r - FIRST_PLACE);
    }
    step_by(x, 1, bank, r)
}

// A step to an object, by its reason.
fn step_for(x: Name, reason: Reason) -> CStep
    ensures { result ≡ step_for x reason }
{
    match reason {
        Reason::Root(Reg::N(r)) => step_by_root(x, 1, r),
        Reason::Root(Reg::S(r)) => step_by_root(x, 2, r),
        // a weak register leads to nothing
        Reason::Root(Reg::W(r)) => step_by(x, 1, 0, r as u32),
        Reason::Edge(y) => {
            let (by_kind, by_number) = kind_of(y);
            step_by(x, 2, by_kind, by_number)
        }
        Reason::Pair(by, key) => {
            let (kind, number) = kind_of(x);
            let (by_kind, by_number) = kind_of(by);
            let (key_kind, key_number) = kind_of(key);
            CStep {
                kind,
                number,
                why: 3,
                by_kind,
                by_number,
                key_kind,
                key_number,
            }
        }
    }
}

// A step for C.
fn shown_step(item: Item) -> CStep
    ensures { result ≡ shown_step item }
{
    match item {
        Item::Step(x, reason) => step_for(x, reason),
        Item::Event(_) | Item::Listed(_) | Item::Reply(_) => CStep {
            kind: 0,
            number: 0,
            why: 0,
            by_kind: 0,
            by_number: 0,
            key_kind: 0,
            key_number: 0,
        },
    }
}

/// The first item that was told and not fetched yet, which is fetched then.
pub fn next_told(host: &mut Host) -> Option<CTold>
    ensures next { (x : CTold) → result ≡ Some x → FetchesTold host.old host.new x }
    ensures none { result ≡ None → (host.new ≡ host.old) × (host.old.told ≡ []) }
{
    match host.next_told() {
        Some(item) => Some(shown(host, item)),
        None => None,
    }
}

/// The next step of the last answer why an object is there, which is fetched then.
pub fn next_step(host: &mut Host) -> Option<CStep>
    ensures next { (x : CStep) → result ≡ Some x → FetchesStep host.old host.new x }
    ensures none { result ≡ None → (host.new ≡ host.old) × (host.old.steps ≡ []) }
{
    match host.next_step() {
        Some(item) => Some(shown_step(item)),
        None => None,
    }
}
