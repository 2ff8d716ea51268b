//! Those that are told items, and the items' texts.

use cc_model::{Counter, Event, Item, ItemList, Notebook, Notices, Reason, Refusal, Reply};
use cc_names::{LineBuf, Name, NativeNo, Reg, ScriptNo, write_register};

/// A native is freed, a command is done, and another one is refused.
const ITEMS: [Item; 3] = [
    Item::Event(Event::Freed(Name::Native(NativeNo(7)))),
    Item::Reply(Reply::Done),
    Item::Reply(Reply::Refused(Refusal::Slot)),
];

/// Tells the three items.
fn tell_all<N: Notices>(receiver: &mut N) {
    for item in ITEMS.iter() {
        receiver.tell(*item);
    }
}

#[test]
fn a_notebook_keeps_lines(rt: HostRuntime) {
    let mut notebook = Notebook::new(rt.alloc());
    tell_all(&mut notebook);
    assert!(rt; !notebook.is_broken());
    assert_eq!(rt; notebook.text(), b"- free #7\n= ok\n! slot\n".as_slice());
}

#[test]
fn a_list_keeps_items(rt: HostRuntime) {
    let mut list = ItemList::new(rt.alloc());
    tell_all(&mut list);
    assert!(rt; !list.is_broken());
    assert_eq!(rt; list.items(), ITEMS.as_slice());
}

#[test]
fn a_counter_counts(rt: HostRuntime) {
    let mut counter = Counter::new();
    tell_all(&mut counter);
    let sums = counter.sums();
    assert_eq!(rt;
        (sums.commands, sums.ok, sums.refused, sums.freed),
        (2, 1, 1, 1)
    );
}

/// A path, with each kind of reason and of name, and its reply. The last step is as long as one can be.
const PATH: [Item; 5] = [
    Item::Step(Name::Native(NativeNo(7)), Reason::Root(Reg::N(1023))),
    Item::Step(
        Name::Script(ScriptNo(999_999)),
        Reason::Edge(Name::Native(NativeNo(7))),
    ),
    Item::Step(Name::Script(ScriptNo(1)), Reason::Root(Reg::S(0))),
    Item::Step(
        Name::Reflector(NativeNo(1_000_000)),
        Reason::Pair(
            Name::Script(ScriptNo(1_000_000)),
            Name::Reflector(NativeNo(1_000_000)),
        ),
    ),
    Item::Reply(Reply::Done),
];

#[test]
fn a_notebook_keeps_the_lines_of_a_path(rt: HostRuntime) {
    let mut notebook = Notebook::new(rt.alloc());
    for item in PATH.iter() {
        notebook.tell(*item);
    }
    assert!(rt; !notebook.is_broken());
    assert_eq!(rt;
        notebook.text(),
        b": #7 n1023\n: @999999 #7\n: @1 s0\n: ~1000000 @1000000 ~1000000\n= ok\n".as_slice()
    );
}

/// Registers, and their texts.
const REGISTERS: &[(Reg, &'static str)] = &[
    (Reg::N(0), "n0"),
    (Reg::N(1023), "n1023"),
    (Reg::S(0), "s0"),
    (Reg::S(1_073_741_823), "s1073741823"),
    (Reg::W(0), "w0"),
    (Reg::W(255), "w255"),
];

#[test]
fn registers_have_their_texts(rt: HostRuntime) {
    let mut same = true;
    for (register, text) in REGISTERS {
        let mut line = LineBuf::new();
        write_register(*register, &mut line);
        same &= line.bytes() == text.as_bytes();
    }
    assert!(rt; same);
}

#[test]
fn a_counter_counts_no_step(rt: HostRuntime) {
    let mut counter = Counter::new();
    for item in PATH.iter() {
        counter.tell(*item);
    }
    let sums = counter.sums();
    assert_eq!(rt;
        (sums.commands, sums.ok, sums.named, sums.refused),
        (1, 1, 0, 0)
    );
}
