//! Lines of a source that gives a few bytes at a time, and what lines ask.

use cc_model::{Command, Dialect};
use cc_names::{Name, NativeNo, Reg, ScriptNo};
use cc_outside::BytesSource;
use cc_reader::{Line, Lines, ReadStop, parse};

/// Whether the first line of a source is a command, and ends behind its line feed.
fn reads(source: &mut BytesSource) -> bool {
    let mut lines = Lines::new(source, 200);
    let read = lines.next() == Ok(Line::Text);
    let asked = parse(lines.text(), Dialect::Start) == Some(Command::Drop(Reg::N(7)));
    read & asked & (lines.taken() == 9)
}

/// Whether it is told where the first line goes over a limit, and that one byte more was taken.
fn stops(source: &mut BytesSource) -> bool {
    let mut lines = Lines::new(source, 7);
    (lines.next() == Err(ReadStop::Limit)) & (lines.taken() == 8)
}

#[test]
fn lines_come_in_small_pieces(rt: HostRuntime) {
    let bytes = b"drop n7\r\ngc".to_vec(rt.alloc()).expect(&rt, "memory");
    let mut source = BytesSource::new(bytes, Vec::new(rt.alloc()), 3);
    assert!(rt; reads(&mut source));
    let bytes = b"drop n7\n".to_vec(rt.alloc()).expect(&rt, "memory");
    let mut source = BytesSource::new(bytes, Vec::new(rt.alloc()), 3);
    assert!(rt; stops(&mut source));
}

/// A line, and what it asks.
type Row = (&'static str, Option<Command>);

/// Whether each line asks that in a dialect.
fn ask(dialect: Dialect, rows: &[Row]) -> bool {
    let mut asked = true;
    for (line, command) in rows {
        asked &= parse(line.as_bytes(), dialect) == *command;
    }
    asked
}

/// Lines of version 1, also before a version was asked for.
const OF_VERSION_1: &[Row] = &[
    ("proxy s1 s0", Some(Command::Proxy(1, 0))),
    ("proxy s255 s255\r", Some(Command::Proxy(255, 255))),
    ("proxy s0", None),
    ("proxy n0 s0", None),
    ("proxy s0 n0", None),
    ("proxy s256 s0", None),
    ("native n255 64", Some(Command::Native(255, 64))),
    ("native n256 64", None),
    ("native n255 65", None),
    ("move n1023 4294967295 n0 1", None),
    ("why #1", None),
];

/// Lines of version 2.
const OF_VERSION_2: &[Row] = &[
    ("native n1023 256", Some(Command::Native(1023, 256))),
    ("native n1024 256", None),
    ("native n1023 257", None),
    (
        "move n1023 4294967295 n0 1",
        Some(Command::Move(1023, 4_294_967_295, 0, 1)),
    ),
    ("move n1 0 n2", None),
    ("move n1 0 n2 1 1", None),
    ("move n1 0 s2 1", None),
    ("move n1 0 n2 none", None),
    ("forget", Some(Command::Forget)),
    ("forget n0", None),
    (" version  2 \r", None),
];

/// Lines of weak registers: `weak`, `deref` and `drop` alone name them.
const OF_WEAK_REGISTERS: &[Row] = &[
    ("weak w255 n1023", Some(Command::Weak(255, 1023))),
    ("deref  n1023 w255\r", Some(Command::Deref(1023, 255))),
    ("drop w255", Some(Command::Drop(Reg::W(255)))),
    ("drop n0", Some(Command::Drop(Reg::N(0)))),
    ("weak w0", None),
    ("weak w256 n0", None),
    ("weak w00 n0", None),
    ("weak w n0", None),
    ("weak n0 n0", None),
    ("weak w0 s0", None),
    ("deref s0 w0", None),
    ("deref n0 n0", None),
    ("deref n1024 w0", None),
    ("drop w256", None),
    ("set n0 0 w0", None),
    ("get w0 n0 0", None),
    ("copy w0 w1", None),
];

/// Units of a marking are asked for with their number, as those of a slice.
const OF_MARKINGS: &[Row] = &[
    ("mark 1", Some(Command::Mark(1))),
    (" mark  1000000 \r", Some(Command::Mark(1_000_000))),
    ("slice 1000000", Some(Command::Slice(1_000_000))),
    ("mark", None),
    ("mark 0", None),
    ("mark 1000001", None),
    ("mark 4294967297", None),
    ("mark 01", None),
    ("mark -1", None),
    ("mark 1n", None),
    ("mark n0", None),
    ("mark none", None),
    ("mark 1 1", None),
    ("mark\t1", None),
    ("marks 1", None),
    ("Mark 1", None),
];

/// Words of version 2 alone.
const NOT_OF_VERSION_1: &[Row] = &[
    ("forget", None),
    ("mark 1", None),
    ("weak w0 n0", None),
    ("deref n0 w0", None),
    ("drop w0", None),
];

/// A path is asked for with one name.
const OF_PATHS: &[Row] = &[
    ("why #1", Some(Command::Why(Name::Native(NativeNo(1))))),
    (
        " why  @4294967295 \r",
        Some(Command::Why(Name::Script(ScriptNo(4_294_967_295)))),
    ),
    ("why ~20", Some(Command::Why(Name::Reflector(NativeNo(20))))),
    ("why", None),
    ("why 7", None),
    ("why n7", None),
    ("why #", None),
    ("why #0", None),
    ("why #01", None),
    ("why #4294967296", None),
    ("why #-1", None),
    ("why # 1", None),
    ("why #1 #2", None),
    ("why ##1", None),
    ("why none", None),
    ("Why #1", None),
];

/// The version is asked for before any command.
const OF_THE_START: &[Row] = &[
    (" version  2 \r", Some(Command::Version2)),
    ("version", None),
    ("version 1", None),
    ("version 02", None),
    ("version 2 2", None),
    ("Version 2", None),
];

#[test]
fn lines_ask_what_their_dialect_says(rt: HostRuntime) {
    assert!(rt; ask(Dialect::Start, OF_VERSION_1));
    assert!(rt; ask(Dialect::One, OF_VERSION_1));
    assert!(rt; ask(Dialect::One, &[(" version  2 \r", None)]));
    assert!(rt; ask(Dialect::Two, OF_VERSION_2));
    assert!(rt; ask(Dialect::Two, OF_PATHS));
    assert!(rt; ask(Dialect::Two, OF_MARKINGS));
    assert!(rt; ask(Dialect::Start, NOT_OF_VERSION_1));
    assert!(rt; ask(Dialect::One, NOT_OF_VERSION_1));
    assert!(rt; ask(Dialect::Two, OF_WEAK_REGISTERS));
    assert!(rt; ask(Dialect::Start, OF_THE_START));
}
