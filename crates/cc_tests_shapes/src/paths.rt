//! Paths that are long: how a register reaches the other end of a shape.

use crate::text::Part::{Each, Every, Once};
use crate::text::{Part, plays};
use std::process::Abort;

/// A script and what it is answered with.
struct Shape {
    script: &'static [Part],
    wanted: &'static [Part],
}

impl Shape {
    /// The program answers the script with what is wanted, and with nothing else.
    fn is_played(&self, rt: &(impl Abort + AllocGlobal)) {
        plays(rt, self.script, self.wanted);
    }
}

/// Each native holds the one before it, and a register the last of them.
const CHAIN: Shape = Shape {
    script: &[
        Once("version 2\nnative n0 1\n"),
        Each(2, 200000, "native n1 1\nset n1 0 n0\ncopy n0 n1\n"),
        Once("drop n0\nwhy #1\nwhy #200000\nwhy #200001\n"),
    ],
    wanted: &[
        Once("= ok\n= #1\n"),
        Each(2, 200000, "= #K\n= ok\n= #K\n"),
        Once("= ok\n: #200000 n1\n"),
        Each(199999, 1, ": #K #L\n"),
        Once("= ok\n: #200000 n1\n= ok\n= none\n"),
    ],
};

#[test]
fn a_path_goes_along_a_chain_of_two_hundred_thousand(rt: HostRuntime) {
    CHAIN.is_played(&rt);
}

/// The same, with a second register in its middle.
const CHAIN_HELD_TWICE: Shape = Shape {
    script: &[
        Once("version 2\nnative n0 1\n"),
        Each(2, 50000, "native n1 1\nset n1 0 n0\ncopy n0 n1\n"),
        Once("copy n2 n0\n"),
        Each(50001, 100000, "native n1 1\nset n1 0 n0\ncopy n0 n1\n"),
        Once("drop n0\nwhy #1\n"),
    ],
    wanted: &[
        Once("= ok\n= #1\n"),
        Each(2, 50000, "= #K\n= ok\n= #K\n"),
        Once("= #50000\n"),
        Each(50001, 100000, "= #K\n= ok\n= #K\n"),
        Once("= ok\n: #50000 n2\n"),
        Each(49999, 1, ": #K #L\n"),
        Once("= ok\n"),
    ],
};

#[test]
fn a_path_begins_at_the_nearest_register_of_a_chain(rt: HostRuntime) {
    CHAIN_HELD_TWICE.is_played(&rt);
}

/// Each native holds the one before it, and the first one holds the last. A register holds the first, and then none does.
const RING: Shape = Shape {
    script: &[
        Once("version 2\nnative n0 1\ncopy n1 n0\n"),
        Each(2, 100000, "native n2 1\nset n2 0 n1\ncopy n1 n2\n"),
        Once("set n0 0 n1\ndrop n1\ndrop n2\nwhy #2\nwhy #1\ndrop n0\nwhy #2\n"),
    ],
    wanted: &[
        Once("= ok\n= #1\n= #1\n"),
        Each(2, 100000, "= #K\n= ok\n= #K\n"),
        Once("= ok\n= ok\n= ok\n: #1 n0\n: #100000 #1\n"),
        Each(99999, 2, ": #K #L\n"),
        Once("= ok\n: #1 n0\n= ok\n= ok\n= none\n"),
    ],
};

#[test]
fn a_path_goes_round_a_ring_of_a_hundred_thousand(rt: HostRuntime) {
    RING.is_played(&rt);
}

/// Each native holds the reflector of the next, and the last that of the first, which a register holds. A script collection
/// and a whole collection go by before the path is asked for again.
const REFLECTOR_RING: Shape = Shape {
    script: &[
        Once("version 2\nnative n0 1\ncopy n1 n0\n"),
        Each(
            2,
            50000,
            "native n2 1\nwrap s1 n2\nset n1 0 s1\ncopy n1 n2\n",
        ),
        Once("wrap s1 n0\nset n1 0 s1\ndrop s1\ndrop n1\ndrop n2\nwhy #50000\n"),
        Once("gc\nslice 100\nwhy #50000\ncollect\nwhy ~1\ndrop n0\nwhy ~1\n"),
    ],
    wanted: &[
        Once("= ok\n= #1\n= #1\n"),
        Each(2, 50000, "= #K\n= ~K\n= ok\n= #K\n"),
        Once("= ~1\n= ok\n= ok\n= ok\n= ok\n: #1 n0\n"),
        Each(1, 49999, ": ~L #K\n: #L ~L\n"),
        Once("= ok\n= ok\n= ok\n: #1 n0\n"),
        Each(1, 49999, ": ~L #K\n: #L ~L\n"),
        Once("= ok\n= ok\n: #1 n0\n"),
        Each(1, 49999, ": ~L #K\n: #L ~L\n"),
        Once(": ~1 #50000\n= ok\n= ok\n= none\n"),
    ],
};

#[test]
fn a_path_goes_through_fifty_thousand_reflectors(rt: HostRuntime) {
    REFLECTOR_RING.is_played(&rt);
}

/// Each value is the key of the next entry of one map; the entries are set in the order of this chain.
const ENTRY_CHAIN: Shape = Shape {
    script: &[
        Once("version 2\nweakmap s0\nscript s1 0\ncopy s2 s1\n"),
        Each(3, 100002, "script s3 0\nwset s0 s2 s3\ncopy s2 s3\n"),
        Once("drop s2\ndrop s3\nwhy @100002\ndrop s1\nwhy @100002\n"),
    ],
    wanted: &[
        Once("= ok\n= @1\n= @2\n= @2\n"),
        Each(3, 100002, "= @K\n= ok\n= @K\n"),
        Once("= ok\n= ok\n: @1 s0\n: @2 s1\n"),
        Each(2, 100001, ": @L @1 @K\n"),
        Once("= ok\n= ok\n= none\n"),
    ],
};

#[test]
fn a_path_goes_along_a_chain_of_a_hundred_thousand_entries(rt: HostRuntime) {
    ENTRY_CHAIN.is_played(&rt);
}

/// The same, with the entries set against the order of the chain.
const ENTRY_CHAIN_AGAINST_ORDER: Shape = Shape {
    script: &[
        Once("version 2\nweakmap s0\nscript s1 0\n"),
        Each(3, 100002, "script s2 0\nwset s0 s2 s1\ncopy s1 s2\n"),
        Once("drop s2\nwhy @2\n"),
    ],
    wanted: &[
        Once("= ok\n= @1\n= @2\n"),
        Each(3, 100002, "= @K\n= ok\n= @K\n"),
        Once("= ok\n: @1 s0\n: @100002 s1\n"),
        Each(100001, 2, ": @K @1 @L\n"),
        Once("= ok\n"),
    ],
};

#[test]
fn a_path_goes_along_a_chain_of_a_hundred_thousand_entries_against_their_order(rt: HostRuntime) {
    ENTRY_CHAIN_AGAINST_ORDER.is_played(&rt);
}

/// Each key is a proxy of the key before it, the first one of an object in a register: they follow from the map and from each
/// other, and the map itself is the value of each.
const DELEGATE_CHAIN: Shape = Shape {
    script: &[
        Once("version 2\nweakmap s0\nscript s1 0\ncopy s3 s1\n"),
        Each(3, 100002, "proxy s2 s1\nwset s0 s2 s0\ncopy s1 s2\n"),
        Once("drop s1\ndrop s2\nwhy @100002\ndrop s3\nwhy @2\nwhy @3\n"),
    ],
    wanted: &[
        Once("= ok\n= @1\n= @2\n= @2\n"),
        Each(3, 100002, "= @K\n= ok\n= @K\n"),
        Once("= ok\n= ok\n: @1 s0\n: @2 s3\n"),
        Each(2, 100001, ": @L @1 @K\n"),
        Once("= ok\n= ok\n= none\n= none\n"),
    ],
};

#[test]
fn a_path_goes_along_a_chain_of_a_hundred_thousand_delegates(rt: HostRuntime) {
    DELEGATE_CHAIN.is_played(&rt);
}

/// Each proxy stands for the one before it, and the last one is in a register.
const PROXY_CHAIN: Shape = Shape {
    script: &[
        Once("version 2\nnative n0 0\nwrap s1 n0\n"),
        Each(1, 100000, "proxy s2 s1\ncopy s1 s2\n"),
        Once("drop n0\ndrop s2\nwhy #1\n"),
    ],
    wanted: &[
        Once("= ok\n= #1\n= ~1\n"),
        Each(1, 100000, "= @K\n= @K\n"),
        Once("= ok\n= ok\n: @100000 s1\n"),
        Each(99999, 1, ": @K @L\n"),
        Once(": ~1 @1\n: #1 ~1\n= ok\n"),
    ],
};

#[test]
fn a_path_goes_along_a_chain_of_a_hundred_thousand_proxies(rt: HostRuntime) {
    PROXY_CHAIN.is_played(&rt);
}

/// A key of ten thousand maps, which is looked at before them. Each map is in an object that holds the one before it, and s1
/// holds the last of these; each value is the next of them.
const KEY_OF_MAPS: Shape = Shape {
    script: &[
        Once("version 2\nscript s0 0\nscript s1 2\n"),
        Each(
            1,
            10000,
            "weakmap s2\nput s1 1 s2\nscript s3 2\nput s3 0 s1\nwset s2 s0 s3\ncopy s1 s3\n",
        ),
        Once("copy s1023 s1\ndrop s1\ndrop s2\ndrop s3\nwhy @3\n"),
    ],
    wanted: &[
        Once("= ok\n= @1\n= @2\n"),
        Every(3, 20001, 2, "= @K\n= ok\n= @L\n= ok\n= ok\n= @L\n"),
        Once("= @20002\n= ok\n= ok\n= ok\n: @20002 s1023\n"),
        Every(20000, 2, 2, ": @K @M\n"),
        Once(": @3 @2\n= ok\n"),
    ],
};

#[test]
fn a_path_goes_past_ten_thousand_maps_of_one_key(rt: HostRuntime) {
    KEY_OF_MAPS.is_played(&rt);
}

/// All registers hold objects; the last one of each bank is asked for.
const ALL_REGISTERS: Shape = Shape {
    script: &[
        Once("version 2\n"),
        Each(0, 1023, "native nK 0\nscript sK 0\n"),
        Once("why #1024\nwhy @1024\nwhy ~1\nwhy #1\nwhy @1\n"),
    ],
    wanted: &[
        Once("= ok\n"),
        Each(1, 1024, "= #K\n= @K\n"),
        Once(": #1024 n1023\n= ok\n: @1024 s1023\n= ok\n= none\n"),
        Once(": #1 n0\n= ok\n: @1 s0\n= ok\n"),
    ],
};

#[test]
fn a_path_begins_at_the_last_register(rt: HostRuntime) {
    ALL_REGISTERS.is_played(&rt);
}
