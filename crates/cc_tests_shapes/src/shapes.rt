//! Shapes of objects that are deep or long, each of which `run` is put to whole.

use crate::text::Part::{Each, Every, Once};
use crate::text::{Part, plays};
use std::process::Abort;

/// A script and what it is answered with.
struct Shape {
    script: &'static [Part],
    wanted: &'static [Part],
}

impl Shape {
    /// The program answers the script with what is wanted, and with nothing else.
    fn is_played(&self, rt: &(impl Abort + AllocGlobal)) {
        plays(rt, self.script, self.wanted);
    }
}

/// Each native holds the one before it; the last command gives up the last reference to the last of them.
const CHAIN: Shape = Shape {
    script: &[
        Once("native n0 1\n"),
        Each(2, 200000, "native n1 1\nset n1 0 n0\ncopy n0 n1\n"),
        Once("drop n1\ndrop n0\ncensus\n"),
    ],
    wanted: &[
        Once("= #1\n"),
        Each(2, 200000, "= #K\n= ok\n= #K\n"),
        Once("= ok\n"),
        Each(200000, 1, "- free #K\n"),
        Once("= ok\n= census 0\n"),
    ],
};

#[test]
fn a_chain_of_two_hundred_thousand_is_freed_by_one_drop(rt: HostRuntime) {
    CHAIN.is_played(&rt);
}

/// Each native holds the one before it, and a slot has the only reference to the last of them. A native moves into that slot.
const MOVED_ONTO_A_CHAIN: Shape = Shape {
    script: &[
        Once("version 2\nnative n0 1\n"),
        Each(2, 100000, "native n1 1\nset n1 0 n0\ncopy n0 n1\n"),
        Once(
            "native n1 256\nset n1 255 n0\nnative n1023 1\nnative n0 0\nset n1023 0 n0\ndrop n0\n",
        ),
        Once("move n1 255 n1023 0\nget n0 n1 255\ncensus\n"),
    ],
    wanted: &[
        Once("= ok\n= #1\n"),
        Each(2, 100000, "= #K\n= ok\n= #K\n"),
        Once("= #100001\n= ok\n= #100002\n= #100003\n= ok\n= ok\n"),
        Each(100000, 1, "- free #K\n"),
        Once("= #100003\n= #100003\n+ #100001\n+ #100002\n+ #100003\n= census 3\n"),
    ],
};

#[test]
fn a_chain_of_a_hundred_thousand_is_freed_by_one_move(rt: HostRuntime) {
    MOVED_ONTO_A_CHAIN.is_played(&rt);
}

/// Each native holds the one before it, and the first one holds the last.
const RING: Shape = Shape {
    script: &[
        Once("native n0 1\ncopy n1 n0\n"),
        Each(2, 2000, "native n2 1\nset n2 0 n1\ncopy n1 n2\n"),
        Once("set n0 0 n1\ndrop n0\ndrop n1\ndrop n2\ncollect\ncensus\n"),
    ],
    wanted: &[
        Once("= #1\n= #1\n"),
        Each(2, 2000, "= #K\n= ok\n= #K\n"),
        Once("= ok\n= ok\n= ok\n= ok\n"),
        Each(1, 2000, "- unlink #K\n"),
        Each(1, 2000, "- free #K\n"),
        Once("= ok\n= census 0\n"),
    ],
};

#[test]
fn a_ring_of_two_thousand_is_collected_by_one_collect(rt: HostRuntime) {
    RING.is_played(&rt);
}

/// The last native of a chain is held by a native that holds itself.
const CHAIN_FROM_RING: Shape = Shape {
    script: &[
        Once("native n0 1\n"),
        Each(2, 999, "native n1 1\nset n1 0 n0\ncopy n0 n1\n"),
        Once("native n2 2\nset n2 0 n2\nset n2 1 n0\ndrop n0\ndrop n1\ndrop n2\ncollect\ncensus\n"),
    ],
    wanted: &[
        Once("= #1\n"),
        Each(2, 999, "= #K\n= ok\n= #K\n"),
        Once("= #1000\n= ok\n= ok\n= ok\n= ok\n= ok\n"),
        Each(1, 1000, "- unlink #K\n"),
        Each(1, 1000, "- free #K\n"),
        Once("= ok\n= census 0\n"),
    ],
};

#[test]
fn a_chain_that_hangs_from_a_ring_is_collected_by_one_collect(rt: HostRuntime) {
    CHAIN_FROM_RING.is_played(&rt);
}

/// Each script object holds the one before it; the second `gc` frees them in order of making.
const SCRIPT_CHAIN: Shape = Shape {
    script: &[
        Once("script s0 1\n"),
        Each(2, 10000, "script s1 1\nput s1 0 s0\ncopy s0 s1\n"),
        Once("drop s0\ngc\ndrop s1\ngc\ncensus\n"),
    ],
    wanted: &[
        Once("= @1\n"),
        Each(2, 10000, "= @K\n= ok\n= @K\n"),
        Once("= ok\n= ok\n= ok\n"),
        Each(1, 10000, "- free @K\n"),
        Once("= ok\n= census 0\n"),
    ],
};

#[test]
fn a_chain_of_ten_thousand_script_objects_is_swept_by_one_gc(rt: HostRuntime) {
    SCRIPT_CHAIN.is_played(&rt);
}

/// The same, and the first one holds the last.
const SCRIPT_RING: Shape = Shape {
    script: &[
        Once("script s0 1\ncopy s1 s0\n"),
        Each(2, 200000, "script s2 1\nput s2 0 s1\ncopy s1 s2\n"),
        Once("put s0 0 s1\ndrop s0\ndrop s2\ngc\ndrop s1\ngc\ncensus\n"),
    ],
    wanted: &[
        Once("= @1\n= @1\n"),
        Each(2, 200000, "= @K\n= ok\n= @K\n"),
        Once("= ok\n= ok\n= ok\n= ok\n= ok\n"),
        Each(1, 200000, "- free @K\n"),
        Once("= ok\n= census 0\n"),
    ],
};

#[test]
fn a_ring_of_two_hundred_thousand_script_objects_is_swept_by_one_gc(rt: HostRuntime) {
    SCRIPT_RING.is_played(&rt);
}

/// A native keeps a script object, and so the sixty-four that this holds: until the native is freed.
const SIXTY_FOUR: Shape = Shape {
    script: &[
        Once("native n0 1\nscript s0 64\nset n0 0 s0\n"),
        Each(0, 63, "script s1 0\nput s0 K s1\n"),
        Once("drop s0\ndrop s1\ngc\ncollect\nget s1 n0 0\ntake s2 s1 63\ndrop s1\ndrop s2\n"),
        Once("drop n0\ngc\ncensus\n"),
    ],
    wanted: &[
        Once("= #1\n= @1\n= ok\n"),
        Each(2, 65, "= @K\n= ok\n"),
        Once("= ok\n= ok\n= ok\n= ok\n= @1\n= @65\n= ok\n= ok\n- free #1\n= ok\n"),
        Each(1, 65, "- free @K\n"),
        Once("= ok\n= census 0\n"),
    ],
};

#[test]
fn a_script_object_that_holds_sixty_four_others_is_kept_by_a_native(rt: HostRuntime) {
    SIXTY_FOUR.is_played(&rt);
}

/// Each native holds the reflector of the next, and the last that of the first. One collection unlinks the natives and
/// frees nothing; the script collection after it frees each reflector and its native. The reflector of the first native
/// was made last.
const REFLECTOR_RING: Shape = Shape {
    script: &[
        Once("native n0 1\ncopy n1 n0\n"),
        Each(
            2,
            100000,
            "native n2 1\nwrap s1 n2\nset n1 0 s1\ncopy n1 n2\n",
        ),
        Once(
            "wrap s1 n0\nset n1 0 s1\ndrop s1\ndrop n0\ndrop n1\ndrop n2\ngc\ncollect\ngc\ncensus\n",
        ),
    ],
    wanted: &[
        Once("= #1\n= #1\n"),
        Each(2, 100000, "= #K\n= ~K\n= ok\n= #K\n"),
        Once("= ~1\n= ok\n= ok\n= ok\n= ok\n= ok\n= ok\n"),
        Each(1, 100000, "- unlink #K\n"),
        Once("= ok\n"),
        Each(2, 100000, "- free ~K\n- free #K\n"),
        Once("- free ~1\n- free #1\n= ok\n= census 0\n"),
    ],
};

#[test]
fn a_ring_through_a_hundred_thousand_reflectors_is_freed(rt: HostRuntime) {
    REFLECTOR_RING.is_played(&rt);
}

/// What stands after both chains of entries, of which s0 holds the map and s1 the first key, and after a chain of proxies,
/// of which s1 holds the delegate of the only key. One `gc` marks the chain black from the registers, and the next one gray
/// from a native that holds the map and what s1 held, and itself; so each entry is a mapping of a collection. The first
/// collection keeps the native, which a register holds, and so all that the chain leads to; the second one takes it, and
/// the `gc` after that frees all.
const MARKED_AND_SCANNED: &str =
    "gc\nnative n0 3\nset n0 0 n0\nset n0 1 s0\nset n0 2 s1\ndrop s0\ndrop s1\n\
    copy n1 n0\ndrop n1\ngc\ncollect\ngc\ndrop n0\ncollect\ngc\ncensus\n";

/// What that answers before the first object is freed.
const SCANNED: &str = "= ok\n= #1\n= ok\n= ok\n= ok\n= ok\n= ok\n\
    = #1\n= ok\n= ok\n= ok\n= ok\n= ok\n- unlink #1\n- free #1\n= ok\n";

/// Each value is the key of the next entry of one map; the entries are set in the order of this chain.
const ENTRY_CHAIN: Shape = Shape {
    script: &[
        Once("weakmap s0\nscript s1 0\ncopy s2 s1\n"),
        Each(3, 100002, "script s3 0\nwset s0 s2 s3\ncopy s2 s3\n"),
        Once("drop s2\ndrop s3\n"),
        Once(MARKED_AND_SCANNED),
    ],
    wanted: &[
        Once("= @1\n= @2\n= @2\n"),
        Each(3, 100002, "= @K\n= ok\n= @K\n"),
        Once("= ok\n= ok\n"),
        Once(SCANNED),
        Each(1, 100002, "- free @K\n"),
        Once("= ok\n= census 0\n"),
    ],
};

#[test]
fn a_chain_of_a_hundred_thousand_entries_is_marked_and_scanned(rt: HostRuntime) {
    ENTRY_CHAIN.is_played(&rt);
}

/// The same, with the entries set against the order of the chain.
const ENTRY_CHAIN_AGAINST_ORDER: Shape = Shape {
    script: &[
        Once("weakmap s0\nscript s1 0\n"),
        Each(3, 100002, "script s2 0\nwset s0 s2 s1\ncopy s1 s2\n"),
        Once("drop s2\n"),
        Once(MARKED_AND_SCANNED),
    ],
    wanted: &[
        Once("= @1\n= @2\n"),
        Each(3, 100002, "= @K\n= ok\n= @K\n"),
        Once("= ok\n"),
        Once(SCANNED),
        Each(1, 100002, "- free @K\n"),
        Once("= ok\n= census 0\n"),
    ],
};

#[test]
fn a_chain_of_a_hundred_thousand_entries_is_marked_and_scanned_against_their_order(
    rt: HostRuntime,
) {
    ENTRY_CHAIN_AGAINST_ORDER.is_played(&rt);
}

/// Each proxy stands for the one before it, the first for a reflector; the last one is the key of the only entry, and s1
/// holds its delegate. One `gc` marks the chain, and keeps the key and the value; a collection keeps the native. The `gc`
/// after s1 is dropped frees all but the map and the reflector, which goes with its native after the next collection.
const PROXY_CHAIN: Shape = Shape {
    script: &[
        Once("native n0 0\nwrap s1 n0\nweakmap s0\n"),
        Each(2, 100000, "proxy s2 s1\ncopy s1 s2\n"),
        Once("proxy s2 s1\nscript s3 0\nwset s0 s2 s3\ndrop n0\ndrop s2\ndrop s3\n"),
        Once("gc\ncollect\ndrop s1\ngc\ncollect\ngc\ncensus\n"),
    ],
    wanted: &[
        Once("= #1\n= ~1\n= @1\n"),
        Each(2, 100000, "= @K\n= @K\n"),
        Once("= @100001\n= @100002\n= ok\n= ok\n= ok\n= ok\n= ok\n= ok\n= ok\n"),
        Each(2, 100002, "- free @K\n"),
        Once("= ok\n- unlink #1\n= ok\n- free ~1\n- free #1\n= ok\n+ @1\n= census 1\n"),
    ],
};

#[test]
fn a_chain_of_a_hundred_thousand_proxies_is_marked_and_swept(rt: HostRuntime) {
    PROXY_CHAIN.is_played(&rt);
}

/// The same over a script object, and the collections go over it too.
const PROXY_CHAIN_FROM_A_NATIVE: Shape = Shape {
    script: &[
        Once("weakmap s0\nscript s1 0\n"),
        Each(3, 100001, "proxy s2 s1\ncopy s1 s2\n"),
        Once("proxy s2 s1\nscript s3 0\nwset s0 s2 s3\ndrop s2\ndrop s3\n"),
        Once(MARKED_AND_SCANNED),
    ],
    wanted: &[
        Once("= @1\n= @2\n"),
        Each(3, 100001, "= @K\n= @K\n"),
        Once("= @100002\n= @100003\n= ok\n= ok\n= ok\n"),
        Once(SCANNED),
        Each(1, 100003, "- free @K\n"),
        Once("= ok\n= census 0\n"),
    ],
};

#[test]
fn a_chain_of_a_hundred_thousand_proxies_is_marked_and_scanned(rt: HostRuntime) {
    PROXY_CHAIN_FROM_A_NATIVE.is_played(&rt);
}

/// Each key holds the one before it, and s1 holds the last: so one `gc` keeps all values. The one after s1 is dropped frees
/// all but the map.
const LIVING_KEYS: Shape = Shape {
    script: &[
        Once("weakmap s0\nscript s1 1\n"),
        Each(
            1,
            100000,
            "script s2 0\nwset s0 s1 s2\nscript s2 1\nput s2 0 s1\ncopy s1 s2\n",
        ),
        Once("drop s2\ngc\ndrop s1\ngc\ncensus\n"),
    ],
    wanted: &[
        Once("= @1\n= @2\n"),
        Every(3, 200001, 2, "= @K\n= ok\n= @L\n= ok\n= @L\n"),
        Once("= ok\n= ok\n= ok\n"),
        Each(2, 200002, "- free @K\n"),
        Once("= ok\n+ @1\n= census 1\n"),
    ],
};

#[test]
fn a_map_with_a_hundred_thousand_living_keys_is_marked_by_one_gc(rt: HostRuntime) {
    LIVING_KEYS.is_played(&rt);
}

/// Each map is held by an object that holds the one before it, and s1 holds the last of these. One `gc` keeps all values;
/// the one after the key is dropped frees them with it.
const KEY_OF_MAPS: Shape = Shape {
    script: &[
        Once("script s0 0\nscript s1 2\n"),
        Each(
            1,
            10000,
            "weakmap s2\nput s1 1 s2\nscript s3 0\nwset s2 s0 s3\nscript s3 2\nput s3 0 s1\ncopy s1 s3\n",
        ),
        Once("drop s2\ndrop s3\ngc\ndrop s0\ngc\n"),
    ],
    wanted: &[
        Once("= @1\n= @2\n"),
        Every(3, 30000, 3, "= @K\n= ok\n= @L\n= ok\n= @M\n= ok\n= @M\n"),
        Once("= ok\n= ok\n= ok\n= ok\n- free @1\n"),
        Every(4, 30001, 3, "- free @K\n"),
        Once("= ok\n"),
    ],
};

#[test]
fn a_key_of_ten_thousand_maps_is_marked_by_one_gc(rt: HostRuntime) {
    KEY_OF_MAPS.is_played(&rt);
}

/// A hundred natives that each hold themselves and another one. A collection has begun when registers let go of the
/// others: each of these goes while its holder is unlinked, and the holders go when all of them are unlinked.
const VANISHING: Shape = Shape {
    script: &[
        Each(
            1,
            100,
            "native n0 2\nnative nK 0\nset n0 0 n0\nset n0 1 nK\ndrop n0\n",
        ),
        Once("slice 1\n"),
        Each(1, 100, "drop nK\n"),
        Once("slice 1000000\n"),
    ],
    wanted: &[
        Every(1, 199, 2, "= #K\n= #L\n= ok\n= ok\n= ok\n"),
        Once("= ok\n"),
        Each(1, 100, "= ok\n"),
        Every(1, 199, 2, "- unlink #K\n- free #L\n"),
        Every(1, 199, 2, "- free #K\n"),
        Once("= ok\n"),
    ],
};

#[test]
fn natives_vanish_while_others_are_unlinked(rt: HostRuntime) {
    VANISHING.is_played(&rt);
}

/// A native that all its slots and all registers hold is no suspect when a collection begins; all registers let go of it
/// before that collection ends, which has no node. The next one finds it.
const HELD_BY_ALL: Shape = Shape {
    script: &[
        Once("native n0 64\n"),
        Each(0, 63, "set n0 K n0\n"),
        Each(1, 255, "copy nK n0\n"),
        Once("slice 1\n"),
        Each(0, 255, "drop nK\n"),
        Once("slice 1\ncollect\n"),
    ],
    wanted: &[
        Once("= #1\n"),
        Each(0, 63, "= ok\n"),
        Each(1, 255, "= #1\n"),
        Once("= ok\n"),
        Each(0, 255, "= ok\n"),
        Once("= ok\n- unlink #1\n- free #1\n= ok\n"),
    ],
};

#[test]
fn a_native_that_everything_held_is_collected(rt: HostRuntime) {
    HELD_BY_ALL.is_played(&rt);
}

/// The same in version 2, with all its slots and registers.
const HELD_BY_ALL_OF_VERSION_TWO: Shape = Shape {
    script: &[
        Once("version 2\nnative n0 256\n"),
        Each(0, 255, "set n0 K n0\n"),
        Each(1, 1023, "copy nK n0\n"),
        Once("slice 1\n"),
        Each(0, 1023, "drop nK\n"),
        Once("slice 1\ncollect\n"),
    ],
    wanted: &[
        Once("= ok\n= #1\n"),
        Each(0, 255, "= ok\n"),
        Each(1, 1023, "= #1\n"),
        Once("= ok\n"),
        Each(0, 1023, "= ok\n"),
        Once("= ok\n- unlink #1\n- free #1\n= ok\n"),
    ],
};

#[test]
fn a_native_that_everything_of_version_two_held_is_collected(rt: HostRuntime) {
    HELD_BY_ALL_OF_VERSION_TWO.is_played(&rt);
}
