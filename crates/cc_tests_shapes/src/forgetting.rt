//! Suspects that are forgotten where many objects lead to each other: the collection after it has none of them as candidates.

use crate::text::Part::{Each, Once};
use crate::text::{Part, plays};

/// Each native holds the one before it, and a register the last of them. All are suspects, and one more that only itself holds
/// and that is no less one afterwards.
const CHAIN: &[Part] = &[
    Once("version 2\nnative n0 1\n"),
    Each(2, 200000, "native n1 1\nset n1 0 n0\ncopy n0 n1\n"),
    Once("drop n1\nnative n2 1\nset n2 0 n2\ndrop n2\nforget\nslice 3\n"),
];

const CHAIN_ANSWERS: &[Part] = &[
    Once("= ok\n= #1\n"),
    Each(2, 200000, "= #K\n= ok\n= #K\n"),
    Once("= ok\n= #200001\n= ok\n= ok\n= ok\n- unlink #200001\n- free #200001\n= ok\n"),
];

#[test]
fn a_chain_of_two_hundred_thousand_suspects_is_forgotten(rt: HostRuntime) {
    plays(&rt, CHAIN, CHAIN_ANSWERS);
}

/// The same, where each native holds the reflector of the one before it.
const REFLECTOR_CHAIN: &[Part] = &[
    Once("version 2\nnative n0 1\n"),
    Each(
        2,
        200001,
        "native n1 1\nwrap s0 n0\nset n1 0 s0\ncopy n0 n1\n",
    ),
    Once("drop n1\ndrop s0\nnative n2 1\nset n2 0 n2\ndrop n2\nforget\nslice 3\n"),
];

const REFLECTOR_CHAIN_ANSWERS: &[Part] = &[
    Once("= ok\n= #1\n"),
    Each(1, 200000, "= #L\n= ~K\n= ok\n= #L\n"),
    Once("= ok\n= ok\n= #200002\n= ok\n= ok\n= ok\n- unlink #200002\n- free #200002\n= ok\n"),
];

#[test]
fn suspects_are_forgotten_through_two_hundred_thousand_reflectors(rt: HostRuntime) {
    plays(&rt, REFLECTOR_CHAIN, REFLECTOR_CHAIN_ANSWERS);
}
