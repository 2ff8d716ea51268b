//! A script heap of two hundred thousand objects marked in slices: a unit at a time, a thousand at a time, and all at once.

use crate::text::Part::{Each, Once};
use crate::text::{Part, plays};

/// Each script object holds the one before it, and a register the last of them; one more object is held by nothing. The begin is a
/// unit, each object of the chain, and the end, which frees that one. Once the chain is let go the next marking frees it.
const SINGLY: &[Part] = &[
    Once("version 2\nscript s0 1\n"),
    Each(2, 200000, "script s1 1\nput s1 0 s0\ncopy s0 s1\n"),
    Once("drop s1\nscript s2 0\ndrop s2\n"),
    Each(1, 200001, "mark 1\n"),
    Once("mark 1\ndrop s0\nmark 2\ncensus\n"),
];

const SINGLY_ANSWERS: &[Part] = &[
    Once("= ok\n= @1\n"),
    Each(2, 200000, "= @K\n= ok\n= @K\n"),
    Once("= ok\n= @200001\n= ok\n"),
    Each(1, 200001, "= ok\n"),
    Once("- free @200001\n= ok\n= ok\n"),
    Each(1, 200000, "- free @K\n"),
    Once("= ok\n= census 0\n"),
];

#[test]
fn two_hundred_thousand_script_objects_are_marked_a_unit_at_a_time(rt: HostRuntime) {
    plays(&rt, SINGLY, SINGLY_ANSWERS);
}

/// The same, a thousand units at a time: the last of them are two.
const BY_THOUSANDS: &[Part] = &[
    Once("version 2\nscript s0 1\n"),
    Each(2, 200000, "script s1 1\nput s1 0 s0\ncopy s0 s1\n"),
    Once("drop s1\nscript s2 0\ndrop s2\n"),
    Each(1, 200, "mark 1000\n"),
    Once("mark 1000\ndrop s0\nmark 1000\ncensus\n"),
];

const BY_THOUSANDS_ANSWERS: &[Part] = &[
    Once("= ok\n= @1\n"),
    Each(2, 200000, "= @K\n= ok\n= @K\n"),
    Once("= ok\n= @200001\n= ok\n"),
    Each(1, 200, "= ok\n"),
    Once("- free @200001\n= ok\n= ok\n"),
    Each(1, 200000, "- free @K\n"),
    Once("= ok\n= census 0\n"),
];

#[test]
fn two_hundred_thousand_script_objects_are_marked_a_thousand_units_at_a_time(rt: HostRuntime) {
    plays(&rt, BY_THOUSANDS, BY_THOUSANDS_ANSWERS);
}

/// The same by one `mark`.
const AT_ONCE: &[Part] = &[
    Once("version 2\nscript s0 1\n"),
    Each(2, 200000, "script s1 1\nput s1 0 s0\ncopy s0 s1\n"),
    Once("drop s1\nscript s2 0\ndrop s2\nmark 1000000\ndrop s0\nmark 1000000\ncensus\n"),
];

const AT_ONCE_ANSWERS: &[Part] = &[
    Once("= ok\n= @1\n"),
    Each(2, 200000, "= @K\n= ok\n= @K\n"),
    Once("= ok\n= @200001\n= ok\n- free @200001\n= ok\n= ok\n"),
    Each(1, 200000, "- free @K\n"),
    Once("= ok\n= census 0\n"),
];

#[test]
fn two_hundred_thousand_script_objects_are_marked_by_one_mark(rt: HostRuntime) {
    plays(&rt, AT_ONCE, AT_ONCE_ANSWERS);
}
