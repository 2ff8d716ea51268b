//! Some transcripts, whether they are lawful, and else where they are not, and why.
//!
//! Made by tools/worked_examples.py from examples/verdicts.txt.

use crate::example::{Example, are_judged};
use cc_check::Verdict;

const EXAMPLES: [Example; 20] = [
    // A delegate lives as long as its proxy.
    Example {
        name: "delegate_is_freed_while_its_proxy_is_held",
        natives: 1000000,
        scripts: 1000000,
        bytes: 4294967295,
        script: b"script s0 0\nproxy s1 s0\ndrop s0\ngc\n",
        transcript: b"= @1\n= @2\n= ok\n- free @1\n= ok\n",
        verdict: Verdict::Unlawful,
        told: b"line 4, answer to line 4 (gc): @1 is freed, but s1 leads to it: s1 @2, @2 @1\n",
    },
    // A proxy that is a key lives as long as its map and its delegate, which may be one object.
    Example {
        name: "proxy_key_is_freed_while_map_and_delegate_are_held",
        natives: 1000000,
        scripts: 1000000,
        bytes: 4294967295,
        script: b"weakmap s0\nproxy s1 s0\nwset s0 s1 s0\ndrop s1\ngc\n",
        transcript: b"= @1\n= @2\n= ok\n= ok\n- free @2\n= ok\n",
        verdict: Verdict::Unlawful,
        told: b"line 5, answer to line 5 (gc): @2 is freed, but s0 leads to it: s0 @1, @1 @1 @2\n",
    },
    // The value of a key that is a proxy lives as long as the map and the key's delegate.
    Example {
        name: "value_of_a_proxy_key_is_freed_while_map_and_delegate_are_held",
        natives: 1000000,
        scripts: 1000000,
        bytes: 4294967295,
        script: b"weakmap s0\nproxy s1 s0\nscript s2 0\nwset s0 s1 s2\ndrop s1\ndrop s2\ngc\n",
        transcript: b"= @1\n= @2\n= @3\n= ok\n= ok\n= ok\n- free @3\n= ok\n",
        verdict: Verdict::Unlawful,
        told: b"line 7, answer to line 7 (gc): @3 is freed, but s0 leads to it: s0 @1, @1 @1 @2, @1 @2 @3\n",
    },
    // A drop frees no script object.
    Example {
        name: "script_object_is_freed_by_a_drop",
        natives: 1000000,
        scripts: 1000000,
        bytes: 4294967295,
        script: b"script s0 0\ndrop s0\n",
        transcript: b"= @1\n- free @1\n= ok\n",
        verdict: Verdict::Unlawful,
        told: b"line 2, answer to line 2 (drop s0): @1 is freed, and this command may not free it\n",
    },
    // A drop frees no reflector, though it may free the native.
    Example {
        name: "reflector_is_freed_by_a_drop",
        natives: 1000000,
        scripts: 1000000,
        bytes: 4294967295,
        script: b"native n0 0\nwrap s0 n0\ndrop s0\ndrop n0\n",
        transcript: b"= #1\n= ~1\n= ok\n- free #1\n- free ~1\n= ok\n",
        verdict: Verdict::Unlawful,
        told: b"line 5, answer to line 4 (drop n0): ~1 is freed, and this command may not free it\n",
    },
    // A put frees no script object, also what its slot held.
    Example {
        name: "script_object_is_freed_by_a_put",
        natives: 1000000,
        scripts: 1000000,
        bytes: 4294967295,
        script: b"script s0 1\nscript s1 0\nput s0 0 s1\ndrop s1\nput s0 0 none\n",
        transcript: b"= @1\n= @2\n= ok\n= ok\n- free @2\n= ok\n",
        verdict: Verdict::Unlawful,
        told: b"line 5, answer to line 5 (put s0 0 none): @2 is freed, and this command may not free it\n",
    },
    // The making of a script object frees none, also what its register held.
    Example {
        name: "script_object_is_freed_by_the_making_of_another",
        natives: 1000000,
        scripts: 1000000,
        bytes: 4294967295,
        script: b"script s0 0\nscript s0 0\n",
        transcript: b"= @1\n- free @1\n= @2\n",
        verdict: Verdict::Unlawful,
        told: b"line 2, answer to line 2 (script s0 0): @1 is freed, and this command may not free it\n",
    },
    // A slice may free script objects, but none that a held native has in a slot.
    Example {
        name: "script_object_is_freed_by_a_slice_while_a_native_holds_it",
        natives: 1000000,
        scripts: 1000000,
        bytes: 4294967295,
        script: b"native n0 1\nscript s0 0\nset n0 0 s0\ndrop s0\nslice 1\n",
        transcript: b"= #1\n= @1\n= ok\n= ok\n- free @1\n= ok\n",
        verdict: Verdict::Unlawful,
        told: b"line 5, answer to line 5 (slice 1): @1 is freed, but n0 leads to it: n0 #1, #1 @1\n",
    },
    // A collect may free script objects, but no value of a held map and a held key.
    Example {
        name: "value_is_freed_by_a_collect_while_map_and_key_are_held",
        natives: 1000000,
        scripts: 1000000,
        bytes: 4294967295,
        script: b"weakmap s0\nscript s1 0\nwset s0 s0 s1\ndrop s1\ncollect\n",
        transcript: b"= @1\n= @2\n= ok\n= ok\n- free @2\n= ok\n",
        verdict: Verdict::Unlawful,
        told: b"line 5, answer to line 5 (collect): @2 is freed, but s0 leads to it: s0 @1, @1 @1 @2\n",
    },
    // A native that was not made yet may not be unlinked.
    Example {
        name: "unlinked_before_it_was_made",
        natives: 1000000,
        scripts: 1000000,
        bytes: 4294967295,
        script: b"collect\n",
        transcript: b"- unlink #1\n= ok\n",
        verdict: Verdict::Unlawful,
        told: b"line 1, answer to line 1 (collect): #1 is unlinked, but it is not there any more, or never was\n",
    },
    // A native that was freed may not be unlinked by the same collect.
    Example {
        name: "unlinked_after_it_was_freed",
        natives: 1000000,
        scripts: 1000000,
        bytes: 4294967295,
        script: b"native n0 0\ndrop n0\ncollect\n",
        transcript: b"= #1\n= ok\n- free #1\n- unlink #1\n= ok\n",
        verdict: Verdict::Unlawful,
        told: b"line 4, answer to line 3 (collect): #1 is unlinked, but it is not there any more, or never was\n",
    },
    // A drop unlinks nothing.
    Example {
        name: "unlinked_by_a_drop",
        natives: 1000000,
        scripts: 1000000,
        bytes: 4294967295,
        script: b"native n0 0\ndrop n0\n",
        transcript: b"= #1\n- unlink #1\n= ok\n",
        verdict: Verdict::Unlawful,
        told: b"line 2, answer to line 2 (drop n0): #1 is unlinked, and this command may not unlink it\n",
    },
    // The making of a native unlinks no other.
    Example {
        name: "unlinked_by_the_making_of_another",
        natives: 1000000,
        scripts: 1000000,
        bytes: 4294967295,
        script: b"native n0 0\ndrop n0\nnative n0 0\n",
        transcript: b"= #1\n= ok\n- unlink #1\n= #2\n",
        verdict: Verdict::Unlawful,
        told: b"line 3, answer to line 3 (native n0 0): #1 is unlinked, and this command may not unlink it\n",
    },
    // A native that is moved is held by the slot that takes it.
    Example {
        name: "moved_native_is_freed",
        natives: 1000000,
        scripts: 1000000,
        bytes: 4294967295,
        script: b"version 2\nnative n0 1\nnative n1 1\nnative n2 0\nset n0 0 n2\ndrop n2\nmove n1 0 n0 0\n",
        transcript: b"= ok\n= #1\n= #2\n= #3\n= ok\n= ok\n- free #3\n= #3\n",
        verdict: Verdict::Unlawful,
        told: b"line 7, answer to line 7 (move n1 0 n0 0): #3 is freed, but n1 leads to it: n1 #2, #2 #3\n",
    },
    // A move unlinks nothing, also what it lets go.
    Example {
        name: "unlinked_by_a_move",
        natives: 1000000,
        scripts: 1000000,
        bytes: 4294967295,
        script: b"version 2\nnative n0 1\nnative n1 0\nset n0 0 n1\ndrop n1\nnative n1 1\nmove n0 0 n1 0\n",
        transcript: b"= ok\n= #1\n= #2\n= ok\n= ok\n= #3\n- unlink #2\n= none\n",
        verdict: Verdict::Unlawful,
        told: b"line 7, answer to line 7 (move n0 0 n1 0): #2 is unlinked, and this command may not unlink it\n",
    },
    // No script object is unlinked, under gc neither.
    Example {
        name: "script_object_is_unlinked",
        natives: 1000000,
        scripts: 1000000,
        bytes: 4294967295,
        script: b"script s0 0\ndrop s0\ngc\n",
        transcript: b"= @1\n= ok\n- unlink @1\n= ok\n",
        verdict: Verdict::Unlawful,
        told: b"line 3, answer to line 3 (gc): @1 is unlinked, and this command may not unlink it\n",
    },
    // No reflector is unlinked, under gc neither.
    Example {
        name: "reflector_is_unlinked",
        natives: 1000000,
        scripts: 1000000,
        bytes: 4294967295,
        script: b"native n0 0\nwrap s0 n0\ndrop s0\ngc\n",
        transcript: b"= #1\n= ~1\n= ok\n- unlink ~1\n= ok\n",
        verdict: Verdict::Unlawful,
        told: b"line 4, answer to line 4 (gc): ~1 is unlinked, and this command may not unlink it\n",
    },
    // The numbers that a slice unlinks rise, also those of natives on no cycle.
    Example {
        name: "unlinked_in_falling_order",
        natives: 1000000,
        scripts: 1000000,
        bytes: 4294967295,
        script: b"native n0 0\nnative n1 0\ndrop n0\ndrop n1\nslice 9\n",
        transcript: b"= #1\n= #2\n= ok\n= ok\n- unlink #2\n- unlink #1\n= ok\n",
        verdict: Verdict::Unlawful,
        told: b"line 6, answer to line 5 (slice 9): #1 is unlinked, and its number does not rise\n",
    },
    // The numbers that gc unlinks rise once, for it ends one collection at most.
    Example {
        name: "unlinked_in_falling_order_by_gc",
        natives: 1000000,
        scripts: 1000000,
        bytes: 4294967295,
        script: b"native n0 0\nnative n1 0\ndrop n0\ndrop n1\ngc\n",
        transcript: b"= #1\n= #2\n= ok\n= ok\n- unlink #2\n- unlink #1\n= ok\n",
        verdict: Verdict::Unlawful,
        told: b"line 6, answer to line 5 (gc): #1 is unlinked, and its number does not rise\n",
    },
    // The numbers that collect unlinks rise twice at most, for it ends two collections at most.
    Example {
        name: "unlinked_in_three_runs",
        natives: 1000000,
        scripts: 1000000,
        bytes: 4294967295,
        script: b"native n0 0\nnative n1 0\nnative n2 0\ndrop n0\ndrop n1\ndrop n2\ncollect\n",
        transcript: b"= #1\n= #2\n= #3\n= ok\n= ok\n= ok\n- unlink #3\n- unlink #2\n- unlink #1\n= ok\n",
        verdict: Verdict::Unlawful,
        told: b"line 9, answer to line 7 (collect): #1 is unlinked, and its number does not rise\n",
    },
];

#[test]
fn transcripts_are_judged(rt: HostRuntime) {
    are_judged(&rt, &EXAMPLES);
}
