//! Some transcripts, whether they are lawful, and else where they are not, and why.
//!
//! Made by tools/worked_examples.py from examples/verdicts.txt.

use crate::example::{Example, are_judged};
use cc_check::Verdict;

const EXAMPLES: [Example; 18] = [
    // A mark between them breaks the row of gc, collect and gc.
    Example {
        name: "row_broken_by_mark",
        natives: 1000000,
        scripts: 1000000,
        bytes: 4294967295,
        script: b"version 2\nnative n0 0\ndrop n0\ngc\ncollect\nmark 9\ngc\ncensus\n",
        transcript: b"= ok\n= #1\n= ok\n= ok\n= ok\n= ok\n= ok\n+ #1\n= census 1\n",
        verdict: Verdict::Lawful,
        told: b"lawful\n",
    },
    // A mark in the place of the second gc makes no row.
    Example {
        name: "mark_is_no_gc",
        natives: 1000000,
        scripts: 1000000,
        bytes: 4294967295,
        script: b"version 2\nscript s0 0\ndrop s0\ngc\ncollect\nmark 9\ncensus\n",
        transcript: b"= ok\n= @1\n= ok\n= ok\n= ok\n= ok\n+ @1\n= census 1\n",
        verdict: Verdict::Lawful,
        told: b"lawful\n",
    },
    // Units of a marking free nothing that a register holds.
    Example {
        name: "script_object_is_freed_by_mark_while_held",
        natives: 1000000,
        scripts: 1000000,
        bytes: 4294967295,
        script: b"version 2\nscript s0 0\nmark 1\n",
        transcript: b"= ok\n= @1\n- free @1\n= ok\n",
        verdict: Verdict::Unlawful,
        told: b"line 3, answer to line 3 (mark 1): @1 is freed, but s0 leads to it: s0 @1\n",
    },
    // Units of a marking free no delegate of a held proxy.
    Example {
        name: "delegate_is_freed_by_mark_while_its_proxy_is_held",
        natives: 1000000,
        scripts: 1000000,
        bytes: 4294967295,
        script: b"version 2\nscript s0 0\nproxy s1 s0\ndrop s0\nmark 9\n",
        transcript: b"= ok\n= @1\n= @2\n= ok\n- free @1\n= ok\n",
        verdict: Verdict::Unlawful,
        told: b"line 5, answer to line 5 (mark 9): @1 is freed, but s1 leads to it: s1 @2, @2 @1\n",
    },
    // Units of a marking free no value of a held map and a held key.
    Example {
        name: "value_is_freed_by_mark_while_map_and_key_are_held",
        natives: 1000000,
        scripts: 1000000,
        bytes: 4294967295,
        script: b"version 2\nweakmap s0\nscript s1 0\nscript s2 0\nwset s0 s1 s2\ndrop s2\nmark 9\n",
        transcript: b"= ok\n= @1\n= @2\n= @3\n= ok\n= ok\n- free @3\n= ok\n",
        verdict: Verdict::Unlawful,
        told: b"line 7, answer to line 7 (mark 9): @3 is freed, but s0 leads to it: s0 @1, s1 @2, @1 @2 @3\n",
    },
    // What units of a marking freed may not be freed again by gc.
    Example {
        name: "script_object_freed_by_mark_is_freed_again",
        natives: 1000000,
        scripts: 1000000,
        bytes: 4294967295,
        script: b"version 2\nscript s0 0\ndrop s0\nmark 9\ngc\n",
        transcript: b"= ok\n= @1\n= ok\n- free @1\n= ok\n- free @1\n= ok\n",
        verdict: Verdict::Unlawful,
        told: b"line 6, answer to line 5 (gc): @1 is freed, but it is not there any more, or never was\n",
    },
    // A drop frees no script object, whatever goes on.
    Example {
        name: "script_object_is_freed_by_a_drop_while_a_marking_goes_on",
        natives: 1000000,
        scripts: 1000000,
        bytes: 4294967295,
        script: b"version 2\nscript s0 0\nmark 1\ndrop s0\n",
        transcript: b"= ok\n= @1\n= ok\n- free @1\n= ok\n",
        verdict: Verdict::Unlawful,
        told: b"line 4, answer to line 4 (drop s0): @1 is freed, and this command may not free it\n",
    },
    // No script object is unlinked by units of a marking.
    Example {
        name: "script_object_is_unlinked_by_mark",
        natives: 1000000,
        scripts: 1000000,
        bytes: 4294967295,
        script: b"version 2\nscript s0 0\ndrop s0\nmark 1\n",
        transcript: b"= ok\n= @1\n= ok\n- unlink @1\n= ok\n",
        verdict: Verdict::Unlawful,
        told: b"line 4, answer to line 4 (mark 1): @1 is unlinked, and this command may not unlink it\n",
    },
    // A mark unlinks nothing that a register holds.
    Example {
        name: "unlinked_by_mark_while_held",
        natives: 1000000,
        scripts: 1000000,
        bytes: 4294967295,
        script: b"version 2\nnative n0 1\nset n0 0 n0\nmark 1\n",
        transcript: b"= ok\n= #1\n= ok\n- unlink #1\n= ok\n",
        verdict: Verdict::Unlawful,
        told: b"line 4, answer to line 4 (mark 1): #1 is unlinked, but n0 leads to it: n0 #1\n",
    },
    // The numbers that a mark unlinks rise, for it ends one collection at most.
    Example {
        name: "unlinked_in_falling_order_by_mark",
        natives: 1000000,
        scripts: 1000000,
        bytes: 4294967295,
        script: b"version 2\nnative n0 0\nnative n1 0\ndrop n0\ndrop n1\nmark 1\n",
        transcript: b"= ok\n= #1\n= #2\n= ok\n= ok\n- unlink #2\n- unlink #1\n= ok\n",
        verdict: Verdict::Unlawful,
        told: b"line 7, answer to line 6 (mark 1): #1 is unlinked, and its number does not rise\n",
    },
    // A mark abandons no more than the one collection that runs.
    Example {
        name: "mark_abandons_twice",
        natives: 1000000,
        scripts: 1000000,
        bytes: 4294967295,
        script: b"version 2\nmark 1\n",
        transcript: b"= ok\n- abandon\n- abandon\n= ok\n",
        verdict: Verdict::Unlawful,
        told: b"line 3, answer to line 2 (mark 1): an abandonment behind another event\n",
    },
    // A mark abandons the collection that runs before it frees anything.
    Example {
        name: "mark_abandons_late",
        natives: 1000000,
        scripts: 1000000,
        bytes: 4294967295,
        script: b"version 2\nscript s0 0\ndrop s0\nmark 9\n",
        transcript: b"= ok\n= @1\n= ok\n- free @1\n- abandon\n= ok\n",
        verdict: Verdict::Unlawful,
        told: b"line 5, answer to line 4 (mark 9): an abandonment behind another event\n",
    },
    // A mark whose collection was refused memory is done all the same.
    Example {
        name: "mark_abandons_and_is_refused",
        natives: 1000000,
        scripts: 1000000,
        bytes: 4294967295,
        script: b"version 2\nmark 1\n",
        transcript: b"= ok\n- abandon\n! nomem\n",
        verdict: Verdict::Unlawful,
        told: b"line 3, answer to line 2 (mark 1): the reply is = ok\n",
    },
    // Units of a marking take no memory.
    Example {
        name: "mark_wants_memory",
        natives: 1000000,
        scripts: 1000000,
        bytes: 4294967295,
        script: b"version 2\nmark 1\n",
        transcript: b"= ok\n! nomem\n",
        verdict: Verdict::Unlawful,
        told: b"line 2, answer to line 2 (mark 1): the reply is = ok\n",
    },
    // Version 1 has no word mark.
    Example {
        name: "mark_is_taken_in_version_one",
        natives: 1000000,
        scripts: 1000000,
        bytes: 4294967295,
        script: b"mark 1\n",
        transcript: b"= ok\n",
        verdict: Verdict::Unlawful,
        told: b"line 1, answer to line 1 (mark 1): the answer ends here: ! line\n",
    },
    // Version 2 has the word mark.
    Example {
        name: "mark_is_refused_in_version_two",
        natives: 1000000,
        scripts: 1000000,
        bytes: 4294967295,
        script: b"version 2\nmark 1\n",
        transcript: b"= ok\n! line\n",
        verdict: Verdict::Unlawful,
        told: b"line 2, answer to line 2 (mark 1): the reply is = ok\n",
    },
    // A marking has a unit at least.
    Example {
        name: "mark_of_no_units_is_taken",
        natives: 1000000,
        scripts: 1000000,
        bytes: 4294967295,
        script: b"version 2\nmark 0\n",
        transcript: b"= ok\n= ok\n",
        verdict: Verdict::Unlawful,
        told: b"line 2, answer to line 2 (mark 0): the answer ends here: ! line\n",
    },
    // A row of gc, collect and gc leaves nothing that a marking before it had found.
    Example {
        name: "garbage_is_kept_behind_a_dropped_marking",
        natives: 1000000,
        scripts: 1000000,
        bytes: 4294967295,
        script: b"version 2\nscript s0 0\nmark 2\ndrop s0\ngc\ncollect\ngc\ncensus\n",
        transcript: b"= ok\n= @1\n= ok\n= ok\n= ok\n= ok\n= ok\n+ @1\n= census 1\n",
        verdict: Verdict::Unlawful,
        told: b"line 7, answer to line 7 (gc): the census behind it lists exactly what is reached, but @1 is not\n",
    },
];

#[test]
fn transcripts_are_judged(rt: HostRuntime) {
    are_judged(&rt, &EXAMPLES);
}
