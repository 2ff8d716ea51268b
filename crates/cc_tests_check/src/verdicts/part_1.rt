//! Some transcripts, whether they are lawful, and else where they are not, and why.
//!
//! Made by tools/worked_examples.py from examples/verdicts.txt.

use crate::example::{Example, are_judged};
use cc_check::Verdict;

const EXAMPLES: [Example; 20] = [
    // An empty transcript answers an empty script.
    Example {
        name: "nothing_asked_nothing_answered",
        natives: 1000000,
        scripts: 1000000,
        bytes: 4294967295,
        script: b"",
        transcript: b"",
        verdict: Verdict::Lawful,
        told: b"lawful\n",
    },
    // A script of blank lines and comments is answered by nothing.
    Example {
        name: "blank_lines_have_no_answer",
        natives: 1000000,
        scripts: 1000000,
        bytes: 4294967295,
        script: b"\n% a comment\n  \n\r\n",
        transcript: b"",
        verdict: Verdict::Lawful,
        told: b"lawful\n",
    },
    // What no register reaches may be listed as long as the row does not ask for it.
    Example {
        name: "self_cycle_is_listed",
        natives: 1000000,
        scripts: 1000000,
        bytes: 4294967295,
        script: b"native n0 1\nset n0 0 n0\ndrop n0\ncensus\n",
        transcript: b"= #1\n= ok\n= ok\n+ #1\n= census 1\n",
        verdict: Verdict::Lawful,
        told: b"lawful\n",
    },
    // Another collector may find a cycle in a slice that comes sooner.
    Example {
        name: "found_earlier_than_by_us",
        natives: 1000000,
        scripts: 1000000,
        bytes: 4294967295,
        script: b"native n0 1\nset n0 0 n0\ncopy n1 n0\ndrop n1\nslice 1\ncopy n2 n0\ndrop n0\ndrop n2\nslice 10\ncollect\n",
        transcript: b"= #1\n= ok\n= #1\n= ok\n= ok\n= #1\n= ok\n= ok\n- unlink #1\n- free #1\n= ok\n= ok\n",
        verdict: Verdict::Lawful,
        told: b"lawful\n",
    },
    // A native that nothing reaches may be freed by a later command.
    Example {
        name: "freed_late",
        natives: 1000000,
        scripts: 1000000,
        bytes: 4294967295,
        script: b"native n0 0\nnative n1 0\ndrop n0\ndrop n1\ncensus\n",
        transcript: b"= #1\n= #2\n= ok\n- free #2\n- free #1\n= ok\n= census 0\n",
        verdict: Verdict::Lawful,
        told: b"lawful\n",
    },
    // A collector that frees nothing is lawful where no row asks for it.
    Example {
        name: "never_freed",
        natives: 1000000,
        scripts: 1000000,
        bytes: 4294967295,
        script: b"native n0 0\ndrop n0\ngc\ncollect\ncensus\n",
        transcript: b"= #1\n= ok\n= ok\n= ok\n+ #1\n= census 1\n",
        verdict: Verdict::Lawful,
        told: b"lawful\n",
    },
    // A refused line between them breaks the row of gc, collect and gc.
    Example {
        name: "row_broken_by_a_refused_line",
        natives: 1000000,
        scripts: 1000000,
        bytes: 4294967295,
        script: b"native n0 0\ndrop n0\ngc\ncollect\ngc x\ngc\ncensus\n",
        transcript: b"= #1\n= ok\n= ok\n= ok\n! line\n= ok\n+ #1\n= census 1\n",
        verdict: Verdict::Lawful,
        told: b"lawful\n",
    },
    // A collection that was refused memory breaks the row.
    Example {
        name: "row_broken_by_want_of_memory",
        natives: 1000000,
        scripts: 1000000,
        bytes: 4294967295,
        script: b"native n0 1\nset n0 0 n0\ndrop n0\ngc\ncollect\ngc\ncensus\n",
        transcript: b"= #1\n= ok\n= ok\n= ok\n- abandon\n! nomem\n= ok\n+ #1\n= census 1\n",
        verdict: Verdict::Lawful,
        told: b"lawful\n",
    },
    // A blank line between them does not break the row.
    Example {
        name: "blank_line_within_the_row",
        natives: 1000000,
        scripts: 1000000,
        bytes: 4294967295,
        script: b"native n0 0\ndrop n0\ngc\n\ncollect\n% so far\ngc\ncensus\n",
        transcript: b"= #1\n- free #1\n= ok\n= ok\n= ok\n= ok\n= census 0\n",
        verdict: Verdict::Lawful,
        told: b"lawful\n",
    },
    // A native may be refused memory, and nothing is made.
    Example {
        name: "native_refused_memory",
        natives: 1000000,
        scripts: 1000000,
        bytes: 4294967295,
        script: b"native n0 0\nnative n0 0\ncensus\n",
        transcript: b"! nomem\n= #1\n+ #1\n= census 1\n",
        verdict: Verdict::Lawful,
        told: b"lawful\n",
    },
    // How an object is reached may be refused memory.
    Example {
        name: "why_refused_memory",
        natives: 1000000,
        scripts: 1000000,
        bytes: 4294967295,
        script: b"version 2\nnative n0 0\nwhy #1\nwhy #1\n",
        transcript: b"= ok\n= #1\n! nomem\n: #1 n0\n= ok\n",
        verdict: Verdict::Lawful,
        told: b"lawful\n",
    },
    // Gc may abandon a running collection first, and goes on.
    Example {
        name: "first_abandonment_of_gc",
        natives: 1000000,
        scripts: 1000000,
        bytes: 4294967295,
        script: b"native n0 1\nset n0 0 n0\ndrop n0\nslice 1\ngc\n",
        transcript: b"= #1\n= ok\n= ok\n= ok\n- abandon\n= ok\n",
        verdict: Verdict::Lawful,
        told: b"lawful\n",
    },
    // The numbers that collect unlinks may rise twice.
    Example {
        name: "two_rising_runs",
        natives: 1000000,
        scripts: 1000000,
        bytes: 4294967295,
        script: b"native n0 1\nset n0 0 n0\nnative n0 1\nset n0 0 n0\nnative n0 1\nset n0 0 n0\ndrop n0\ncollect\n",
        transcript: b"= #1\n= ok\n= #2\n= ok\n= #3\n= ok\n= ok\n- unlink #2\n- unlink #3\n- free #2\n- free #3\n- unlink #1\n- free #1\n= ok\n",
        verdict: Verdict::Lawful,
        told: b"lawful\n",
    },
    // A native may be unlinked by one collection and again by the next.
    Example {
        name: "unlinked_twice",
        natives: 1000000,
        scripts: 1000000,
        bytes: 4294967295,
        script: b"native n0 1\nwrap s0 n0\nset n0 0 s0\ndrop s0\ndrop n0\ngc\ncollect\ncollect\ngc\ncensus\n",
        transcript: b"= #1\n= ~1\n= ok\n= ok\n= ok\n= ok\n- unlink #1\n= ok\n- unlink #1\n= ok\n- free ~1\n- free #1\n= ok\n= census 0\n",
        verdict: Verdict::Lawful,
        told: b"lawful\n",
    },
    // As many natives as the limit were made, the freed ones counted.
    Example {
        name: "full_is_no_want_of_memory",
        natives: 1,
        scripts: 1000000,
        bytes: 4294967295,
        script: b"native n0 0\ndrop n0\nnative n0 0\n",
        transcript: b"= #1\n- free #1\n= ok\n! full\n",
        verdict: Verdict::Lawful,
        told: b"lawful\n",
    },
    // The steps of the derivation are told, and no other.
    Example {
        name: "path_is_told",
        natives: 1000000,
        scripts: 1000000,
        bytes: 4294967295,
        script: b"version 2\nweakmap s0\nscript s1 0\nscript s2 0\nwset s0 s1 s2\ndrop s2\nwhy @3\nwhy @9\n",
        transcript: b"= ok\n= @1\n= @2\n= @3\n= ok\n= ok\n: @1 s0\n: @2 s1\n: @3 @1 @2\n= ok\n= none\n",
        verdict: Verdict::Lawful,
        told: b"lawful\n",
    },
    // A census without a name that is listed is wrong, with its number too.
    Example {
        name: "listed_name_is_missing",
        natives: 1000000,
        scripts: 1000000,
        bytes: 4294967295,
        script: b"native n0 1\nset n0 0 n0\ndrop n0\ncensus\n",
        transcript: b"= #1\n= ok\n= ok\n= census 0\n",
        verdict: Verdict::Unlawful,
        told: b"line 4, answer to line 4 (census): the census lists #1 here\n",
    },
    // A transcript that ends before its last reply is wrong.
    Example {
        name: "line_is_missing",
        natives: 1000000,
        scripts: 1000000,
        bytes: 4294967295,
        script: b"native n0 0\nnative n1 0\n",
        transcript: b"= #1\n",
        verdict: Verdict::Unlawful,
        told: b"end: a lawful transcript goes on\n",
    },
    // A reply that comes twice is wrong.
    Example {
        name: "line_is_doubled",
        natives: 1000000,
        scripts: 1000000,
        bytes: 4294967295,
        script: b"native n0 0\nnative n1 0\n",
        transcript: b"= #1\n= #1\n= #2\n",
        verdict: Verdict::Unlawful,
        told: b"line 2, answer to line 2 (native n1 0): the reply is = #2\n",
    },
    // Replies in another order are wrong.
    Example {
        name: "lines_are_swapped",
        natives: 1000000,
        scripts: 1000000,
        bytes: 4294967295,
        script: b"native n0 0\nnative n1 0\n",
        transcript: b"= #2\n= #1\n",
        verdict: Verdict::Unlawful,
        told: b"line 1, answer to line 1 (native n0 0): the reply is = #1\n",
    },
];

#[test]
fn transcripts_are_judged(rt: HostRuntime) {
    are_judged(&rt, &EXAMPLES);
}
