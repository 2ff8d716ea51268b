//! Some transcripts, whether they are lawful, and else where they are not, and why.
//!
//! Made by tools/worked_examples.py from examples/verdicts.txt.

use crate::example::{Example, are_judged};
use cc_check::Verdict;

const EXAMPLES: [Example; 20] = [
    // What was never made may not be freed.
    Example {
        name: "never_made_and_freed",
        natives: 1000000,
        scripts: 1000000,
        bytes: 4294967295,
        script: b"native n0 0\ndrop n0\n",
        transcript: b"= #1\n- free #2\n= ok\n",
        verdict: Verdict::Unlawful,
        told: b"line 2, answer to line 2 (drop n0): #2 is freed, but it is not there any more, or never was\n",
    },
    // An event of a command comes behind the line before it.
    Example {
        name: "freed_before_the_command_lets_go",
        natives: 1000000,
        scripts: 1000000,
        bytes: 4294967295,
        script: b"native n0 0\nnative n1 0\ndrop n0\n",
        transcript: b"= #1\n- free #1\n= #2\n= ok\n",
        verdict: Verdict::Unlawful,
        told: b"line 2, answer to line 2 (native n1 0): #1 is freed, but n0 leads to it: n0 #1\n",
    },
    // An event comes before the reply of its command.
    Example {
        name: "freed_after_the_reply",
        natives: 1000000,
        scripts: 1000000,
        bytes: 4294967295,
        script: b"native n0 0\ndrop n0\n",
        transcript: b"= #1\n= ok\n- free #1\n",
        verdict: Verdict::Unlawful,
        told: b"line 3: nothing is asked any more\n",
    },
    // Script objects are freed by a slice, a collect, a gc or a mark alone.
    Example {
        name: "script_object_freed_by_what_does_not_collect",
        natives: 1000000,
        scripts: 1000000,
        bytes: 4294967295,
        script: b"script s0 0\ndrop s0\ncollect\n",
        transcript: b"= @1\n- free @1\n= ok\n= ok\n",
        verdict: Verdict::Unlawful,
        told: b"line 2, answer to line 2 (drop s0): @1 is freed, and this command may not free it\n",
    },
    // Natives are unlinked in a collection alone.
    Example {
        name: "unlinked_outside_a_collection",
        natives: 1000000,
        scripts: 1000000,
        bytes: 4294967295,
        script: b"native n0 1\nset n0 0 n0\ndrop n0\n",
        transcript: b"= #1\n= ok\n- unlink #1\n- free #1\n= ok\n",
        verdict: Verdict::Unlawful,
        told: b"line 3, answer to line 3 (drop n0): #1 is unlinked, and this command may not unlink it\n",
    },
    // Natives alone are unlinked.
    Example {
        name: "script_object_unlinked",
        natives: 1000000,
        scripts: 1000000,
        bytes: 4294967295,
        script: b"script s0 0\ndrop s0\ncollect\n",
        transcript: b"= @1\n= ok\n- unlink @1\n= ok\n",
        verdict: Verdict::Unlawful,
        told: b"line 3, answer to line 3 (collect): @1 is unlinked, and this command may not unlink it\n",
    },
    // The numbers that a slice unlinks rise.
    Example {
        name: "numbers_fall",
        natives: 1000000,
        scripts: 1000000,
        bytes: 4294967295,
        script: b"native n0 1\nset n0 0 n0\nnative n0 1\nset n0 0 n0\ndrop n0\nslice 9\n",
        transcript: b"= #1\n= ok\n= #2\n= ok\n= ok\n- unlink #2\n- unlink #1\n- free #1\n- free #2\n= ok\n",
        verdict: Verdict::Unlawful,
        told: b"line 7, answer to line 6 (slice 9): #1 is unlinked, and its number does not rise\n",
    },
    // The numbers that collect unlinks rise at most twice.
    Example {
        name: "three_rising_runs",
        natives: 1000000,
        scripts: 1000000,
        bytes: 4294967295,
        script: b"native n0 1\nset n0 0 n0\nnative n0 1\nset n0 0 n0\nnative n0 1\nset n0 0 n0\ndrop n0\ncollect\n",
        transcript: b"= #1\n= ok\n= #2\n= ok\n= #3\n= ok\n= ok\n- unlink #3\n- unlink #2\n- unlink #1\n- free #1\n- free #2\n- free #3\n= ok\n",
        verdict: Verdict::Unlawful,
        told: b"line 10, answer to line 8 (collect): #1 is unlinked, and its number does not rise\n",
    },
    // A refused line has no events.
    Example {
        name: "event_of_a_refused_line",
        natives: 1000000,
        scripts: 1000000,
        bytes: 4294967295,
        script: b"native n0 0\ndrop n0\nget n1 n0 0\n",
        transcript: b"= #1\n= ok\n- free #1\n! empty\n",
        verdict: Verdict::Unlawful,
        told: b"line 3, answer to line 3 (get n1 n0 0): an event, but the command is refused: ! empty\n",
    },
    // Natives are listed first.
    Example {
        name: "census_in_another_order",
        natives: 1000000,
        scripts: 1000000,
        bytes: 4294967295,
        script: b"script s0 0\nnative n0 0\ncensus\n",
        transcript: b"= @1\n= #1\n+ @1\n+ #1\n= census 2\n",
        verdict: Verdict::Unlawful,
        told: b"line 3, answer to line 3 (census): the census lists #1 here\n",
    },
    // Natives are listed in the order in which they were made.
    Example {
        name: "census_by_falling_numbers",
        natives: 1000000,
        scripts: 1000000,
        bytes: 4294967295,
        script: b"native n0 0\nnative n1 0\ncensus\n",
        transcript: b"= #1\n= #2\n+ #2\n+ #1\n= census 2\n",
        verdict: Verdict::Unlawful,
        told: b"line 3, answer to line 3 (census): the census lists #1 here\n",
    },
    // What was freed is not listed.
    Example {
        name: "census_with_one_name_more",
        natives: 1000000,
        scripts: 1000000,
        bytes: 4294967295,
        script: b"native n0 0\ndrop n0\ncensus\n",
        transcript: b"= #1\n- free #1\n= ok\n+ #1\n= census 1\n",
        verdict: Verdict::Unlawful,
        told: b"line 4, answer to line 3 (census): the answer ends here: = census 0\n",
    },
    // What was not freed is listed.
    Example {
        name: "census_with_one_name_less",
        natives: 1000000,
        scripts: 1000000,
        bytes: 4294967295,
        script: b"native n0 0\nnative n1 0\ncensus\n",
        transcript: b"= #1\n= #2\n+ #1\n= census 1\n",
        verdict: Verdict::Unlawful,
        told: b"line 4, answer to line 3 (census): the census lists #2 here\n",
    },
    // The number of a census is that of its names.
    Example {
        name: "census_with_another_number",
        natives: 1000000,
        scripts: 1000000,
        bytes: 4294967295,
        script: b"native n0 0\ncensus\n",
        transcript: b"= #1\n+ #1\n= census 2\n",
        verdict: Verdict::Unlawful,
        told: b"line 3, answer to line 2 (census): the answer ends here: = census 1\n",
    },
    // Behind gc, collect and gc the census lists exactly what is reached.
    Example {
        name: "census_that_keeps_garbage",
        natives: 1000000,
        scripts: 1000000,
        bytes: 4294967295,
        script: b"native n0 1\nset n0 0 n0\ndrop n0\ngc\ncollect\ngc\ncensus\n",
        transcript: b"= #1\n= ok\n= ok\n= ok\n= ok\n= ok\n+ #1\n= census 1\n",
        verdict: Verdict::Unlawful,
        told: b"line 6, answer to line 6 (gc): the census behind it lists exactly what is reached, but #1 is not\n",
    },
    // The same of a script object.
    Example {
        name: "census_that_keeps_a_script_object",
        natives: 1000000,
        scripts: 1000000,
        bytes: 4294967295,
        script: b"script s0 0\ndrop s0\ngc\ncollect\ngc\ncensus\n",
        transcript: b"= @1\n= ok\n= ok\n= ok\n= ok\n+ @1\n= census 1\n",
        verdict: Verdict::Unlawful,
        told: b"line 5, answer to line 5 (gc): the census behind it lists exactly what is reached, but @1 is not\n",
    },
    // A command that takes no memory is not refused it.
    Example {
        name: "drop_refused_memory",
        natives: 1000000,
        scripts: 1000000,
        bytes: 4294967295,
        script: b"native n0 0\ndrop n0\n",
        transcript: b"= #1\n! nomem\n",
        verdict: Verdict::Unlawful,
        told: b"line 2, answer to line 2 (drop n0): the reply is = ok\n",
    },
    // Gc is never refused memory.
    Example {
        name: "gc_refused_memory",
        natives: 1000000,
        scripts: 1000000,
        bytes: 4294967295,
        script: b"gc\n",
        transcript: b"! nomem\n",
        verdict: Verdict::Unlawful,
        told: b"line 1, answer to line 1 (gc): the reply is = ok\n",
    },
    // A command that is refused for another cause is not refused memory.
    Example {
        name: "refused_line_refused_memory",
        natives: 1,
        scripts: 1000000,
        bytes: 4294967295,
        script: b"native n0 0\nnative n1 0\n",
        transcript: b"= #1\n! nomem\n",
        verdict: Verdict::Unlawful,
        told: b"line 2, answer to line 2 (native n1 0): the reply is ! full\n",
    },
    // An entry that is there takes no memory.
    Example {
        name: "set_entry_refused_memory",
        natives: 1000000,
        scripts: 1000000,
        bytes: 4294967295,
        script: b"weakmap s0\nscript s1 0\nwset s0 s1 s1\nwset s0 s1 s1\n",
        transcript: b"= @1\n= @2\n= ok\n! nomem\n",
        verdict: Verdict::Unlawful,
        told: b"line 4, answer to line 4 (wset s0 s1 s1): the reply is = ok\n",
    },
];

#[test]
fn transcripts_are_judged(rt: HostRuntime) {
    are_judged(&rt, &EXAMPLES);
}
