//! Some transcripts, whether they are lawful, and else where they are not, and why.
//!
//! Made by tools/worked_examples.py from examples/verdicts.txt.

use crate::example::{Example, are_judged};
use cc_check::Verdict;

const EXAMPLES: [Example; 20] = [
    // An object does not follow from itself.
    Example {
        name: "follows_from_itself",
        natives: 1000000,
        scripts: 1000000,
        bytes: 4294967295,
        script: b"version 2\nnative n0 1\nset n0 0 n0\ndrop n0\nwhy #1\n",
        transcript: b"= ok\n= #1\n= ok\n= ok\n: #1 #1\n= ok\n",
        verdict: Verdict::Unlawful,
        told: b"line 5, answer to line 5 (why #1): the answer ends here: = none\n",
    },
    // The value of an entry follows from its map and its key, in this order.
    Example {
        name: "key_is_told_for_the_map",
        natives: 1000000,
        scripts: 1000000,
        bytes: 4294967295,
        script: b"version 2\nweakmap s0\nscript s1 0\nscript s2 0\nwset s0 s1 s2\ndrop s2\nwhy @3\n",
        transcript: b"= ok\n= @1\n= @2\n= @3\n= ok\n= ok\n: @1 s0\n: @2 s1\n: @3 @2 @1\n= ok\n",
        verdict: Verdict::Unlawful,
        told: b"line 9, answer to line 7 (why @3): the step here is : @3 @1 @2\n",
    },
    // The value of an entry does not follow from its map alone.
    Example {
        name: "value_follows_from_its_map",
        natives: 1000000,
        scripts: 1000000,
        bytes: 4294967295,
        script: b"version 2\nweakmap s0\nscript s1 0\nscript s2 0\nwset s0 s1 s2\ndrop s2\nwhy @3\n",
        transcript: b"= ok\n= @1\n= @2\n= @3\n= ok\n= ok\n: @1 s0\n: @3 @1\n= ok\n",
        verdict: Verdict::Unlawful,
        told: b"line 8, answer to line 7 (why @3): the step here is : @2 s1\n",
    },
    // The value of an entry does not follow where no register reaches its key.
    Example {
        name: "value_follows_without_its_key",
        natives: 1000000,
        scripts: 1000000,
        bytes: 4294967295,
        script: b"version 2\nweakmap s0\nscript s1 0\nscript s2 0\nwset s0 s1 s2\ndrop s1\ndrop s2\nwhy @3\n",
        transcript: b"= ok\n= @1\n= @2\n= @3\n= ok\n= ok\n= ok\n: @1 s0\n: @3 @1 @2\n= ok\n",
        verdict: Verdict::Unlawful,
        told: b"line 8, answer to line 8 (why @3): the answer ends here: = none\n",
    },
    // The key of an entry does not follow from its value.
    Example {
        name: "proxy_key_follows_from_its_value",
        natives: 1000000,
        scripts: 1000000,
        bytes: 4294967295,
        script: b"version 2\nweakmap s0\nscript s1 0\nproxy s2 s1\nscript s3 0\nwset s0 s2 s3\ndrop s1\ndrop s2\nwhy @3\n",
        transcript: b"= ok\n= @1\n= @2\n= @3\n= @4\n= ok\n= ok\n= ok\n: @1 s0\n: @4 s3\n: @3 @1 @4\n= ok\n",
        verdict: Verdict::Unlawful,
        told: b"line 9, answer to line 9 (why @3): the answer ends here: = none\n",
    },
    // What a register reaches follows from something.
    Example {
        name: "reached_object_follows_from_nothing",
        natives: 1000000,
        scripts: 1000000,
        bytes: 4294967295,
        script: b"version 2\nnative n0 1\nnative n1 0\nset n0 0 n1\ndrop n1\nwhy #2\n",
        transcript: b"= ok\n= #1\n= #2\n= ok\n= ok\n= none\n",
        verdict: Verdict::Unlawful,
        told: b"line 6, answer to line 6 (why #2): the step here is : #1 n0\n",
    },
    // The reply behind the last step of a path says that it is done.
    Example {
        name: "path_to_nothing",
        natives: 1000000,
        scripts: 1000000,
        bytes: 4294967295,
        script: b"version 2\nnative n0 1\nnative n1 0\nset n0 0 n1\ndrop n1\nwhy #2\n",
        transcript: b"= ok\n= #1\n= #2\n= ok\n= ok\n: #1 n0\n: #2 #1\n= none\n",
        verdict: Verdict::Unlawful,
        told: b"line 8, answer to line 6 (why #2): the answer ends here: = ok\n",
    },
    // What no register reaches follows from nothing, though it is there.
    Example {
        name: "unreached_object_is_found",
        natives: 1000000,
        scripts: 1000000,
        bytes: 4294967295,
        script: b"version 2\nnative n0 1\nset n0 0 n0\ndrop n0\nwhy #1\n",
        transcript: b"= ok\n= #1\n= ok\n= ok\n= ok\n",
        verdict: Verdict::Unlawful,
        told: b"line 5, answer to line 5 (why #1): the answer ends here: = none\n",
    },
    // A reflector that was swept follows from nothing.
    Example {
        name: "swept_reflector_is_found",
        natives: 1000000,
        scripts: 1000000,
        bytes: 4294967295,
        script: b"version 2\nnative n0 0\nwrap s0 n0\ndrop s0\ngc\nwhy ~1\n",
        transcript: b"= ok\n= #1\n= ~1\n= ok\n- free ~1\n= ok\n: #1 n0\n: ~1 #1\n= ok\n",
        verdict: Verdict::Unlawful,
        told: b"line 7, answer to line 6 (why ~1): the answer ends here: = none\n",
    },
    // What was never made follows from nothing, and is no empty register.
    Example {
        name: "name_never_made_is_refused",
        natives: 1000000,
        scripts: 1000000,
        bytes: 4294967295,
        script: b"version 2\nwhy #1\n",
        transcript: b"= ok\n! empty\n",
        verdict: Verdict::Unlawful,
        told: b"line 2, answer to line 2 (why #1): the answer ends here: = none\n",
    },
    // Why tells the steps to an object, and not the object itself.
    Example {
        name: "why_answers_with_a_name",
        natives: 1000000,
        scripts: 1000000,
        bytes: 4294967295,
        script: b"version 2\nnative n0 0\nwhy #1\n",
        transcript: b"= ok\n= #1\n= #1\n",
        verdict: Verdict::Unlawful,
        told: b"line 3, answer to line 3 (why #1): the step here is : #1 n0\n",
    },
    // A path has a reply behind its last step.
    Example {
        name: "path_without_a_reply",
        natives: 1000000,
        scripts: 1000000,
        bytes: 4294967295,
        script: b"version 2\nnative n0 0\nwhy #1\n",
        transcript: b"= ok\n= #1\n: #1 n0\n",
        verdict: Verdict::Unlawful,
        told: b"end: a lawful transcript goes on\n",
    },
    // No step is told where why is refused memory.
    Example {
        name: "path_without_memory",
        natives: 1000000,
        scripts: 1000000,
        bytes: 4294967295,
        script: b"version 2\nnative n0 1\nnative n1 0\nset n0 0 n1\ndrop n1\nwhy #2\n",
        transcript: b"= ok\n= #1\n= #2\n= ok\n= ok\n: #1 n0\n: #2 #1\n! nomem\n",
        verdict: Verdict::Unlawful,
        told: b"line 8, answer to line 6 (why #2): the answer ends here: = ok\n",
    },
    // Names are listed by a census alone.
    Example {
        name: "names_listed_by_why",
        natives: 1000000,
        scripts: 1000000,
        bytes: 4294967295,
        script: b"version 2\nnative n0 0\nwhy #1\n",
        transcript: b"= ok\n= #1\n+ #1\n= ok\n",
        verdict: Verdict::Unlawful,
        told: b"line 3, answer to line 3 (why #1): the step here is : #1 n0\n",
    },
    // Steps are told by why alone.
    Example {
        name: "step_told_by_a_drop",
        natives: 1000000,
        scripts: 1000000,
        bytes: 4294967295,
        script: b"native n0 0\ndrop n1\n",
        transcript: b"= #1\n: #1 n0\n= ok\n",
        verdict: Verdict::Unlawful,
        told: b"line 2, answer to line 2 (drop n1): the reply is = ok\n",
    },
    // A census tells no steps.
    Example {
        name: "step_told_by_a_census",
        natives: 1000000,
        scripts: 1000000,
        bytes: 4294967295,
        script: b"native n0 0\ncensus\n",
        transcript: b"= #1\n+ #1\n: #1 n0\n= census 1\n",
        verdict: Verdict::Unlawful,
        told: b"line 3, answer to line 2 (census): the answer ends here: = census 1\n",
    },
    // A line that asks nothing tells no steps.
    Example {
        name: "step_under_a_blank_line",
        natives: 1000000,
        scripts: 1000000,
        bytes: 4294967295,
        script: b"native n0 0\n\n",
        transcript: b"= #1\n: #1 n0\n",
        verdict: Verdict::Unlawful,
        told: b"line 2: nothing is asked any more\n",
    },
    // A line that is not in the grammar tells no steps.
    Example {
        name: "step_under_a_bad_line",
        natives: 1000000,
        scripts: 1000000,
        bytes: 4294967295,
        script: b"version 2\nnative n0 0\nwhy n0\n",
        transcript: b"= ok\n= #1\n: #1 n0\n! line\n",
        verdict: Verdict::Unlawful,
        told: b"line 3, answer to line 3 (why n0): the answer ends here: ! line\n",
    },
    // Number 0 is in no name.
    Example {
        name: "number_zero_follows_from_nothing",
        natives: 1000000,
        scripts: 1000000,
        bytes: 4294967295,
        script: b"version 2\nwhy #0\n",
        transcript: b"= ok\n= none\n",
        verdict: Verdict::Unlawful,
        told: b"line 2, answer to line 2 (why #0): the answer ends here: ! line\n",
    },
    // Version 2 has the word why.
    Example {
        name: "path_is_refused_in_version_two",
        natives: 1000000,
        scripts: 1000000,
        bytes: 4294967295,
        script: b"version 2\nnative n0 0\nwhy #1\n",
        transcript: b"= ok\n= #1\n! line\n",
        verdict: Verdict::Unlawful,
        told: b"line 3, answer to line 3 (why #1): the step here is : #1 n0\n",
    },
];

#[test]
fn transcripts_are_judged(rt: HostRuntime) {
    are_judged(&rt, &EXAMPLES);
}
