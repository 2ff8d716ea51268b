//! Some transcripts, whether they are lawful, and else where they are not, and why.
//!
//! Made by tools/worked_examples.py from examples/verdicts.txt.

use crate::example::{Example, are_judged};
use cc_check::Verdict;

const EXAMPLES: [Example; 20] = [
    // A slice that is refused memory abandons its collection.
    Example {
        name: "refused_slice_abandons_nothing",
        natives: 1000000,
        scripts: 1000000,
        bytes: 4294967295,
        script: b"slice 1\n",
        transcript: b"! nomem\n",
        verdict: Verdict::Unlawful,
        told: b"line 1, answer to line 1 (slice 1): the reply is = ok\n",
    },
    // A collect that is refused memory abandons its collection.
    Example {
        name: "refused_collect_abandons_nothing",
        natives: 1000000,
        scripts: 1000000,
        bytes: 4294967295,
        script: b"collect\n",
        transcript: b"! nomem\n",
        verdict: Verdict::Unlawful,
        told: b"line 1, answer to line 1 (collect): the reply is = ok\n",
    },
    // A slice abandons a collection once at most.
    Example {
        name: "refused_slice_abandons_twice",
        natives: 1000000,
        scripts: 1000000,
        bytes: 4294967295,
        script: b"slice 1\n",
        transcript: b"- abandon\n- abandon\n! nomem\n",
        verdict: Verdict::Unlawful,
        told: b"line 2, answer to line 1 (slice 1): an abandonment behind another event\n",
    },
    // Nothing is freed behind the abandonment of a collection that was refused memory.
    Example {
        name: "freed_after_the_abandonment",
        natives: 1000000,
        scripts: 1000000,
        bytes: 4294967295,
        script: b"native n0 0\ndrop n0\ncollect\n",
        transcript: b"= #1\n= ok\n- abandon\n- free #1\n! nomem\n",
        verdict: Verdict::Unlawful,
        told: b"line 4, answer to line 3 (collect): #1 is freed behind an abandonment\n",
    },
    // No script object is freed behind the abandonment of a collection that was refused memory.
    Example {
        name: "script_object_is_freed_after_the_abandonment",
        natives: 1000000,
        scripts: 1000000,
        bytes: 4294967295,
        script: b"script s0 0\ndrop s0\nslice 1\n",
        transcript: b"= @1\n= ok\n- abandon\n- free @1\n! nomem\n",
        verdict: Verdict::Unlawful,
        told: b"line 4, answer to line 3 (slice 1): @1 is freed behind an abandonment\n",
    },
    // A slice that abandons its collection was refused memory.
    Example {
        name: "slice_abandons_and_is_done",
        natives: 1000000,
        scripts: 1000000,
        bytes: 4294967295,
        script: b"slice 1\n",
        transcript: b"- abandon\n= ok\n",
        verdict: Verdict::Unlawful,
        told: b"line 2, answer to line 1 (slice 1): the reply is ! nomem\n",
    },
    // A collect that is done abandons nothing.
    Example {
        name: "collect_abandons_and_is_done",
        natives: 1000000,
        scripts: 1000000,
        bytes: 4294967295,
        script: b"collect\n",
        transcript: b"- abandon\n= ok\n",
        verdict: Verdict::Unlawful,
        told: b"line 2, answer to line 1 (collect): the reply is ! nomem\n",
    },
    // Gc abandons no more than the one collection that runs.
    Example {
        name: "gc_abandons_twice",
        natives: 1000000,
        scripts: 1000000,
        bytes: 4294967295,
        script: b"gc\n",
        transcript: b"- abandon\n- abandon\n= ok\n",
        verdict: Verdict::Unlawful,
        told: b"line 2, answer to line 1 (gc): an abandonment behind another event\n",
    },
    // A drop abandons no collection.
    Example {
        name: "drop_abandons",
        natives: 1000000,
        scripts: 1000000,
        bytes: 4294967295,
        script: b"drop n0\n",
        transcript: b"- abandon\n= ok\n",
        verdict: Verdict::Unlawful,
        told: b"line 1, answer to line 1 (drop n0): a collection is abandoned, and this command may not abandon one\n",
    },
    // A step stands behind those that it follows from.
    Example {
        name: "steps_in_another_order",
        natives: 1000000,
        scripts: 1000000,
        bytes: 4294967295,
        script: b"version 2\nnative n0 1\nnative n1 0\nset n0 0 n1\ndrop n1\nwhy #2\n",
        transcript: b"= ok\n= #1\n= #2\n= ok\n= ok\n: #2 #1\n: #1 n0\n= ok\n",
        verdict: Verdict::Unlawful,
        told: b"line 6, answer to line 6 (why #2): the step here is : #1 n0\n",
    },
    // Each step stands behind those that were found before it, also where it does not follow from them.
    Example {
        name: "members_in_another_order",
        natives: 1000000,
        scripts: 1000000,
        bytes: 4294967295,
        script: b"version 2\nweakmap s0\nscript s1 0\nscript s2 0\nwset s0 s1 s2\ndrop s2\nwhy @3\n",
        transcript: b"= ok\n= @1\n= @2\n= @3\n= ok\n= ok\n: @2 s1\n: @1 s0\n: @3 @1 @2\n= ok\n",
        verdict: Verdict::Unlawful,
        told: b"line 7, answer to line 7 (why @3): the step here is : @1 s0\n",
    },
    // A path ends at the object that is asked for.
    Example {
        name: "last_step_is_left_out",
        natives: 1000000,
        scripts: 1000000,
        bytes: 4294967295,
        script: b"version 2\nnative n0 1\nnative n1 0\nset n0 0 n1\ndrop n1\nwhy #2\n",
        transcript: b"= ok\n= #1\n= #2\n= ok\n= ok\n: #1 n0\n= ok\n",
        verdict: Verdict::Unlawful,
        told: b"line 7, answer to line 6 (why #2): the step here is : #2 #1\n",
    },
    // The value of an entry follows from its key too.
    Example {
        name: "step_of_the_key_is_left_out",
        natives: 1000000,
        scripts: 1000000,
        bytes: 4294967295,
        script: b"version 2\nweakmap s0\nscript s1 0\nscript s2 0\nwset s0 s1 s2\ndrop s2\nwhy @3\n",
        transcript: b"= ok\n= @1\n= @2\n= @3\n= ok\n= ok\n: @1 s0\n: @3 @1 @2\n= ok\n",
        verdict: Verdict::Unlawful,
        told: b"line 8, answer to line 7 (why @3): the step here is : @2 s1\n",
    },
    // A path to what is reached has steps.
    Example {
        name: "all_steps_are_left_out",
        natives: 1000000,
        scripts: 1000000,
        bytes: 4294967295,
        script: b"version 2\nnative n0 1\nnative n1 0\nset n0 0 n1\ndrop n1\nwhy #2\n",
        transcript: b"= ok\n= #1\n= #2\n= ok\n= ok\n= ok\n",
        verdict: Verdict::Unlawful,
        told: b"line 6, answer to line 6 (why #2): the step here is : #1 n0\n",
    },
    // Nothing stands behind the step of the object that is asked for.
    Example {
        name: "step_goes_on",
        natives: 1000000,
        scripts: 1000000,
        bytes: 4294967295,
        script: b"version 2\nnative n0 1\nnative n1 0\nset n0 0 n1\ndrop n1\nwhy #1\n",
        transcript: b"= ok\n= #1\n= #2\n= ok\n= ok\n: #1 n0\n: #2 #1\n= ok\n",
        verdict: Verdict::Unlawful,
        told: b"line 7, answer to line 6 (why #1): the answer ends here: = ok\n",
    },
    // A path has no step that it does not need.
    Example {
        name: "step_leads_elsewhere",
        natives: 1000000,
        scripts: 1000000,
        bytes: 4294967295,
        script: b"version 2\nnative n0 0\nnative n1 0\nwhy #2\n",
        transcript: b"= ok\n= #1\n= #2\n: #1 n0\n: #2 n1\n= ok\n",
        verdict: Verdict::Unlawful,
        told: b"line 4, answer to line 4 (why #2): the step here is : #2 n1\n",
    },
    // A step is told once.
    Example {
        name: "step_is_told_twice",
        natives: 1000000,
        scripts: 1000000,
        bytes: 4294967295,
        script: b"version 2\nnative n0 1\nnative n1 0\nset n0 0 n1\ndrop n1\nwhy #2\n",
        transcript: b"= ok\n= #1\n= #2\n= ok\n= ok\n: #1 n0\n: #1 n0\n: #2 #1\n= ok\n",
        verdict: Verdict::Unlawful,
        told: b"line 7, answer to line 6 (why #2): the step here is : #2 #1\n",
    },
    // What some registers hold follows from the first of them.
    Example {
        name: "follows_from_the_second_register",
        natives: 1000000,
        scripts: 1000000,
        bytes: 4294967295,
        script: b"version 2\nnative n1 0\ncopy n0 n1\nwhy #1\n",
        transcript: b"= ok\n= #1\n= #1\n: #1 n1\n= ok\n",
        verdict: Verdict::Unlawful,
        told: b"line 4, answer to line 4 (why #1): the step here is : #1 n0\n",
    },
    // What a native register holds does not follow from the script register of the same number.
    Example {
        name: "follows_from_the_other_bank",
        natives: 1000000,
        scripts: 1000000,
        bytes: 4294967295,
        script: b"version 2\nnative n0 1\nnative n1 0\nset n0 0 n1\ndrop n1\nwhy #2\n",
        transcript: b"= ok\n= #1\n= #2\n= ok\n= ok\n: #1 s0\n: #2 #1\n= ok\n",
        verdict: Verdict::Unlawful,
        told: b"line 6, answer to line 6 (why #2): the step here is : #1 n0\n",
    },
    // What some objects hold follows from the one that was found first.
    Example {
        name: "follows_from_the_second_holder",
        natives: 1000000,
        scripts: 1000000,
        bytes: 4294967295,
        script: b"version 2\nnative n0 1\nnative n1 1\nnative n2 0\nset n0 0 n2\nset n1 0 n2\ndrop n2\nwhy #3\n",
        transcript: b"= ok\n= #1\n= #2\n= #3\n= ok\n= ok\n= ok\n: #2 n1\n: #3 #2\n= ok\n",
        verdict: Verdict::Unlawful,
        told: b"line 8, answer to line 8 (why #3): the step here is : #1 n0\n",
    },
];

#[test]
fn transcripts_are_judged(rt: HostRuntime) {
    are_judged(&rt, &EXAMPLES);
}
