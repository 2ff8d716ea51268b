//! Some transcripts, whether they are lawful, and else where they are not, and why.
//!
//! Made by tools/worked_examples.py from examples/verdicts.txt.

use crate::example::{Example, are_judged};
use cc_check::Verdict;

const EXAMPLES: [Example; 20] = [
    // A reflector that is listed takes no memory.
    Example {
        name: "wrap_refused_memory",
        natives: 1000000,
        scripts: 1000000,
        bytes: 4294967295,
        script: b"native n0 0\nwrap s0 n0\nwrap s1 n0\n",
        transcript: b"= #1\n= ~1\n! nomem\n",
        verdict: Verdict::Unlawful,
        told: b"line 3, answer to line 3 (wrap s1 n0): the reply is = ~1\n",
    },
    // A collection that is refused memory is abandoned.
    Example {
        name: "collection_refused_without_abandonment",
        natives: 1000000,
        scripts: 1000000,
        bytes: 4294967295,
        script: b"native n0 0\ncollect\n",
        transcript: b"= #1\n! nomem\n",
        verdict: Verdict::Unlawful,
        told: b"line 2, answer to line 2 (collect): the reply is = ok\n",
    },
    // A collection that is abandoned was refused memory.
    Example {
        name: "abandoned_without_want_of_memory",
        natives: 1000000,
        scripts: 1000000,
        bytes: 4294967295,
        script: b"native n0 0\ncollect\n",
        transcript: b"= #1\n- abandon\n= ok\n",
        verdict: Verdict::Unlawful,
        told: b"line 3, answer to line 2 (collect): the reply is ! nomem\n",
    },
    // An abandonment is the last event of a collection.
    Example {
        name: "event_behind_an_abandonment",
        natives: 1000000,
        scripts: 1000000,
        bytes: 4294967295,
        script: b"native n0 1\nset n0 0 n0\ndrop n0\ncollect\n",
        transcript: b"= #1\n= ok\n= ok\n- abandon\n- unlink #1\n! nomem\n",
        verdict: Verdict::Unlawful,
        told: b"line 5, answer to line 4 (collect): #1 is unlinked behind an abandonment\n",
    },
    // An abandonment is the first event of gc.
    Example {
        name: "abandoned_behind_an_event_of_gc",
        natives: 1000000,
        scripts: 1000000,
        bytes: 4294967295,
        script: b"script s0 0\ndrop s0\ngc\n",
        transcript: b"= @1\n= ok\n- free @1\n- abandon\n= ok\n",
        verdict: Verdict::Unlawful,
        told: b"line 4, answer to line 3 (gc): an abandonment behind another event\n",
    },
    // A collection is abandoned once.
    Example {
        name: "abandoned_twice",
        natives: 1000000,
        scripts: 1000000,
        bytes: 4294967295,
        script: b"collect\n",
        transcript: b"- abandon\n- abandon\n! nomem\n",
        verdict: Verdict::Unlawful,
        told: b"line 2, answer to line 1 (collect): an abandonment behind another event\n",
    },
    // No other command abandons a collection.
    Example {
        name: "abandoned_by_a_command",
        natives: 1000000,
        scripts: 1000000,
        bytes: 4294967295,
        script: b"native n0 0\n",
        transcript: b"- abandon\n= #1\n",
        verdict: Verdict::Unlawful,
        told: b"line 1, answer to line 1 (native n0 0): a collection is abandoned, and this command may not abandon one\n",
    },
    // A path has each step that it needs.
    Example {
        name: "path_with_a_step_less",
        natives: 1000000,
        scripts: 1000000,
        bytes: 4294967295,
        script: b"version 2\nnative n0 1\nnative n1 0\nset n0 0 n1\ndrop n1\nwhy #2\n",
        transcript: b"= ok\n= #1\n= #2\n= ok\n= ok\n: #2 #1\n= ok\n",
        verdict: Verdict::Unlawful,
        told: b"line 6, answer to line 6 (why #2): the step here is : #1 n0\n",
    },
    // A path begins at the first register.
    Example {
        name: "path_by_another_register",
        natives: 1000000,
        scripts: 1000000,
        bytes: 4294967295,
        script: b"version 2\nnative n0 0\ncopy n1 n0\nwhy #1\n",
        transcript: b"= ok\n= #1\n= #1\n: #1 n1\n= ok\n",
        verdict: Verdict::Unlawful,
        told: b"line 4, answer to line 4 (why #1): the step here is : #1 n0\n",
    },
    // That nothing leads there is wrong where something does.
    Example {
        name: "none_where_it_is_reached",
        natives: 1000000,
        scripts: 1000000,
        bytes: 4294967295,
        script: b"version 2\nnative n0 0\nwhy #1\n",
        transcript: b"= ok\n= #1\n= none\n",
        verdict: Verdict::Unlawful,
        told: b"line 3, answer to line 3 (why #1): the step here is : #1 n0\n",
    },
    // A word of version 2 is not in the grammar of version 1.
    Example {
        name: "why_in_version_one",
        natives: 1000000,
        scripts: 1000000,
        bytes: 4294967295,
        script: b"native n0 0\nwhy #1\n",
        transcript: b"= #1\n: #1 n0\n= ok\n",
        verdict: Verdict::Unlawful,
        told: b"line 2, answer to line 2 (why #1): the answer ends here: ! line\n",
    },
    // The line of the script is counted with the blank lines and comments before it.
    Example {
        name: "lines_of_the_script_are_all_counted",
        natives: 1000000,
        scripts: 1000000,
        bytes: 4294967295,
        script: b"\n% a comment\nnative n0 0\n\ndrop n0\n\n",
        transcript: b"= #1\n= #1\n",
        verdict: Verdict::Unlawful,
        told: b"line 2, answer to line 5 (drop n0): the reply is = ok\n",
    },
    // Nothing is freed behind the abandonment of a collection.
    Example {
        name: "freed_behind_an_abandonment",
        natives: 1000000,
        scripts: 1000000,
        bytes: 4294967295,
        script: b"native n0 1\nset n0 0 n0\ndrop n0\ncollect\n",
        transcript: b"= #1\n= ok\n= ok\n- abandon\n- free #1\n! nomem\n",
        verdict: Verdict::Unlawful,
        told: b"line 5, answer to line 4 (collect): #1 is freed behind an abandonment\n",
    },
    // What was freed may not be unlinked.
    Example {
        name: "unlinked_behind_its_free",
        natives: 1000000,
        scripts: 1000000,
        bytes: 4294967295,
        script: b"native n0 1\nset n0 0 n0\ndrop n0\ncollect\n",
        transcript: b"= #1\n= ok\n= ok\n- free #1\n- unlink #1\n= ok\n",
        verdict: Verdict::Unlawful,
        told: b"line 5, answer to line 4 (collect): #1 is unlinked, but it is not there any more, or never was\n",
    },
    // A transcript that leaves out the answer to the only command is wrong.
    Example {
        name: "missing_answer",
        natives: 1000000,
        scripts: 1000000,
        bytes: 4294967295,
        script: b"drop n0\n",
        transcript: b"",
        verdict: Verdict::Unlawful,
        told: b"end: a lawful transcript goes on\n",
    },
    // Names are listed by a census alone.
    Example {
        name: "names_listed_by_a_drop",
        natives: 1000000,
        scripts: 1000000,
        bytes: 4294967295,
        script: b"native n0 0\ndrop n0\n",
        transcript: b"= #1\n+ #1\n= ok\n",
        verdict: Verdict::Unlawful,
        told: b"line 2, answer to line 2 (drop n0): the reply is = ok\n",
    },
    // A line of more than 120 bytes is answered as a long one, and not as one outside the grammar.
    Example {
        name: "long_line_called_bad",
        natives: 1000000,
        scripts: 1000000,
        bytes: 4294967295,
        script: b"aaaaaaaaaaaaaaaaaaaaaaaaaaaaaaaaaaaaaaaaaaaaaaaaaaaaaaaaaaaaaaaaaaaaaaaaaaaaaaaaaaaaaaaaaaaaaaaaaaaaaaaaaaaaaaaaaaaaaaaaa\n",
        transcript: b"! line\n",
        verdict: Verdict::Unlawful,
        told: b"line 1, answer to line 1: the answer ends here: ! long\n",
    },
    // A line that is not in the grammar is answered as such, and not as a long one.
    Example {
        name: "bad_line_called_long",
        natives: 1000000,
        scripts: 1000000,
        bytes: 4294967295,
        script: b"dorp n0\n",
        transcript: b"! long\n",
        verdict: Verdict::Unlawful,
        told: b"line 1, answer to line 1 (dorp n0): the answer ends here: ! line\n",
    },
    // A line of more than 120 bytes has no events.
    Example {
        name: "event_under_a_long_line",
        natives: 1000000,
        scripts: 1000000,
        bytes: 4294967295,
        script: b"aaaaaaaaaaaaaaaaaaaaaaaaaaaaaaaaaaaaaaaaaaaaaaaaaaaaaaaaaaaaaaaaaaaaaaaaaaaaaaaaaaaaaaaaaaaaaaaaaaaaaaaaaaaaaaaaaaaaaaaaa\n",
        transcript: b"- abandon\n! long\n",
        verdict: Verdict::Unlawful,
        told: b"line 1, answer to line 1: the answer ends here: ! long\n",
    },
    // A line that is not in the grammar has no events.
    Example {
        name: "event_under_a_bad_line",
        natives: 1000000,
        scripts: 1000000,
        bytes: 4294967295,
        script: b"dorp n0\n",
        transcript: b"- abandon\n! line\n",
        verdict: Verdict::Unlawful,
        told: b"line 1, answer to line 1 (dorp n0): the answer ends here: ! line\n",
    },
];

#[test]
fn transcripts_are_judged(rt: HostRuntime) {
    are_judged(&rt, &EXAMPLES);
}
