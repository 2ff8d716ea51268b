//! Some transcripts, whether they are lawful, and else where they are not, and why.
//!
//! Made by tools/worked_examples.py from examples/verdicts.txt.

use crate::example::{Example, are_judged};
use cc_check::Verdict;

const EXAMPLES: [Example; 20] = [
    // A reply with a space behind it is wrong.
    Example {
        name: "line_has_a_space_more",
        natives: 1000000,
        scripts: 1000000,
        bytes: 4294967295,
        script: b"native n0 0\n",
        transcript: b"= #1 \n",
        verdict: Verdict::Unlawful,
        told: b"line 1, answer to line 1 (native n0 0): the reply is = #1\n",
    },
    // A reply with a space before it is wrong.
    Example {
        name: "space_before_a_line",
        natives: 1000000,
        scripts: 1000000,
        bytes: 4294967295,
        script: b"native n0 0\n",
        transcript: b" = #1\n",
        verdict: Verdict::Unlawful,
        told: b"line 1, answer to line 1 (native n0 0): no line of an answer\n",
    },
    // Each line of a transcript ends with a line feed, the last too.
    Example {
        name: "last_line_has_no_line_feed",
        natives: 1000000,
        scripts: 1000000,
        bytes: 4294967295,
        script: b"native n0 0\n",
        transcript: b"= #1",
        verdict: Verdict::Unlawful,
        told: b"end: a lawful transcript goes on\n",
    },
    // No carriage return is dropped in a transcript.
    Example {
        name: "line_ends_with_a_carriage_return",
        natives: 1000000,
        scripts: 1000000,
        bytes: 4294967295,
        script: b"native n0 0\n",
        transcript: b"= #1\r\n",
        verdict: Verdict::Unlawful,
        told: b"line 1, answer to line 1 (native n0 0): the reply is = #1\n",
    },
    // A blank line is no answer.
    Example {
        name: "blank_line_in_a_transcript",
        natives: 1000000,
        scripts: 1000000,
        bytes: 4294967295,
        script: b"native n0 0\n",
        transcript: b"\n= #1\n",
        verdict: Verdict::Unlawful,
        told: b"line 1, answer to line 1 (native n0 0): no line of an answer\n",
    },
    // The reply of another command is wrong.
    Example {
        name: "reply_of_another_command",
        natives: 1000000,
        scripts: 1000000,
        bytes: 4294967295,
        script: b"native n0 0\ndrop n0\n",
        transcript: b"= #1\n= #1\n",
        verdict: Verdict::Unlawful,
        told: b"line 2, answer to line 2 (drop n0): the reply is = ok\n",
    },
    // That nothing is there is wrong where something is.
    Example {
        name: "none_for_a_name",
        natives: 1000000,
        scripts: 1000000,
        bytes: 4294967295,
        script: b"native n0 0\ncopy n1 n0\n",
        transcript: b"= #1\n= none\n",
        verdict: Verdict::Unlawful,
        told: b"line 2, answer to line 2 (copy n1 n0): the reply is = #1\n",
    },
    // A line of more than 120 bytes is none.
    Example {
        name: "long_line_in_a_transcript",
        natives: 1000000,
        scripts: 1000000,
        bytes: 4294967295,
        script: b"native n0 0\n",
        transcript: b"aaaaaaaaaaaaaaaaaaaaaaaaaaaaaaaaaaaaaaaaaaaaaaaaaaaaaaaaaaaaaaaaaaaaaaaaaaaaaaaaaaaaaaaaaaaaaaaaaaaaaaaaaaaaaaaaaaaaaaaaa\n",
        verdict: Verdict::Unlawful,
        told: b"line 1, answer to line 1 (native n0 0): no line of an answer\n",
    },
    // A line of more than 120 bytes of the script has an answer.
    Example {
        name: "nothing_for_a_line_that_is_long",
        natives: 1000000,
        scripts: 1000000,
        bytes: 4294967295,
        script: b"aaaaaaaaaaaaaaaaaaaaaaaaaaaaaaaaaaaaaaaaaaaaaaaaaaaaaaaaaaaaaaaaaaaaaaaaaaaaaaaaaaaaaaaaaaaaaaaaaaaaaaaaaaaaaaaaaaaaaaaaa\nnative n0 0\n",
        transcript: b"= #1\n",
        verdict: Verdict::Unlawful,
        told: b"line 1, answer to line 1: the answer ends here: ! long\n",
    },
    // Nothing may come behind the answer to the last line.
    Example {
        name: "text_after_the_last_reply",
        natives: 1000000,
        scripts: 1000000,
        bytes: 4294967295,
        script: b"native n0 0\n",
        transcript: b"= #1\n= ok\n",
        verdict: Verdict::Unlawful,
        told: b"line 2: nothing is asked any more\n",
    },
    // A transcript of an empty script is empty.
    Example {
        name: "answer_to_nothing",
        natives: 1000000,
        scripts: 1000000,
        bytes: 4294967295,
        script: b"",
        transcript: b"= ok\n",
        verdict: Verdict::Unlawful,
        told: b"line 1: nothing is asked any more\n",
    },
    // A name's number has no leading zero.
    Example {
        name: "name_with_a_leading_zero",
        natives: 1000000,
        scripts: 1000000,
        bytes: 4294967295,
        script: b"native n0 0\ndrop n0\n",
        transcript: b"= #1\n- free #01\n= ok\n",
        verdict: Verdict::Unlawful,
        told: b"line 2, answer to line 2 (drop n0): no line of an answer\n",
    },
    // A name's number has no sign.
    Example {
        name: "name_with_a_sign",
        natives: 1000000,
        scripts: 1000000,
        bytes: 4294967295,
        script: b"native n0 0\ndrop n0\n",
        transcript: b"= #1\n- free #+1\n= ok\n",
        verdict: Verdict::Unlawful,
        told: b"line 2, answer to line 2 (drop n0): no line of an answer\n",
    },
    // A name has a number.
    Example {
        name: "name_without_a_number",
        natives: 1000000,
        scripts: 1000000,
        bytes: 4294967295,
        script: b"native n0 0\ndrop n0\n",
        transcript: b"= #1\n- free #\n= ok\n",
        verdict: Verdict::Unlawful,
        told: b"line 2, answer to line 2 (drop n0): no line of an answer\n",
    },
    // A number is never used again.
    Example {
        name: "number_used_again",
        natives: 1000000,
        scripts: 1000000,
        bytes: 4294967295,
        script: b"native n0 0\ndrop n0\nnative n0 0\n",
        transcript: b"= #1\n- free #1\n= ok\n= #1\n",
        verdict: Verdict::Unlawful,
        told: b"line 4, answer to line 3 (native n0 0): the reply is = #2\n",
    },
    // What a register reaches may not be freed.
    Example {
        name: "reached_native_is_freed",
        natives: 1000000,
        scripts: 1000000,
        bytes: 4294967295,
        script: b"native n0 1\nnative n1 0\nset n0 0 n1\ndrop n1\n",
        transcript: b"= #1\n= #2\n= ok\n- free #2\n= ok\n",
        verdict: Verdict::Unlawful,
        told: b"line 4, answer to line 4 (drop n1): #2 is freed, but n0 leads to it: n0 #1, #1 #2\n",
    },
    // What a register reaches may not be unlinked.
    Example {
        name: "reached_native_is_unlinked",
        natives: 1000000,
        scripts: 1000000,
        bytes: 4294967295,
        script: b"native n0 0\ncollect\n",
        transcript: b"= #1\n- unlink #1\n= ok\n",
        verdict: Verdict::Unlawful,
        told: b"line 2, answer to line 2 (collect): #1 is unlinked, but n0 leads to it: n0 #1\n",
    },
    // The value of an entry whose map and key are reached may not be freed.
    Example {
        name: "reached_over_an_entry_is_freed",
        natives: 1000000,
        scripts: 1000000,
        bytes: 4294967295,
        script: b"weakmap s0\nscript s1 0\nscript s2 0\nwset s0 s1 s2\ndrop s2\ngc\n",
        transcript: b"= @1\n= @2\n= @3\n= ok\n= ok\n- free @3\n= ok\n",
        verdict: Verdict::Unlawful,
        told: b"line 6, answer to line 6 (gc): @3 is freed, but s0 leads to it: s0 @1, s1 @2, @1 @2 @3\n",
    },
    // A key that is a proxy lives as long as the map and its delegate.
    Example {
        name: "reached_by_its_delegate_is_freed",
        natives: 1000000,
        scripts: 1000000,
        bytes: 4294967295,
        script: b"weakmap s0\nscript s1 0\nproxy s2 s1\nscript s3 0\nwset s0 s2 s3\ndrop s2\ndrop s3\ngc\n",
        transcript: b"= @1\n= @2\n= @3\n= @4\n= ok\n= ok\n= ok\n- free @3\n= ok\n",
        verdict: Verdict::Unlawful,
        told: b"line 8, answer to line 8 (gc): @3 is freed, but s0 leads to it: s0 @1, s1 @2, @1 @2 @3\n",
    },
    // What was freed may not be freed again.
    Example {
        name: "freed_twice",
        natives: 1000000,
        scripts: 1000000,
        bytes: 4294967295,
        script: b"native n0 0\ndrop n0\ngc\n",
        transcript: b"= #1\n- free #1\n= ok\n- free #1\n= ok\n",
        verdict: Verdict::Unlawful,
        told: b"line 4, answer to line 3 (gc): #1 is freed, but it is not there any more, or never was\n",
    },
];

#[test]
fn transcripts_are_judged(rt: HostRuntime) {
    are_judged(&rt, &EXAMPLES);
}
