//! Some transcripts, whether they are lawful, and else where they are not, and why.
//!
//! Made by tools/worked_examples.py from examples/verdicts.txt.

use crate::example::{Example, are_judged};
use cc_check::Verdict;

const EXAMPLES: [Example; 20] = [
    // A blank line has no answer.
    Example {
        name: "blank_line_is_answered",
        natives: 1000000,
        scripts: 1000000,
        bytes: 4294967295,
        script: b"\n",
        transcript: b"= ok\n",
        verdict: Verdict::Unlawful,
        told: b"line 1: nothing is asked any more\n",
    },
    // A comment has no answer.
    Example {
        name: "comment_is_answered",
        natives: 1000000,
        scripts: 1000000,
        bytes: 4294967295,
        script: b"% drop n0\n",
        transcript: b"= ok\n",
        verdict: Verdict::Unlawful,
        told: b"line 1: nothing is asked any more\n",
    },
    // A blank line has no events.
    Example {
        name: "event_under_a_blank_line",
        natives: 1000000,
        scripts: 1000000,
        bytes: 4294967295,
        script: b"\n",
        transcript: b"- abandon\n",
        verdict: Verdict::Unlawful,
        told: b"line 1: nothing is asked any more\n",
    },
    // A first line that asks for version 2 is in the grammar.
    Example {
        name: "version_two_is_refused",
        natives: 1000000,
        scripts: 1000000,
        bytes: 4294967295,
        script: b"version 2\n",
        transcript: b"! line\n",
        verdict: Verdict::Unlawful,
        told: b"line 1, answer to line 1 (version 2): the reply is = ok\n",
    },
    // A second line that asks for version 2 is not in the grammar.
    Example {
        name: "version_two_is_taken_twice",
        natives: 1000000,
        scripts: 1000000,
        bytes: 4294967295,
        script: b"version 2\nversion 2\n",
        transcript: b"= ok\n= ok\n",
        verdict: Verdict::Unlawful,
        told: b"line 2, answer to line 2 (version 2): the answer ends here: ! line\n",
    },
    // A script that begins with a long line is one of version 1.
    Example {
        name: "version_two_is_taken_behind_a_long_line",
        natives: 1000000,
        scripts: 1000000,
        bytes: 4294967295,
        script: b"aaaaaaaaaaaaaaaaaaaaaaaaaaaaaaaaaaaaaaaaaaaaaaaaaaaaaaaaaaaaaaaaaaaaaaaaaaaaaaaaaaaaaaaaaaaaaaaaaaaaaaaaaaaaaaaaaaaaaaaaa\nversion 2\n",
        transcript: b"! long\n= ok\n",
        verdict: Verdict::Unlawful,
        told: b"line 2, answer to line 2 (version 2): the answer ends here: ! line\n",
    },
    // Version 1 has no register 256.
    Example {
        name: "wide_register_is_taken_in_version_one",
        natives: 1000000,
        scripts: 1000000,
        bytes: 4294967295,
        script: b"native n256 0\n",
        transcript: b"= #1\n",
        verdict: Verdict::Unlawful,
        told: b"line 1, answer to line 1 (native n256 0): the answer ends here: ! line\n",
    },
    // Version 2 has a register 256.
    Example {
        name: "wide_register_is_refused_in_version_two",
        natives: 1000000,
        scripts: 1000000,
        bytes: 4294967295,
        script: b"version 2\nnative n256 0\n",
        transcript: b"= ok\n! line\n",
        verdict: Verdict::Unlawful,
        told: b"line 2, answer to line 2 (native n256 0): the reply is = #1\n",
    },
    // A native that is made is named.
    Example {
        name: "another_reply",
        natives: 1000000,
        scripts: 1000000,
        bytes: 4294967295,
        script: b"native n0 0\n",
        transcript: b"= ok\n",
        verdict: Verdict::Unlawful,
        told: b"line 1, answer to line 1 (native n0 0): the reply is = #1\n",
    },
    // Natives are numbered from 1 on, and no number is left out.
    Example {
        name: "number_left_out",
        natives: 1000000,
        scripts: 1000000,
        bytes: 4294967295,
        script: b"native n0 0\n",
        transcript: b"= #2\n",
        verdict: Verdict::Unlawful,
        told: b"line 1, answer to line 1 (native n0 0): the reply is = #1\n",
    },
    // A native that could not be made takes no number.
    Example {
        name: "number_taken_without_memory",
        natives: 1000000,
        scripts: 1000000,
        bytes: 4294967295,
        script: b"native n0 0\nnative n0 0\n",
        transcript: b"! nomem\n= #2\n",
        verdict: Verdict::Unlawful,
        told: b"line 2, answer to line 2 (native n0 0): the reply is = #1\n",
    },
    // A slot reads as what was written to it.
    Example {
        name: "slot_is_read_as_empty",
        natives: 1000000,
        scripts: 1000000,
        bytes: 4294967295,
        script: b"native n0 1\nset n0 0 n0\nget n1 n0 0\n",
        transcript: b"= #1\n= ok\n= none\n",
        verdict: Verdict::Unlawful,
        told: b"line 3, answer to line 3 (get n1 n0 0): the reply is = #1\n",
    },
    // A command that passes its checks is not refused.
    Example {
        name: "refused_without_cause",
        natives: 1000000,
        scripts: 1000000,
        bytes: 4294967295,
        script: b"drop n0\n",
        transcript: b"! empty\n",
        verdict: Verdict::Unlawful,
        told: b"line 1, answer to line 1 (drop n0): the reply is = ok\n",
    },
    // A command that fails a check is refused.
    Example {
        name: "done_in_place_of_a_refusal",
        natives: 1000000,
        scripts: 1000000,
        bytes: 4294967295,
        script: b"preserve s0\n",
        transcript: b"= ok\n",
        verdict: Verdict::Unlawful,
        told: b"line 1, answer to line 1 (preserve s0): the reply is ! empty\n",
    },
    // A command is refused for the first check that it fails.
    Example {
        name: "refused_for_another_cause",
        natives: 1000000,
        scripts: 1000000,
        bytes: 4294967295,
        script: b"preserve s0\n",
        transcript: b"! kind\n",
        verdict: Verdict::Unlawful,
        told: b"line 1, answer to line 1 (preserve s0): the reply is ! empty\n",
    },
    // An entry that was taken out is not read.
    Example {
        name: "taken_out_entry_is_read",
        natives: 1000000,
        scripts: 1000000,
        bytes: 4294967295,
        script: b"weakmap s0\nwset s0 s0 s0\nwset s0 s0 none\nwget s1 s0 s0\n",
        transcript: b"= @1\n= ok\n= ok\n= @1\n",
        verdict: Verdict::Unlawful,
        told: b"line 4, answer to line 4 (wget s1 s0 s0): the reply is = none\n",
    },
    // An entry is taken out of one map, and another map keeps its entry of the same key.
    Example {
        name: "entry_of_another_map_is_taken_out",
        natives: 1000000,
        scripts: 1000000,
        bytes: 4294967295,
        script: b"weakmap s0\nweakmap s1\nwset s0 s0 s0\nwset s1 s0 s0\nwset s0 s0 none\nwget s2 s1 s0\n",
        transcript: b"= @1\n= @2\n= ok\n= ok\n= ok\n= none\n",
        verdict: Verdict::Unlawful,
        told: b"line 6, answer to line 6 (wget s2 s1 s0): the reply is = @1\n",
    },
    // An entry of one key is taken out of a map, and the map keeps its entry of another key.
    Example {
        name: "entry_of_another_key_is_taken_out",
        natives: 1000000,
        scripts: 1000000,
        bytes: 4294967295,
        script: b"weakmap s0\nscript s1 0\nwset s0 s0 s0\nwset s0 s1 s0\nwset s0 s0 none\nwget s2 s0 s1\n",
        transcript: b"= @1\n= @2\n= ok\n= ok\n= ok\n= none\n",
        verdict: Verdict::Unlawful,
        told: b"line 6, answer to line 6 (wget s2 s0 s1): the reply is = @1\n",
    },
    // A proxy has no slots.
    Example {
        name: "slot_of_a_proxy_is_read",
        natives: 1000000,
        scripts: 1000000,
        bytes: 4294967295,
        script: b"script s0 0\nproxy s1 s0\ntake s2 s1 0\n",
        transcript: b"= @1\n= @2\n= none\n",
        verdict: Verdict::Unlawful,
        told: b"line 3, answer to line 3 (take s2 s1 0): the reply is ! slot\n",
    },
    // Reading a slot of a proxy is refused for the slot, and not for the kind of the object.
    Example {
        name: "proxy_is_taken_for_a_map",
        natives: 1000000,
        scripts: 1000000,
        bytes: 4294967295,
        script: b"script s0 0\nproxy s1 s0\ntake s2 s1 0\n",
        transcript: b"= @1\n= @2\n! kind\n",
        verdict: Verdict::Unlawful,
        told: b"line 3, answer to line 3 (take s2 s1 0): the reply is ! slot\n",
    },
];

#[test]
fn transcripts_are_judged(rt: HostRuntime) {
    are_judged(&rt, &EXAMPLES);
}
