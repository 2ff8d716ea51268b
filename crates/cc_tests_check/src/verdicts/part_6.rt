//! Some transcripts, whether they are lawful, and else where they are not, and why.
//!
//! Made by tools/worked_examples.py from examples/verdicts.txt.

use crate::example::{Example, are_judged};
use cc_check::Verdict;

const EXAMPLES: [Example; 20] = [
    // A native that is moved is named.
    Example {
        name: "moved_native_is_not_named",
        natives: 1000000,
        scripts: 1000000,
        bytes: 4294967295,
        script: b"version 2\nnative n0 1\nset n0 0 n0\nmove n0 0 n0 0\n",
        transcript: b"= ok\n= #1\n= ok\n= ok\n",
        verdict: Verdict::Unlawful,
        told: b"line 4, answer to line 4 (move n0 0 n0 0): the reply is = #1\n",
    },
    // A slot from which a native was moved is empty.
    Example {
        name: "moved_native_is_read_where_it_was",
        natives: 1000000,
        scripts: 1000000,
        bytes: 4294967295,
        script: b"version 2\nnative n0 2\nset n0 0 n0\nmove n0 1 n0 0\nget n1 n0 0\n",
        transcript: b"= ok\n= #1\n= ok\n= #1\n= #1\n",
        verdict: Verdict::Unlawful,
        told: b"line 5, answer to line 5 (get n1 n0 0): the reply is = none\n",
    },
    // A native that is moved to where it is stays there.
    Example {
        name: "native_moved_onto_itself_is_lost",
        natives: 1000000,
        scripts: 1000000,
        bytes: 4294967295,
        script: b"version 2\nnative n0 1\nset n0 0 n0\nmove n0 0 n0 0\nget n1 n0 0\n",
        transcript: b"= ok\n= #1\n= ok\n= #1\n= none\n",
        verdict: Verdict::Unlawful,
        told: b"line 5, answer to line 5 (get n1 n0 0): the reply is = #1\n",
    },
    // A copy of a native register takes no memory.
    Example {
        name: "copy_of_a_native_wants_memory",
        natives: 1000000,
        scripts: 1000000,
        bytes: 4294967295,
        script: b"copy n0 n1\n",
        transcript: b"! nomem\n",
        verdict: Verdict::Unlawful,
        told: b"line 1, answer to line 1 (copy n0 n1): the reply is = none\n",
    },
    // A copy of a script register takes no memory.
    Example {
        name: "copy_of_a_script_object_wants_memory",
        natives: 1000000,
        scripts: 1000000,
        bytes: 4294967295,
        script: b"copy s0 s1\n",
        transcript: b"! nomem\n",
        verdict: Verdict::Unlawful,
        told: b"line 1, answer to line 1 (copy s0 s1): the reply is = none\n",
    },
    // A drop takes no memory.
    Example {
        name: "drop_wants_memory",
        natives: 1000000,
        scripts: 1000000,
        bytes: 4294967295,
        script: b"drop n0\n",
        transcript: b"! nomem\n",
        verdict: Verdict::Unlawful,
        told: b"line 1, answer to line 1 (drop n0): the reply is = ok\n",
    },
    // Writing a native's slot takes no memory.
    Example {
        name: "set_wants_memory",
        natives: 1000000,
        scripts: 1000000,
        bytes: 4294967295,
        script: b"native n0 1\nset n0 0 none\n",
        transcript: b"= #1\n! nomem\n",
        verdict: Verdict::Unlawful,
        told: b"line 2, answer to line 2 (set n0 0 none): the reply is = ok\n",
    },
    // Reading a native's slot takes no memory.
    Example {
        name: "get_wants_memory",
        natives: 1000000,
        scripts: 1000000,
        bytes: 4294967295,
        script: b"native n0 1\nget n1 n0 0\n",
        transcript: b"= #1\n! nomem\n",
        verdict: Verdict::Unlawful,
        told: b"line 2, answer to line 2 (get n1 n0 0): the reply is = none\n",
    },
    // Writing a script object's slot takes no memory.
    Example {
        name: "put_wants_memory",
        natives: 1000000,
        scripts: 1000000,
        bytes: 4294967295,
        script: b"script s0 1\nput s0 0 none\n",
        transcript: b"= @1\n! nomem\n",
        verdict: Verdict::Unlawful,
        told: b"line 2, answer to line 2 (put s0 0 none): the reply is = ok\n",
    },
    // Reading a script object's slot takes no memory.
    Example {
        name: "take_wants_memory",
        natives: 1000000,
        scripts: 1000000,
        bytes: 4294967295,
        script: b"script s0 1\ntake s1 s0 0\n",
        transcript: b"= @1\n! nomem\n",
        verdict: Verdict::Unlawful,
        told: b"line 2, answer to line 2 (take s1 s0 0): the reply is = none\n",
    },
    // Unwrapping a reflector takes no memory.
    Example {
        name: "unwrap_wants_memory",
        natives: 1000000,
        scripts: 1000000,
        bytes: 4294967295,
        script: b"native n0 0\nwrap s0 n0\nunwrap n1 s0\n",
        transcript: b"= #1\n= ~1\n! nomem\n",
        verdict: Verdict::Unlawful,
        told: b"line 3, answer to line 3 (unwrap n1 s0): the reply is = #1\n",
    },
    // Preserving a reflector takes no memory.
    Example {
        name: "preserve_wants_memory",
        natives: 1000000,
        scripts: 1000000,
        bytes: 4294967295,
        script: b"native n0 0\nwrap s0 n0\npreserve s0\n",
        transcript: b"= #1\n= ~1\n! nomem\n",
        verdict: Verdict::Unlawful,
        told: b"line 3, answer to line 3 (preserve s0): the reply is = ok\n",
    },
    // An entry that is there already takes no memory when it is set again.
    Example {
        name: "replaced_entry_wants_memory",
        natives: 1000000,
        scripts: 1000000,
        bytes: 4294967295,
        script: b"weakmap s0\nwset s0 s0 s0\nwset s0 s0 s0\n",
        transcript: b"= @1\n= ok\n! nomem\n",
        verdict: Verdict::Unlawful,
        told: b"line 3, answer to line 3 (wset s0 s0 s0): the reply is = ok\n",
    },
    // Taking out an entry takes no memory.
    Example {
        name: "taken_out_entry_wants_memory",
        natives: 1000000,
        scripts: 1000000,
        bytes: 4294967295,
        script: b"weakmap s0\nwset s0 s0 none\n",
        transcript: b"= @1\n! nomem\n",
        verdict: Verdict::Unlawful,
        told: b"line 2, answer to line 2 (wset s0 s0 none): the reply is = ok\n",
    },
    // Reading an entry takes no memory.
    Example {
        name: "wget_wants_memory",
        natives: 1000000,
        scripts: 1000000,
        bytes: 4294967295,
        script: b"weakmap s0\nwget s1 s0 s0\n",
        transcript: b"= @1\n! nomem\n",
        verdict: Verdict::Unlawful,
        told: b"line 2, answer to line 2 (wget s1 s0 s0): the reply is = none\n",
    },
    // Exposing a slot takes no memory.
    Example {
        name: "expose_wants_memory",
        natives: 1000000,
        scripts: 1000000,
        bytes: 4294967295,
        script: b"native n0 1\nexpose n0 0\n",
        transcript: b"= #1\n! nomem\n",
        verdict: Verdict::Unlawful,
        told: b"line 2, answer to line 2 (expose n0 0): the reply is = none\n",
    },
    // A move takes no memory.
    Example {
        name: "move_wants_memory",
        natives: 1000000,
        scripts: 1000000,
        bytes: 4294967295,
        script: b"version 2\nnative n0 1\nmove n0 0 n0 0\n",
        transcript: b"= ok\n= #1\n! nomem\n",
        verdict: Verdict::Unlawful,
        told: b"line 3, answer to line 3 (move n0 0 n0 0): the reply is = none\n",
    },
    // Asking for version 2 takes no memory.
    Example {
        name: "version_wants_memory",
        natives: 1000000,
        scripts: 1000000,
        bytes: 4294967295,
        script: b"version 2\n",
        transcript: b"! nomem\n",
        verdict: Verdict::Unlawful,
        told: b"line 1, answer to line 1 (version 2): the reply is = ok\n",
    },
    // A wrapping that the graph refuses asks no memory.
    Example {
        name: "refused_wrap_wants_memory",
        natives: 1000000,
        scripts: 1000000,
        bytes: 4294967295,
        script: b"wrap s0 n0\n",
        transcript: b"! nomem\n",
        verdict: Verdict::Unlawful,
        told: b"line 1, answer to line 1 (wrap s0 n0): the reply is ! empty\n",
    },
    // An entry that the graph refuses asks no memory.
    Example {
        name: "refused_wset_wants_memory",
        natives: 1000000,
        scripts: 1000000,
        bytes: 4294967295,
        script: b"wset s0 s1 s2\n",
        transcript: b"! nomem\n",
        verdict: Verdict::Unlawful,
        told: b"line 1, answer to line 1 (wset s0 s1 s2): the reply is ! empty\n",
    },
];

#[test]
fn transcripts_are_judged(rt: HostRuntime) {
    are_judged(&rt, &EXAMPLES);
}
