//! Some transcripts, whether they are lawful, and else where they are not, and why.
//!
//! Made by tools/worked_examples.py from examples/verdicts.txt.

use crate::example::{Example, are_judged};
use cc_check::Verdict;

const EXAMPLES: [Example; 20] = [
    // What no register reaches and what has not ended is given, and is reached again.
    Example {
        name: "garbage_is_brought_back",
        natives: 1000000,
        scripts: 1000000,
        bytes: 4294967295,
        script: b"version 2\nnative n0 1\nset n0 0 n0\nweak w0 n0\ndrop n0\nderef n1 w0\ngc\ncollect\ngc\ncensus\n",
        transcript: b"= ok\n= #1\n= ok\n= #1\n= ok\n= #1\n= ok\n= ok\n= ok\n+ #1\n= census 1\n",
        verdict: Verdict::Lawful,
        told: b"lawful\n",
    },
    // A native that was unlinked has ended, though a census lists it still.
    Example {
        name: "unlinked_native_is_given_no_more",
        natives: 1000000,
        scripts: 1000000,
        bytes: 4294967295,
        script: b"version 2\nnative n0 1\nset n0 0 n0\nweak w0 n0\ndrop n0\ncollect\nderef n1 w0\ncensus\n",
        transcript: b"= ok\n= #1\n= ok\n= #1\n= ok\n- unlink #1\n= ok\n= none\n+ #1\n= census 1\n",
        verdict: Verdict::Lawful,
        told: b"lawful\n",
    },
    // A weak register that was emptied gives nothing.
    Example {
        name: "weak_register_is_emptied",
        natives: 1000000,
        scripts: 1000000,
        bytes: 4294967295,
        script: b"version 2\nnative n0 0\nweak w0 n0\ndrop w0\nderef n1 w0\n",
        transcript: b"= ok\n= #1\n= #1\n= ok\n= none\n",
        verdict: Verdict::Lawful,
        told: b"lawful\n",
    },
    // A native that has not ended is given.
    Example {
        name: "native_is_not_given",
        natives: 1000000,
        scripts: 1000000,
        bytes: 4294967295,
        script: b"version 2\nnative n0 0\nweak w0 n0\nderef n1 w0\n",
        transcript: b"= ok\n= #1\n= #1\n= none\n",
        verdict: Verdict::Unlawful,
        told: b"line 4, answer to line 4 (deref n1 w0): the reply is = #1\n",
    },
    // A native that no register reaches is given all the same, until it has ended.
    Example {
        name: "garbage_is_not_given",
        natives: 1000000,
        scripts: 1000000,
        bytes: 4294967295,
        script: b"version 2\nnative n0 1\nset n0 0 n0\nweak w0 n0\ndrop n0\nderef n1 w0\n",
        transcript: b"= ok\n= #1\n= ok\n= #1\n= ok\n= none\n",
        verdict: Verdict::Unlawful,
        told: b"line 6, answer to line 6 (deref n1 w0): the reply is = #1\n",
    },
    // A native that was unlinked is not given, though a census lists it still.
    Example {
        name: "unlinked_native_is_given",
        natives: 1000000,
        scripts: 1000000,
        bytes: 4294967295,
        script: b"version 2\nnative n0 1\nset n0 0 n0\nweak w0 n0\ndrop n0\ncollect\nderef n1 w0\n",
        transcript: b"= ok\n= #1\n= ok\n= #1\n= ok\n- unlink #1\n= ok\n= #1\n",
        verdict: Verdict::Unlawful,
        told: b"line 8, answer to line 7 (deref n1 w0): the reply is = none\n",
    },
    // A native that was freed is not given.
    Example {
        name: "freed_native_is_given",
        natives: 1000000,
        scripts: 1000000,
        bytes: 4294967295,
        script: b"version 2\nnative n0 0\nweak w0 n0\ndrop n0\nderef n1 w0\n",
        transcript: b"= ok\n= #1\n= #1\n- free #1\n= ok\n= #1\n",
        verdict: Verdict::Unlawful,
        told: b"line 6, answer to line 5 (deref n1 w0): the reply is = none\n",
    },
    // A native that a weak register gave is reached.
    Example {
        name: "native_brought_back_is_freed",
        natives: 1000000,
        scripts: 1000000,
        bytes: 4294967295,
        script: b"version 2\nnative n0 1\nset n0 0 n0\nweak w0 n0\ndrop n0\nderef n1 w0\ncollect\n",
        transcript: b"= ok\n= #1\n= ok\n= #1\n= ok\n= #1\n- unlink #1\n- free #1\n= ok\n",
        verdict: Verdict::Unlawful,
        told: b"line 7, answer to line 7 (collect): #1 is unlinked, but n1 leads to it: n1 #1\n",
    },
    // What was freed may be led to by a native that a weak register gives, and no census can list it.
    Example {
        name: "freed_native_is_led_to_again",
        natives: 1000000,
        scripts: 1000000,
        bytes: 4294967295,
        script: b"version 2\nnative n0 1\nnative n1 0\nset n0 0 n1\nweak w0 n0\ndrop n0\ndrop n1\nderef n2 w0\ngc\ncollect\ngc\ncensus\n",
        transcript: b"= ok\n= #1\n= #2\n= ok\n= #1\n= ok\n- free #2\n= ok\n= #1\n= ok\n= ok\n= ok\n+ #1\n= census 1\n",
        verdict: Verdict::Unlawful,
        told: b"line 12, answer to line 11 (gc): the census behind it lists exactly what is reached, and #2 is, but it was freed\n",
    },
    // A transcript in which something freed is led to again is lawful where no row asks for it.
    Example {
        name: "freed_native_is_led_to_again_and_not_missed",
        natives: 1000000,
        scripts: 1000000,
        bytes: 4294967295,
        script: b"version 2\nnative n0 1\nnative n1 0\nset n0 0 n1\nweak w0 n0\ndrop n0\ndrop n1\nderef n2 w0\ncensus\n",
        transcript: b"= ok\n= #1\n= #2\n= ok\n= #1\n= ok\n- free #2\n= ok\n= #1\n+ #1\n= census 1\n",
        verdict: Verdict::Lawful,
        told: b"lawful\n",
    },
    // A slice may free a script object, in version 1 too.
    Example {
        name: "script_object_is_freed_by_a_slice",
        natives: 1000000,
        scripts: 1000000,
        bytes: 4294967295,
        script: b"script s0 0\ndrop s0\nslice 1\n",
        transcript: b"= @1\n= ok\n- free @1\n= ok\n",
        verdict: Verdict::Lawful,
        told: b"lawful\n",
    },
    // A collect may free a script object, in version 1 too.
    Example {
        name: "script_object_is_freed_by_a_collect",
        natives: 1000000,
        scripts: 1000000,
        bytes: 4294967295,
        script: b"script s0 0\ndrop s0\ncollect\n",
        transcript: b"= @1\n= ok\n- free @1\n= ok\n",
        verdict: Verdict::Lawful,
        told: b"lawful\n",
    },
    // A collect may free a reflector, and then the native that this alone held.
    Example {
        name: "reflector_is_freed_by_a_collect",
        natives: 1000000,
        scripts: 1000000,
        bytes: 4294967295,
        script: b"native n0 0\nwrap s0 n0\ndrop n0\ndrop s0\ncollect\n",
        transcript: b"= #1\n= ~1\n= ok\n= ok\n- free ~1\n- free #1\n= ok\n",
        verdict: Verdict::Lawful,
        told: b"lawful\n",
    },
    // A reflector that a slice freed is made again, and is listed last.
    Example {
        name: "reflector_freed_by_a_slice_is_made_again",
        natives: 1000000,
        scripts: 1000000,
        bytes: 4294967295,
        script: b"native n0 0\nwrap s0 n0\nscript s1 0\ndrop s0\nslice 1\nwrap s0 n0\ncensus\n",
        transcript: b"= #1\n= ~1\n= @1\n= ok\n- free ~1\n= ok\n= ~1\n+ #1\n+ @1\n+ ~1\n= census 3\n",
        verdict: Verdict::Lawful,
        told: b"lawful\n",
    },
    // A slice that is refused memory may have freed script objects and natives before.
    Example {
        name: "refused_slice_frees_script_objects",
        natives: 1000000,
        scripts: 1000000,
        bytes: 4294967295,
        script: b"native n0 0\nwrap s0 n0\ndrop s0\ndrop n0\nslice 1\n",
        transcript: b"= #1\n= ~1\n= ok\n= ok\n- free ~1\n- free #1\n- abandon\n! nomem\n",
        verdict: Verdict::Lawful,
        told: b"lawful\n",
    },
    // A slice, a collect, a gc and a mark free script objects.
    Example {
        name: "script_objects_are_freed_by_what_collects",
        natives: 1000000,
        scripts: 1000000,
        bytes: 4294967295,
        script: b"version 2\nscript s0 0\nscript s0 0\nscript s0 0\nscript s0 0\nscript s0 0\nslice 1\ncollect\ngc\nmark 1\n",
        transcript: b"= ok\n= @1\n= @2\n= @3\n= @4\n= @5\n- free @4\n= ok\n- free @1\n= ok\n- free @3\n= ok\n- free @2\n= ok\n",
        verdict: Verdict::Lawful,
        told: b"lawful\n",
    },
    // Units of a marking free script objects and natives.
    Example {
        name: "mark_frees_what_nothing_holds",
        natives: 1000000,
        scripts: 1000000,
        bytes: 4294967295,
        script: b"version 2\nscript s0 0\nscript s1 1\nput s1 0 s0\ndrop s0\nnative n0 0\nwrap s0 n0\ndrop n0\ndrop s0\ndrop s1\nmark 9\ncensus\n",
        transcript: b"= ok\n= @1\n= @2\n= ok\n= ok\n= #1\n= ~1\n= ok\n= ok\n= ok\n- free @1\n- free @2\n- free ~1\n- free #1\n= ok\n= census 0\n",
        verdict: Verdict::Lawful,
        told: b"lawful\n",
    },
    // A mark abandons the collection that runs, and then frees.
    Example {
        name: "mark_abandons_first",
        natives: 1000000,
        scripts: 1000000,
        bytes: 4294967295,
        script: b"version 2\nscript s0 0\ndrop s0\nmark 9\n",
        transcript: b"= ok\n= @1\n= ok\n- abandon\n- free @1\n= ok\n",
        verdict: Verdict::Lawful,
        told: b"lawful\n",
    },
    // A mark unlinks and frees what the collection that it ends has found.
    Example {
        name: "mark_ends_a_collection",
        natives: 1000000,
        scripts: 1000000,
        bytes: 4294967295,
        script: b"version 2\nnative n0 1\nnative n1 1\nset n0 0 n1\nset n1 0 n0\ndrop n0\ndrop n1\nslice 1\nmark 1\ncensus\n",
        transcript: b"= ok\n= #1\n= #2\n= ok\n= ok\n= ok\n= ok\n= ok\n- unlink #1\n- unlink #2\n- free #1\n- free #2\n= ok\n= census 0\n",
        verdict: Verdict::Lawful,
        told: b"lawful\n",
    },
    // Units of a marking may leave what is garbage.
    Example {
        name: "garbage_stays_behind_a_mark",
        natives: 1000000,
        scripts: 1000000,
        bytes: 4294967295,
        script: b"version 2\nnative n0 0\nnative n1 0\nscript s0 0\ndrop n0\ndrop n1\ndrop s0\nmark 9\nmark 9\ncensus\n",
        transcript: b"= ok\n= #1\n= #2\n= @1\n= ok\n= ok\n= ok\n- unlink #2\n- free #1\n= ok\n= ok\n+ #2\n+ @1\n= census 2\n",
        verdict: Verdict::Lawful,
        told: b"lawful\n",
    },
];

#[test]
fn transcripts_are_judged(rt: HostRuntime) {
    are_judged(&rt, &EXAMPLES);
}
