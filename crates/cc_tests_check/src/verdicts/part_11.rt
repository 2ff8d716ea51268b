//! Some transcripts, whether they are lawful, and else where they are not, and why.
//!
//! Made by tools/worked_examples.py from examples/verdicts.txt.

use crate::example::{Example, are_judged};
use cc_check::Verdict;

const EXAMPLES: [Example; 20] = [
    // Why frees nothing, not even what no register reaches.
    Example {
        name: "freed_by_why",
        natives: 1000000,
        scripts: 1000000,
        bytes: 4294967295,
        script: b"version 2\nnative n0 0\ndrop n0\nnative n1 0\nwhy #2\n",
        transcript: b"= ok\n= #1\n= ok\n= #2\n- free #1\n: #2 n1\n= ok\n",
        verdict: Verdict::Unlawful,
        told: b"line 5, answer to line 5 (why #2): the step here is : #2 n1\n",
    },
    // Why frees nothing where it finds nothing.
    Example {
        name: "freed_by_why_of_itself",
        natives: 1000000,
        scripts: 1000000,
        bytes: 4294967295,
        script: b"version 2\nnative n0 0\ndrop n0\nwhy #1\n",
        transcript: b"= ok\n= #1\n= ok\n- free #1\n= none\n",
        verdict: Verdict::Unlawful,
        told: b"line 4, answer to line 4 (why #1): the answer ends here: = none\n",
    },
    // Why abandons no collection, also where memory is refused.
    Example {
        name: "why_abandons",
        natives: 1000000,
        scripts: 1000000,
        bytes: 4294967295,
        script: b"version 2\nslice 1\nwhy #1\n",
        transcript: b"= ok\n= ok\n- abandon\n! nomem\n",
        verdict: Verdict::Unlawful,
        told: b"line 3, answer to line 3 (why #1): the answer ends here: = none\n",
    },
    // A native that no register reaches is gone after gc, collect and gc.
    Example {
        name: "garbage_is_kept",
        natives: 1000000,
        scripts: 1000000,
        bytes: 4294967295,
        script: b"native n0 0\ndrop n0\ngc\ncollect\ngc\ncensus\n",
        transcript: b"= #1\n= ok\n= ok\n= ok\n= ok\n+ #1\n= census 1\n",
        verdict: Verdict::Unlawful,
        told: b"line 5, answer to line 5 (gc): the census behind it lists exactly what is reached, but #1 is not\n",
    },
    // A further gc may stand before the row of gc, collect and gc.
    Example {
        name: "garbage_is_kept_after_two_gcs",
        natives: 1000000,
        scripts: 1000000,
        bytes: 4294967295,
        script: b"native n0 0\ndrop n0\ngc\ngc\ncollect\ngc\ncensus\n",
        transcript: b"= #1\n= ok\n= ok\n= ok\n= ok\n= ok\n+ #1\n= census 1\n",
        verdict: Verdict::Unlawful,
        told: b"line 6, answer to line 6 (gc): the census behind it lists exactly what is reached, but #1 is not\n",
    },
    // A collect and a gc after the row of gc, collect and gc make it whole again.
    Example {
        name: "garbage_is_kept_after_two_collections",
        natives: 1000000,
        scripts: 1000000,
        bytes: 4294967295,
        script: b"native n0 0\ndrop n0\ngc\ncollect\ngc\ncollect\ngc\ncensus\n",
        transcript: b"= #1\n= ok\n= ok\n= ok\n= ok\n= ok\n= ok\n+ #1\n= census 1\n",
        verdict: Verdict::Unlawful,
        told: b"line 7, answer to line 7 (gc): the census behind it lists exactly what is reached, but #1 is not\n",
    },
    // A gc after the row of gc, collect and gc begins a new one.
    Example {
        name: "garbage_is_kept_after_two_rows",
        natives: 1000000,
        scripts: 1000000,
        bytes: 4294967295,
        script: b"native n0 0\ndrop n0\ngc\ncollect\ngc\ngc\ncollect\ngc\ncensus\n",
        transcript: b"= #1\n= ok\n= ok\n= ok\n= ok\n= ok\n= ok\n= ok\n+ #1\n= census 1\n",
        verdict: Verdict::Unlawful,
        told: b"line 8, answer to line 8 (gc): the census behind it lists exactly what is reached, but #1 is not\n",
    },
    // Lines that ask nothing may stand in the row of gc, collect and gc.
    Example {
        name: "garbage_is_kept_between_blank_lines",
        natives: 1000000,
        scripts: 1000000,
        bytes: 4294967295,
        script: b"native n0 0\ndrop n0\ngc\n\ncollect\n% between\ngc\n\ncensus\n",
        transcript: b"= #1\n= ok\n= ok\n= ok\n= ok\n+ #1\n= census 1\n",
        verdict: Verdict::Unlawful,
        told: b"line 5, answer to line 7 (gc): the census behind it lists exactly what is reached, but #1 is not\n",
    },
    // A reflector that no register reaches is gone after gc, collect and gc.
    Example {
        name: "reflector_is_kept",
        natives: 1000000,
        scripts: 1000000,
        bytes: 4294967295,
        script: b"native n0 0\nwrap s0 n0\ndrop s0\ngc\ncollect\ngc\ncensus\n",
        transcript: b"= #1\n= ~1\n= ok\n= ok\n= ok\n= ok\n+ #1\n+ ~1\n= census 2\n",
        verdict: Verdict::Unlawful,
        told: b"line 6, answer to line 6 (gc): the census behind it lists exactly what is reached, but ~1 is not\n",
    },
    // A reflector whose entry was taken out is not preserved by that, and is gone after gc, collect and gc.
    Example {
        name: "reflector_of_a_taken_out_entry_is_kept",
        natives: 1000000,
        scripts: 1000000,
        bytes: 4294967295,
        script: b"native n0 0\nwrap s1 n0\nweakmap s0\nwset s0 s1 none\ndrop s1\ngc\ncollect\ngc\ncensus\n",
        transcript: b"= #1\n= ~1\n= @1\n= ok\n= ok\n= ok\n= ok\n= ok\n+ #1\n+ ~1\n+ @1\n= census 3\n",
        verdict: Verdict::Unlawful,
        told: b"line 8, answer to line 8 (gc): the census behind it lists exactly what is reached, but ~1 is not\n",
    },
    // A proxy that no register reaches is gone after gc, collect and gc, though its delegate is held.
    Example {
        name: "proxy_is_kept",
        natives: 1000000,
        scripts: 1000000,
        bytes: 4294967295,
        script: b"script s0 0\nproxy s1 s0\ndrop s1\ngc\ncollect\ngc\ncensus\n",
        transcript: b"= @1\n= @2\n= ok\n= ok\n= ok\n= ok\n+ @1\n+ @2\n= census 2\n",
        verdict: Verdict::Unlawful,
        told: b"line 6, answer to line 6 (gc): the census behind it lists exactly what is reached, but @2 is not\n",
    },
    // An entry of a weak map keeps neither its key nor the delegate of that.
    Example {
        name: "delegate_of_a_key_is_kept",
        natives: 1000000,
        scripts: 1000000,
        bytes: 4294967295,
        script: b"weakmap s0\nscript s1 0\nproxy s2 s1\nwset s0 s2 s0\ndrop s1\ndrop s2\ngc\ncollect\ngc\ncensus\n",
        transcript: b"= @1\n= @2\n= @3\n= ok\n= ok\n= ok\n= ok\n= ok\n= ok\n+ @1\n+ @2\n+ @3\n= census 3\n",
        verdict: Verdict::Unlawful,
        told: b"line 9, answer to line 9 (gc): the census behind it lists exactly what is reached, but @2 is not\n",
    },
    // What a register reaches may not be freed before the census behind gc, collect and gc.
    Example {
        name: "reached_native_is_missing",
        natives: 1000000,
        scripts: 1000000,
        bytes: 4294967295,
        script: b"native n0 0\ngc\ncollect\ngc\ncensus\n",
        transcript: b"= #1\n- free #1\n= ok\n= ok\n= ok\n= census 0\n",
        verdict: Verdict::Unlawful,
        told: b"line 2, answer to line 2 (gc): #1 is freed, but n0 leads to it: n0 #1\n",
    },
    // Another collector may free a native when suspects are forgotten.
    Example {
        name: "native_freed_by_forget",
        natives: 1000000,
        scripts: 1000000,
        bytes: 4294967295,
        script: b"version 2\nnative n0 0\ndrop n0\nforget\ncensus\n",
        transcript: b"= ok\n= #1\n= ok\n- free #1\n= ok\n= census 0\n",
        verdict: Verdict::Lawful,
        told: b"lawful\n",
    },
    // Forget between them breaks the row of gc, collect and gc.
    Example {
        name: "row_broken_by_forget",
        natives: 1000000,
        scripts: 1000000,
        bytes: 4294967295,
        script: b"version 2\nnative n0 0\ndrop n0\ngc\ncollect\nforget\ngc\ncensus\n",
        transcript: b"= ok\n= #1\n= ok\n= ok\n= ok\n= ok\n= ok\n+ #1\n= census 1\n",
        verdict: Verdict::Lawful,
        told: b"lawful\n",
    },
    // Suspects are forgotten without memory.
    Example {
        name: "forget_refused_memory",
        natives: 1000000,
        scripts: 1000000,
        bytes: 4294967295,
        script: b"version 2\nnative n0 0\nforget\n",
        transcript: b"= ok\n= #1\n! nomem\n",
        verdict: Verdict::Unlawful,
        told: b"line 3, answer to line 3 (forget): the reply is = ok\n",
    },
    // No native is unlinked when suspects are forgotten, not even an unreached one.
    Example {
        name: "unlinked_by_forget",
        natives: 1000000,
        scripts: 1000000,
        bytes: 4294967295,
        script: b"version 2\nnative n0 1\nset n0 0 n0\ndrop n0\nforget\n",
        transcript: b"= ok\n= #1\n= ok\n= ok\n- unlink #1\n- free #1\n= ok\n",
        verdict: Verdict::Unlawful,
        told: b"line 5, answer to line 5 (forget): #1 is unlinked, and this command may not unlink it\n",
    },
    // No script object is freed when suspects are forgotten.
    Example {
        name: "script_object_freed_by_forget",
        natives: 1000000,
        scripts: 1000000,
        bytes: 4294967295,
        script: b"version 2\nscript s0 0\ndrop s0\nforget\n",
        transcript: b"= ok\n= @1\n= ok\n- free @1\n= ok\n",
        verdict: Verdict::Unlawful,
        told: b"line 4, answer to line 4 (forget): @1 is freed, and this command may not free it\n",
    },
    // A weak register gives the native that it notes as long as that has not ended.
    Example {
        name: "native_is_given_by_a_weak_register",
        natives: 1000000,
        scripts: 1000000,
        bytes: 4294967295,
        script: b"version 2\nnative n0 0\nweak w0 n0\nderef n1 w0\ndrop n0\ncensus\n",
        transcript: b"= ok\n= #1\n= #1\n= #1\n= ok\n+ #1\n= census 1\n",
        verdict: Verdict::Lawful,
        told: b"lawful\n",
    },
    // What a weak register alone notes may be freed, and it gives nothing from then on.
    Example {
        name: "weak_register_is_no_root",
        natives: 1000000,
        scripts: 1000000,
        bytes: 4294967295,
        script: b"version 2\nnative n0 0\nweak w0 n0\ndrop n0\nderef n1 w0\ncensus\n",
        transcript: b"= ok\n= #1\n= #1\n- free #1\n= ok\n= none\n= census 0\n",
        verdict: Verdict::Lawful,
        told: b"lawful\n",
    },
];

#[test]
fn transcripts_are_judged(rt: HostRuntime) {
    are_judged(&rt, &EXAMPLES);
}
