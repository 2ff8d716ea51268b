//! Some transcripts, whether they are lawful, and else where they are not, and why.
//!
//! Made by tools/worked_examples.py from examples/verdicts.txt.

use crate::example::{Example, are_judged};
use cc_check::Verdict;

const EXAMPLES: [Example; 20] = [
    // A proxy that the graph refuses asks no memory.
    Example {
        name: "refused_proxy_wants_memory",
        natives: 1000000,
        scripts: 1000000,
        bytes: 4294967295,
        script: b"proxy s0 s1\n",
        transcript: b"! nomem\n",
        verdict: Verdict::Unlawful,
        told: b"line 1, answer to line 1 (proxy s0 s1): the reply is ! empty\n",
    },
    // A census does not end without the number of its names.
    Example {
        name: "census_tells_no_number",
        natives: 1000000,
        scripts: 1000000,
        bytes: 4294967295,
        script: b"native n0 0\ncensus\n",
        transcript: b"= #1\n+ #1\n",
        verdict: Verdict::Unlawful,
        told: b"end: a lawful transcript goes on\n",
    },
    // Want of memory is told by no other refusal.
    Example {
        name: "full_in_place_of_want_of_memory",
        natives: 1000000,
        scripts: 1000000,
        bytes: 4294967295,
        script: b"native n0 0\n",
        transcript: b"! full\n",
        verdict: Verdict::Unlawful,
        told: b"line 1, answer to line 1 (native n0 0): the reply is = #1\n",
    },
    // A census leaves out nothing that is listed.
    Example {
        name: "census_leaves_one_out",
        natives: 1000000,
        scripts: 1000000,
        bytes: 4294967295,
        script: b"native n0 0\ncensus\n",
        transcript: b"= #1\n= census 0\n",
        verdict: Verdict::Unlawful,
        told: b"line 2, answer to line 2 (census): the census lists #1 here\n",
    },
    // A census lists nothing that could not be made for want of memory.
    Example {
        name: "census_lists_what_was_not_made",
        natives: 1000000,
        scripts: 1000000,
        bytes: 4294967295,
        script: b"native n0 0\ncensus\n",
        transcript: b"! nomem\n+ #1\n= census 1\n",
        verdict: Verdict::Unlawful,
        told: b"line 2, answer to line 2 (census): the answer ends here: = census 0\n",
    },
    // A reflector that was freed and made again is listed last.
    Example {
        name: "census_lists_a_reflector_in_its_old_place",
        natives: 1000000,
        scripts: 1000000,
        bytes: 4294967295,
        script: b"native n0 0\nwrap s0 n0\nscript s1 0\ndrop s0\ngc\nwrap s0 n0\ncensus\n",
        transcript: b"= #1\n= ~1\n= @1\n= ok\n- free ~1\n= ok\n= ~1\n+ #1\n+ ~1\n+ @1\n= census 3\n",
        verdict: Verdict::Unlawful,
        told: b"line 9, answer to line 7 (census): the census lists @1 here\n",
    },
    // A reflector that is there keeps its place in a census when its native is wrapped again.
    Example {
        name: "census_lists_a_wrapped_reflector_last",
        natives: 1000000,
        scripts: 1000000,
        bytes: 4294967295,
        script: b"native n0 0\nwrap s0 n0\nscript s1 0\nwrap s2 n0\ncensus\n",
        transcript: b"= #1\n= ~1\n= @1\n= ~1\n+ #1\n+ @1\n+ ~1\n= census 3\n",
        verdict: Verdict::Unlawful,
        told: b"line 6, answer to line 5 (census): the census lists ~1 here\n",
    },
    // A census lists a reflector once, however often its native was wrapped.
    Example {
        name: "census_lists_a_reflector_twice",
        natives: 1000000,
        scripts: 1000000,
        bytes: 4294967295,
        script: b"native n0 0\nwrap s0 n0\nwrap s1 n0\ncensus\n",
        transcript: b"= #1\n= ~1\n= ~1\n+ #1\n+ ~1\n+ ~1\n= census 3\n",
        verdict: Verdict::Unlawful,
        told: b"line 6, answer to line 4 (census): the answer ends here: = census 2\n",
    },
    // A census frees nothing.
    Example {
        name: "freed_by_a_census",
        natives: 1000000,
        scripts: 1000000,
        bytes: 4294967295,
        script: b"native n0 0\ndrop n0\ncensus\n",
        transcript: b"= #1\n= ok\n- free #1\n= census 0\n",
        verdict: Verdict::Unlawful,
        told: b"line 3, answer to line 3 (census): the census lists #1 here\n",
    },
    // A refused command frees nothing.
    Example {
        name: "freed_by_a_refused_command",
        natives: 1000000,
        scripts: 1000000,
        bytes: 4294967295,
        script: b"native n0 0\ndrop n0\nset n0 0 none\n",
        transcript: b"= #1\n= ok\n- free #1\n! empty\n",
        verdict: Verdict::Unlawful,
        told: b"line 3, answer to line 3 (set n0 0 none): an event, but the command is refused: ! empty\n",
    },
    // A command under which something was freed was not refused memory.
    Example {
        name: "freed_without_memory",
        natives: 1000000,
        scripts: 1000000,
        bytes: 4294967295,
        script: b"native n0 0\ndrop n0\nnative n0 0\n",
        transcript: b"= #1\n= ok\n- free #1\n! nomem\n",
        verdict: Verdict::Unlawful,
        told: b"line 4, answer to line 3 (native n0 0): the reply is = #2\n",
    },
    // A native that was not made yet may not be freed.
    Example {
        name: "freed_before_it_was_made",
        natives: 1000000,
        scripts: 1000000,
        bytes: 4294967295,
        script: b"collect\n",
        transcript: b"- free #1\n= ok\n",
        verdict: Verdict::Unlawful,
        told: b"line 1, answer to line 1 (collect): #1 is freed, but it is not there any more, or never was\n",
    },
    // What was freed may not be freed again under a later command.
    Example {
        name: "freed_again",
        natives: 1000000,
        scripts: 1000000,
        bytes: 4294967295,
        script: b"native n0 0\ndrop n0\ncollect\n",
        transcript: b"= #1\n- free #1\n= ok\n- free #1\n= ok\n",
        verdict: Verdict::Unlawful,
        told: b"line 4, answer to line 3 (collect): #1 is freed, but it is not there any more, or never was\n",
    },
    // What a register holds may not be freed.
    Example {
        name: "freed_while_a_register_holds_it",
        natives: 1000000,
        scripts: 1000000,
        bytes: 4294967295,
        script: b"native n0 0\ncollect\n",
        transcript: b"= #1\n- free #1\n= ok\n",
        verdict: Verdict::Unlawful,
        told: b"line 2, answer to line 2 (collect): #1 is freed, but n0 leads to it: n0 #1\n",
    },
    // A native lives as long as its reflector.
    Example {
        name: "freed_while_its_reflector_is_held",
        natives: 1000000,
        scripts: 1000000,
        bytes: 4294967295,
        script: b"native n0 0\nwrap s0 n0\ndrop n0\n",
        transcript: b"= #1\n= ~1\n- free #1\n= ok\n",
        verdict: Verdict::Unlawful,
        told: b"line 3, answer to line 3 (drop n0): #1 is freed, but s0 leads to it: s0 ~1, ~1 #1\n",
    },
    // A preserved reflector lives as long as its native.
    Example {
        name: "preserved_reflector_is_freed",
        natives: 1000000,
        scripts: 1000000,
        bytes: 4294967295,
        script: b"native n0 0\nwrap s0 n0\npreserve s0\ndrop s0\ngc\n",
        transcript: b"= #1\n= ~1\n= ok\n= ok\n- free ~1\n= ok\n",
        verdict: Verdict::Unlawful,
        told: b"line 5, answer to line 5 (gc): ~1 is freed, but n0 leads to it: n0 #1, #1 ~1\n",
    },
    // A reflector is preserved where a slot of it is written, also with nothing.
    Example {
        name: "reflector_with_an_emptied_slot_is_freed",
        natives: 1000000,
        scripts: 1000000,
        bytes: 4294967295,
        script: b"native n0 0\nwrap s0 n0\nput s0 0 none\ndrop s0\ngc\n",
        transcript: b"= #1\n= ~1\n= ok\n= ok\n- free ~1\n= ok\n",
        verdict: Verdict::Unlawful,
        told: b"line 5, answer to line 5 (gc): ~1 is freed, but n0 leads to it: n0 #1, #1 ~1\n",
    },
    // A reflector is preserved where it becomes a key.
    Example {
        name: "reflector_that_is_a_key_is_freed",
        natives: 1000000,
        scripts: 1000000,
        bytes: 4294967295,
        script: b"native n0 0\nwrap s1 n0\nweakmap s0\nwset s0 s1 s0\ndrop s1\ngc\n",
        transcript: b"= #1\n= ~1\n= @1\n= ok\n= ok\n- free ~1\n= ok\n",
        verdict: Verdict::Unlawful,
        told: b"line 6, answer to line 6 (gc): ~1 is freed, but n0 leads to it: n0 #1, #1 ~1\n",
    },
    // A value lives as long as its map and its key, which may be one object.
    Example {
        name: "value_is_freed_while_map_and_key_are_held",
        natives: 1000000,
        scripts: 1000000,
        bytes: 4294967295,
        script: b"weakmap s0\nscript s1 0\nwset s0 s0 s1\ndrop s1\ngc\n",
        transcript: b"= @1\n= @2\n= ok\n= ok\n- free @2\n= ok\n",
        verdict: Verdict::Unlawful,
        told: b"line 5, answer to line 5 (gc): @2 is freed, but s0 leads to it: s0 @1, @1 @1 @2\n",
    },
    // A reflector is preserved where it gets a proxy.
    Example {
        name: "reflector_that_is_a_delegate_is_freed",
        natives: 1000000,
        scripts: 1000000,
        bytes: 4294967295,
        script: b"native n0 0\nwrap s0 n0\nproxy s1 s0\ndrop s0\ndrop s1\ngc\n",
        transcript: b"= #1\n= ~1\n= @1\n= ok\n= ok\n- free ~1\n= ok\n",
        verdict: Verdict::Unlawful,
        told: b"line 6, answer to line 6 (gc): ~1 is freed, but n0 leads to it: n0 #1, #1 ~1\n",
    },
];

#[test]
fn transcripts_are_judged(rt: HostRuntime) {
    are_judged(&rt, &EXAMPLES);
}
