//! Some of the worked examples: the name of each, its script, and what this makes the program write.
//!
//! Made by tools/worked_examples.py from examples/worked.txt.

use crate::script::rows_are_answered;

const ROWS: &str = "\
    delegate_is_scanned|version 2\nweakmap s2\nproxy s1 s2\ncopy s2 s3\nmark 1\nmark 1\nmark 9\ncensus\n|= ok\n= @1\n= @2\n= none\n= ok\n= ok\n= ok\n+ @1\n+ @2\n= census 2\n;\
    proxy_key_stays_at_the_end|version 2\nweakmap s0\nscript s3 1\nproxy s1 s3\nscript s2 2\nwset s0 s1 s2\ndrop s1\nmark 3\nmark 3\ndrop s2\ndrop s3\nmark 9\ncensus\n|= ok\n= @1\n= @2\n= @3\n= @4\n= ok\n= ok\n= ok\n= ok\n= ok\n= ok\n- free @2\n- free @3\n- free @4\n= ok\n+ @1\n= census 1\n;\
    reflector_is_wrapped_again|version 2\nnative n0 0\nwrap s0 n0\ndrop s0\nmark 9\nmark 1\nwrap s1 n0\ndrop s1\nmark 9\ncensus\nmark 9\n|= ok\n= #1\n= ~1\n= ok\n- free ~1\n= ok\n= ok\n= ~1\n= ok\n= ok\n+ #1\n+ ~1\n= census 2\n- free ~1\n= ok\n;\
    reflector_without_a_mark_is_wrapped|version 2\nnative n0 0\nwrap s0 n0\ndrop s0\nmark 1\nwrap s1 n0\ndrop s1\nmark 9\ncensus\nmark 9\n|= ok\n= #1\n= ~1\n= ok\n= ok\n= ~1\n= ok\n= ok\n+ #1\n+ ~1\n= census 2\n- free ~1\n= ok\n;\
    marked_reflector_gives_up_its_native|version 2\nnative n0 0\nwrap s0 n0\nnative n1 1\nset n1 0 n0\ndrop n0\ndrop s0\nmark 9\nwrap s0 n0\nget n0 n1 0\nwrap s0 n0\ndrop n0\ndrop n1\ndrop s0\ncensus\nmark 9\ncensus\n|= ok\n= #1\n= ~1\n= #2\n= ok\n= ok\n= ok\n- free ~1\n= ok\n! empty\n= #1\n= ~1\n= ok\n- free #2\n= ok\n= ok\n+ #1\n+ ~1\n= census 2\n- free ~1\n- free #1\n= ok\n= census 0\n;\
    colours_of_a_marking_serve_a_collection|version 2\nnative n0 1\nscript s0 1\nwrap s1 n0\nput s0 0 s1\nset n0 0 s0\ndrop n0\ndrop s0\ndrop s1\ncollect\ncensus\nmark 9\ncollect\ncensus\nmark 9\ncensus\n|= ok\n= #1\n= @1\n= ~1\n= ok\n= ok\n= ok\n= ok\n= ok\n= ok\n+ #1\n+ @1\n+ ~1\n= census 3\n= ok\n- unlink #1\n= ok\n+ #1\n+ @1\n+ ~1\n= census 3\n- free @1\n- free ~1\n- free #1\n= ok\n= census 0\n;\
    gc_drops_a_marking|version 2\nscript s0 1\nscript s1 0\nput s0 0 s1\ndrop s1\nmark 2\nscript s2 0\ndrop s2\nput s0 0 none\ngc\nscript s3 0\ndrop s3\nmark 1\nmark 9\ncensus\n|= ok\n= @1\n= @2\n= ok\n= ok\n= ok\n= @3\n= ok\n= ok\n- free @2\n- free @3\n= ok\n= @4\n= ok\n= ok\n- free @4\n= ok\n+ @1\n= census 1\n;\
    collect_ends_a_marking_first|version 2\nscript s0 1\nput s0 0 s0\ndrop s0\nnative n0 1\nset n0 0 n0\ndrop n0\nmark 1\ncollect\ncensus\n|= ok\n= @1\n= ok\n= ok\n= #1\n= ok\n= ok\n= ok\n- free @1\n- unlink #1\n- free #1\n= ok\n= census 0\n;\
    marking_ends_outside_the_units_of_a_slice|version 2\nnative n0 1\nset n0 0 n0\ndrop n0\nscript s0 1\nscript s1 1\nscript s2 0\nput s1 0 s2\nput s0 0 s1\ndrop s1\ndrop s2\nmark 1\nslice 2\nslice 1\n|= ok\n= #1\n= ok\n= ok\n= @1\n= @2\n= @3\n= ok\n= ok\n= ok\n= ok\n= ok\n= ok\n- unlink #1\n- free #1\n= ok\n;\
    mark_ends_a_running_collection|version 2\nnative n0 1\nset n0 0 n0\ndrop n0\nscript s0 0\ndrop s0\nslice 1\nmark 1\nslice 1\ncensus\n|= ok\n= #1\n= ok\n= ok\n= @1\n= ok\n= ok\n- unlink #1\n- free #1\n= ok\n- free @1\n= ok\n= census 0\n;\
    marking_beside_weak_registers|version 2\nnative n0 2\nset n0 0 n0\nscript s0 1\nscript s1 0\nput s0 0 s1\nset n0 1 s0\nweak w0 n0\ndrop n0\ndrop s0\ndrop s1\nmark 1\nderef n1 w0\nget s0 n1 1\nset n1 1 none\ndrop n1\nmark 9\ncollect\ncensus\ndrop s0\nmark 9\n|= ok\n= #1\n= ok\n= @1\n= @2\n= ok\n= ok\n= #1\n= ok\n= ok\n= ok\n= ok\n= #1\n= @1\n= ok\n= ok\n= ok\n- unlink #1\n- free #1\n= ok\n+ @1\n+ @2\n= census 2\n= ok\n- free @1\n- free @2\n= ok\n;\
    marking_beside_why_and_forget|version 2\nnative n0 0\ncopy n1 n0\ndrop n1\nscript s0 1\nscript s1 0\nput s0 0 s1\ndrop s1\nscript s2 0\ndrop s2\nmark 2\ncensus\nwhy @2\nforget\nput s0 1 s0\nmark 0\n% mark 1\nmark 1\nmark 1\ncensus\n|= ok\n= #1\n= #1\n= ok\n= @1\n= @2\n= ok\n= ok\n= @3\n= ok\n= ok\n+ #1\n+ @1\n+ @2\n+ @3\n= census 4\n: @1 s0\n: @2 @1\n= ok\n= ok\n! slot\n! line\n= ok\n- free @3\n= ok\n+ #1\n+ @1\n+ @2\n= census 3\n;\
    marking_before_a_quiet_census|version 2\nnative n0 1\nwrap s0 n0\nset n0 0 s0\nscript s1 1\nput s1 0 s0\ndrop s0\ndrop s1\ndrop n0\nmark 2\ngc\ncollect\ngc\ncensus\nmark 9\n|= ok\n= #1\n= ~1\n= ok\n= @1\n= ok\n= ok\n= ok\n= ok\n= ok\n- free @1\n= ok\n- unlink #1\n= ok\n- free ~1\n- free #1\n= ok\n= census 0\n= ok\n;\
    refused_forms_of_mark|version 2\nmark\nmark 0\nmark 1000001\nmark 01\nmark n0\nmark s0\nmark none\nmark -1\nmark 1 1\nmark 1n\nmarks 1\nMark 1\nmar 1\nmark\t1\nmark 4294967297\nmark 1000000\n  mark   1  \nmark 1\r\nmark 1 % units\n|= ok\n! line\n! line\n! line\n! line\n! line\n! line\n! line\n! line\n! line\n! line\n! line\n! line\n! line\n! line\n! line\n= ok\n= ok\n= ok\n! line\n;\
    mark_is_a_word_of_version_2|mark 1\nversion 2\nscript s0 0\nmark 1\ndrop s0\nmark 9\ngc\n|! line\n! line\n= @1\n! line\n= ok\n! line\n- free @1\n= ok\n";

#[test]
fn worked_examples_are_answered(rt: HostRuntime) {
    rows_are_answered(&rt, ROWS);
}
