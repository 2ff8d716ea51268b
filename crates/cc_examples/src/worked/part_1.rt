//! Some of the worked examples: the name of each, its script, and what this makes the program write.
//!
//! Made by tools/worked_examples.py from examples/worked.txt.

use crate::script::rows_are_answered;

const ROWS: &str = "\
    empty_input||;\
    cascade_of_two|native n0 1\nnative n1 0\nset n0 0 n1\ndrop n1\ndrop n0\n|= #1\n= #2\n= ok\n= ok\n- free #1\n- free #2\n= ok\n;\
    empty_slot_reads_none|native n0 1\nget n1 n0 0\nset n0 0 n0\nget n1 n0 0\ndrop n0\ndrop n1\ncensus\n|= #1\n= none\n= ok\n= #1\n= ok\n= ok\n+ #1\n= census 1\n;\
    self_cycle_outlives_its_register|native n0 1\nset n0 0 n0\ndrop n0\ncensus\n|= #1\n= ok\n= ok\n+ #1\n= census 1\n;\
    self_cycle_is_collected|native n0 1\nset n0 0 n0\ndrop n0\ncensus\ncollect\ncensus\n|= #1\n= ok\n= ok\n+ #1\n= census 1\n- unlink #1\n- free #1\n= ok\n= census 0\n;\
    two_cycle_is_collected|native n0 1\nnative n1 1\nset n0 0 n1\nset n1 0 n0\ndrop n0\ndrop n1\ncollect\n|= #1\n= #2\n= ok\n= ok\n= ok\n= ok\n- unlink #1\n- unlink #2\n- free #1\n- free #2\n= ok\n;\
    held_cycle_is_kept|native n0 1\nnative n1 1\nset n0 0 n1\nset n1 0 n0\ndrop n1\ncollect\ncensus\n|= #1\n= #2\n= ok\n= ok\n= ok\n= ok\n+ #1\n+ #2\n= census 2\n;\
    held_ring_of_three_is_kept|native n0 1\ncopy n1 n0\nnative n2 1\nset n2 0 n1\ncopy n1 n2\nnative n2 1\nset n2 0 n1\ncopy n1 n2\ndrop n2\nset n0 0 n1\ndrop n0\ncollect\ncensus\n|= #1\n= #1\n= #2\n= ok\n= #2\n= #3\n= ok\n= #3\n= ok\n= ok\n= ok\n= ok\n+ #1\n+ #2\n+ #3\n= census 3\n;\
    whites_are_taken_by_rising_number|native n0 1\nnative n1 1\nset n0 0 n1\nset n1 0 n0\ncollect\ndrop n1\ndrop n0\ncollect\n|= #1\n= #2\n= ok\n= ok\n= ok\n= ok\n= ok\n- unlink #1\n- unlink #2\n- free #1\n- free #2\n= ok\n;\
    freed_natives_queue_up|native n0 2\nnative n1 1\nnative n2 0\nnative n3 0\nset n0 0 n1\nset n0 1 n2\nset n1 0 n3\ndrop n1\ndrop n2\ndrop n3\ndrop n0\n|= #1\n= #2\n= #3\n= #4\n= ok\n= ok\n= ok\n= ok\n= ok\n= ok\n- free #1\n- free #2\n- free #3\n- free #4\n= ok\n;\
    slots_are_given_up_in_rising_order|native n0 2\nnative n1 1\nnative n2 1\nnative n3 0\nnative n4 0\nset n0 0 n4\nset n0 1 n1\nset n1 0 n2\nset n2 0 n3\ndrop n1\ndrop n2\ndrop n3\ndrop n4\ndrop n0\n|= #1\n= #2\n= #3\n= #4\n= #5\n= ok\n= ok\n= ok\n= ok\n= ok\n= ok\n= ok\n= ok\n- free #1\n- free #5\n- free #2\n- free #3\n- free #4\n= ok\n;\
    registers_are_copied_and_emptied|native n0 0\nscript s0 0\ncopy n1 n0\ncopy s1 s0\ndrop n0\ndrop s1\ngc\ncopy s0 s1\ndrop n1\ndrop n1\ngc\n|= #1\n= @1\n= #1\n= @1\n= ok\n= ok\n= ok\n= none\n- free #1\n= ok\n= ok\n- free @1\n= ok\n;\
    collections_follow_each_other|native n0 1\nnative n1 1\nset n0 0 n1\nset n1 0 n0\ndrop n0\ndrop n1\ncollect\ncollect\nnative n0 1\nnative n1 1\nset n0 0 n1\nset n1 0 n0\nnative n2 1\nset n2 0 n2\ndrop n0\ndrop n1\ndrop n2\ncollect\ncensus\n|= #1\n= #2\n= ok\n= ok\n= ok\n= ok\n- unlink #1\n- unlink #2\n- free #1\n- free #2\n= ok\n= ok\n= #3\n= #4\n= ok\n= ok\n= #5\n= ok\n= ok\n= ok\n= ok\n- unlink #3\n- unlink #4\n- unlink #5\n- free #3\n- free #4\n- free #5\n= ok\n= census 0\n;\
    script_slots_are_written_and_read|script s0 2\nscript s1 0\nput s0 1 s1\ntake s2 s0 1\ntake s3 s0 0\nput s0 1 none\ntake s2 s0 1\nput s0 2 s1\nput s0 0 s9\nput s9 0 s1\ntake s1 s9 0\ncensus\n|= @1\n= @2\n= ok\n= @2\n= none\n= ok\n= none\n! slot\n! empty\n! empty\n! empty\n+ @1\n+ @2\n= census 2\n;\
    empty_source_of_put_is_refused|script s0 1\nscript s1 0\nput s0 0 s1\nput s0 0 s9\ntake s2 s0 0\n|= @1\n= @2\n= ok\n! empty\n= @2\n;\
    wrong_kinds_in_slots|native n0 2\nnative n1 0\nscript s0 1\nset n0 0 n1\nset n0 1 s0\nget s1 n0 0\nget n2 n0 1\nget s1 n0 7\nexpose n0 0\nexpose n0 1\nexpose n0 2\nexpose n3 0\n|= #1\n= #2\n= @1\n= ok\n= ok\n! kind\n! kind\n! slot\n! kind\n= @1\n! slot\n! empty\n;\
    native_keeps_what_it_holds|native n0 1\nscript s0 1\nscript s1 0\nput s0 0 s1\nset n0 0 s0\ndrop s0\ndrop s1\ngc\nget s1 n0 0\ndrop n0\ndrop s1\ngc\n|= #1\n= @1\n= @2\n= ok\n= ok\n= ok\n= ok\n= ok\n= @1\n- free #1\n= ok\n= ok\n- free @1\n- free @2\n= ok\n;\
    number_of_a_freed_script_object_is_never_used_again|script s0 0\nscript s1 0\ndrop s0\ngc\nscript s0 1\ncensus\nput s0 0 s1\ntake s2 s0 0\n|= @1\n= @2\n= ok\n- free @1\n= ok\n= @3\n+ @2\n+ @3\n= census 2\n= ok\n= @2\n;\
    gray_cycle_through_a_slot_is_exposed|native n0 1\nscript s0 1\nput s0 0 s0\nset n0 0 s0\ndrop s0\ngc\nexpose n0 0\ncopy s1 s0\ncollect\nget s1 n0 0\ndrop n0\ngc\ncensus\n|= #1\n= @1\n= ok\n= ok\n= ok\n= ok\n= @1\n= none\n= ok\n= @1\n- free #1\n= ok\n= ok\n+ @1\n= census 1\n;\
    native_cycle_that_holds_script_objects_is_collected|native n0 2\nscript s0 1\nscript s1 0\nput s0 0 s1\nset n0 0 n0\nset n0 1 s0\ndrop s0\ndrop s1\ngc\ndrop n0\ncollect\ngc\ncensus\n|= #1\n= @1\n= @2\n= ok\n= ok\n= ok\n= ok\n= ok\n= ok\n= ok\n- unlink #1\n- free #1\n= ok\n- free @1\n- free @2\n= ok\n= census 0\n;\
    what_nothing_holds_is_freed_once|script s0 1\nscript s1 0\nput s0 0 s1\nscript s1 0\ndrop s1\ngc\ngc\n|= @1\n= @2\n= ok\n= @3\n= ok\n- free @3\n= ok\n= ok\n;\
    native_keeps_what_each_slot_holds_and_its_reflector|native n0 2\nscript s0 0\nset n0 0 s0\nscript s0 0\nset n0 1 s0\nwrap s0 n0\npreserve s0\nscript s0 0\ndrop s0\ngc\ncensus\n|= #1\n= @1\n= ok\n= @2\n= ok\n= ~1\n= ok\n= @3\n= ok\n- free @3\n= ok\n+ #1\n+ @1\n+ @2\n+ ~1\n= census 4\n;\
    reflector_has_four_slots|native n0 0\nwrap s0 n0\nscript s1 0\nput s0 3 s1\nput s0 4 s1\ntake s2 s0 3\ntake s2 s0 4\n|= #1\n= ~1\n= @1\n= ok\n! slot\n= @1\n! slot\n;\
    reflector_is_still_black|native n0 1\nwrap s0 n0\nset n0 0 s0\ndrop s0\ndrop n0\ncollect\ncensus\n|= #1\n= ~1\n= ok\n= ok\n= ok\n= ok\n+ #1\n+ ~1\n= census 2\n;\
    cycle_through_a_reflector|native n0 1\nwrap s0 n0\nset n0 0 s0\ndrop s0\ndrop n0\ncollect\ncensus\ngc\ncollect\ngc\ncensus\n|= #1\n= ~1\n= ok\n= ok\n= ok\n= ok\n+ #1\n+ ~1\n= census 2\n= ok\n- unlink #1\n= ok\n- free ~1\n- free #1\n= ok\n= census 0\n;\
    reflector_made_again_is_listed_last|native n0 0\nwrap s0 n0\nscript s1 0\ndrop s0\ngc\nwrap s0 n0\ncensus\n|= #1\n= ~1\n= @1\n= ok\n- free ~1\n= ok\n= ~1\n+ #1\n+ @1\n+ ~1\n= census 3\n;\
    written_reflector_is_preserved|native n0 0\nwrap s0 n0\nscript s1 0\nput s0 2 s1\ndrop s1\ndrop s0\ngc\nwrap s0 n0\ntake s1 s0 2\n|= #1\n= ~1\n= @1\n= ok\n= ok\n= ok\n= ok\n= ~1\n= @1\n;\
    gc_sweeps_three_rounds|native n0 1\nnative n1 1\nscript s0 0\nset n1 0 s0\nwrap s1 n1\nset n0 0 s1\nwrap s2 n0\ndrop s0\ndrop s1\ndrop s2\ndrop n0\ndrop n1\ngc\n|= #1\n= #2\n= @1\n= ok\n= ~2\n= ok\n= ~1\n= ok\n= ok\n= ok\n= ok\n= ok\n- free ~1\n- free #1\n- free ~2\n- free #2\n- free @1\n= ok\n;\
    exposed_reflector_waits_for_gc|native n0 1\nwrap s0 n0\nset n0 0 s0\ndrop s0\ngc\nexpose n0 0\ndrop n0\ncollect\ngc\ncollect\ngc\n|= #1\n= ~1\n= ok\n= ok\n= ok\n= ~1\n= ok\n= ok\n= ok\n- unlink #1\n= ok\n- free ~1\n- free #1\n= ok\n;\
    preserved_reflector_is_collected|native n0 0\nwrap s0 n0\npreserve s0\ndrop s0\ngc\ndrop n0\ngc\ncollect\ngc\n|= #1\n= ~1\n= ok\n= ok\n= ok\n= ok\n= ok\n- unlink #1\n= ok\n- free ~1\n- free #1\n= ok\n;\
    cycle_of_two_natives_and_three_script_objects|native n0 1\nnative n1 1\nwrap s0 n0\nwrap s1 n1\nscript s2 1\nset n0 0 s2\nput s2 0 s1\nset n1 0 s0\ndrop s0\ndrop s1\ndrop s2\ndrop n0\ndrop n1\ngc\ncensus\ncollect\ngc\ncensus\n|= #1\n= #2\n= ~1\n= ~2\n= @1\n= ok\n= ok\n= ok\n= ok\n= ok\n= ok\n= ok\n= ok\n= ok\n+ #1\n+ #2\n+ ~1\n+ ~2\n+ @1\n= census 5\n- unlink #1\n- unlink #2\n= ok\n- free ~1\n- free #1\n- free ~2\n- free #2\n- free @1\n= ok\n= census 0\n;\
    what_is_no_reflector_is_refused|script s0 1\nunwrap n0 s0\npreserve s0\nunwrap n0 s9\npreserve s9\nnative n0 0\nunwrap n1 s9\nwrap s1 n5\nwrap s1 n0\nunwrap n1 s1\npreserve s1\ncensus\n|= @1\n! kind\n! kind\n! empty\n! empty\n= #1\n! empty\n! empty\n= ~1\n= #1\n= ok\n+ #1\n+ @1\n+ ~1\n= census 3\n;\
    reflector_made_again_is_blank|native n0 1\nwrap s0 n0\nscript s1 0\ndrop s0\ngc\nwrap s0 n0\ntake s2 s0 0\ntake s2 s0 3\ntake s2 s0 4\ndrop n0\ndrop s0\ngc\n|= #1\n= ~1\n= @1\n= ok\n- free ~1\n= ok\n= ~1\n= none\n= none\n! slot\n= ok\n= ok\n- free ~1\n- free #1\n= ok\n;\
    native_is_freed_before_the_next_object_is_swept|native n0 0\nwrap s0 n0\nscript s1 0\ndrop n0\ndrop s0\ndrop s1\ngc\n|= #1\n= ~1\n= @1\n= ok\n= ok\n= ok\n- free ~1\n- free #1\n- free @1\n= ok\n;\
    native_has_one_reflector|native n0 0\nwrap s0 n0\nwrap s1 n0\ndrop n0\ndrop s0\ngc\nunwrap n1 s1\ncensus\n|= #1\n= ~1\n= ~1\n= ok\n= ok\n= ok\n= #1\n+ #1\n+ ~1\n= census 2\n;\
    reflector_made_again_is_preserved|native n0 0\nwrap s0 n0\ndrop s0\ngc\nwrap s0 n0\npreserve s0\ndrop s0\ngc\ncensus\n|= #1\n= ~1\n= ok\n- free ~1\n= ok\n= ~1\n= ok\n= ok\n= ok\n+ #1\n+ ~1\n= census 2\n;\
    emptied_slot_preserves_its_reflector|native n0 0\nwrap s0 n0\nput s0 3 none\ndrop s0\ngc\ncensus\n|= #1\n= ~1\n= ok\n= ok\n= ok\n+ #1\n+ ~1\n= census 2\n;\
    refused_put_preserves_nothing|native n0 0\nwrap s0 n0\nput s0 4 s0\nput s0 4 none\nput s0 4 s9\ndrop s0\ngc\ncensus\n|= #1\n= ~1\n! slot\n! slot\n! empty\n= ok\n- free ~1\n= ok\n+ #1\n= census 1\n;\
    stored_reflector_is_not_preserved|native n0 0\nwrap s0 n0\nscript s1 1\nput s1 0 s0\nweakmap s2\nwset s2 s1 s0\ndrop s0\ndrop s1\ngc\ncensus\n|= #1\n= ~1\n= @1\n= ok\n= @2\n= ok\n= ok\n= ok\n- free ~1\n- free @1\n= ok\n+ #1\n+ @2\n= census 2\n;\
    entry_does_not_keep_its_key|weakmap s0\nscript s1 1\nscript s2 1\nput s2 0 s1\nwset s0 s1 s2\ndrop s1\ndrop s2\ngc\ncensus\n|= @1\n= @2\n= @3\n= ok\n= ok\n= ok\n= ok\n- free @2\n- free @3\n= ok\n+ @1\n= census 1\n;\
    entry_preserves_its_reflector_key|native n0 0\nwrap s1 n0\nweakmap s0\nscript s2 0\nwset s0 s1 s2\ndrop s1\ndrop s2\ngc\nwrap s1 n0\nwget s2 s0 s1\n|= #1\n= ~1\n= @1\n= @2\n= ok\n= ok\n= ok\n= ok\n= ~1\n= @2\n;\
    cycle_through_an_entry|native n0 0\nwrap s1 n0\nweakmap s0\nscript s2 1\nput s2 0 s1\nwset s0 s1 s2\ndrop n0\ndrop s1\ndrop s2\ngc\ncollect\ngc\ncensus\n|= #1\n= ~1\n= @1\n= @2\n= ok\n= ok\n= ok\n= ok\n= ok\n= ok\n- unlink #1\n= ok\n- free ~1\n- free #1\n- free @2\n= ok\n+ @1\n= census 1\n;\
    value_lives_by_its_mapping|native n0 1\nnative n1 0\nweakmap s0\nscript s1 0\nscript s2 1\nwrap s3 n1\nput s2 0 s3\nset n0 0 s1\nwset s0 s1 s2\ndrop s1\ndrop s2\ndrop s3\ndrop n1\ngc\ncollect\nget s1 n0 0\nwget s2 s0 s1\ntake s3 s2 0\nunwrap n1 s3\n|= #1\n= #2\n= @1\n= @2\n= @3\n= ~2\n= ok\n= ok\n= ok\n= ok\n= ok\n= ok\n= ok\n= ok\n= ok\n= @2\n= @3\n= ~2\n= #2\n;\
    entries_are_replaced_and_taken_out|native n0 0\nnative n0 0\nweakmap s0\nscript s1 0\nscript s2 0\nwset s0 s1 s2\nwset s0 s1 s1\nwget s3 s0 s1\nwset s0 s1 none\nwget s3 s0 s1\ncopy s3 s3\ndrop s2\ngc\n|= #1\n- free #1\n= #2\n= @1\n= @2\n= @3\n= ok\n= ok\n= @2\n= ok\n= none\n= none\n= ok\n- free @3\n= ok\n;\
    weak_map_has_no_slot_to_read|weakmap s0\ntake s1 s0 0\n|= @1\n! kind\n;\
    empty_key_is_refused|weakmap s0\nwget s1 s0 s9\nwget s1 s0 s0\n|= @1\n! empty\n= none\n;\
    weak_map_has_no_slot_to_write|weakmap s0\nput s0 0 s0\nput s0 0 none\nput s0 0 s9\nput s9 0 s0\ntake s1 s0 64\n|= @1\n! kind\n! kind\n! empty\n! empty\n! kind\n;\
    map_reached_through_an_entry_alone|weakmap s0\nweakmap s1\nscript s2 0\nscript s3 0\nscript s4 0\nwset s0 s2 s1\nwset s1 s3 s4\ndrop s1\ndrop s4\ngc\nwget s1 s0 s2\nwget s4 s1 s3\ndrop s1\ndrop s4\nwset s0 s2 none\ngc\ncensus\n|= @1\n= @2\n= @3\n= @4\n= @5\n= ok\n= ok\n= ok\n= ok\n= ok\n= @2\n= @5\n= ok\n= ok\n= ok\n- free @2\n- free @5\n= ok\n+ @1\n+ @3\n+ @4\n= census 3\n;\
    entry_goes_with_its_map|weakmap s0\nscript s1 0\nscript s2 0\nwset s0 s1 s2\ndrop s0\ngc\nweakmap s0\nwget s3 s0 s1\ncensus\n|= @1\n= @2\n= @3\n= ok\n= ok\n- free @1\n= ok\n= @4\n= none\n+ @2\n+ @3\n+ @4\n= census 3\n;\
    map_is_its_own_key|weakmap s0\nscript s1 0\nwset s0 s0 s1\ndrop s1\ngc\nwget s1 s0 s0\ndrop s1\ndrop s0\ngc\n|= @1\n= @2\n= ok\n= ok\n= ok\n= @2\n= ok\n= ok\n- free @1\n- free @2\n= ok\n;\
    map_is_a_value_of_its_own|weakmap s0\nscript s1 0\nwset s0 s1 s0\nwget s2 s0 s1\ndrop s2\ndrop s0\ngc\ncensus\n|= @1\n= @2\n= ok\n= @1\n= ok\n= ok\n- free @1\n= ok\n+ @2\n= census 1\n;\
    two_entries_have_one_value|weakmap s0\nscript s1 0\nscript s2 0\nscript s3 0\nwset s0 s1 s3\nwset s0 s2 s3\ndrop s3\ndrop s1\ngc\nwget s3 s0 s2\ndrop s3\ndrop s2\ngc\n|= @1\n= @2\n= @3\n= @4\n= ok\n= ok\n= ok\n= ok\n- free @2\n= ok\n= @4\n= ok\n= ok\n- free @3\n- free @4\n= ok\n";

#[test]
fn worked_examples_are_answered(rt: HostRuntime) {
    rows_are_answered(&rt, ROWS);
}
