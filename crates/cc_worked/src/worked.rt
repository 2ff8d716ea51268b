//! Examples whose theorems are clauses: what they write, and that their runs are lawful and quiet.

ghost use Rattle.std.specs.Prelude.{◌≡◌, ◌++◌, codes};
ghost use Rattle.cc_model.specs.Run.{plain_text};
ghost use Rattle.cc_worked.specs.Examples.{IsLawfulRun, IsQuietRun, ample, default_limits, refused_at};
ghost use Rattle.cc_worked.specs.Inputs.{cascade_of_two, collect_ends_a_marking_first, collect_refused_at_a_node, cycle_through_a_proxy_key, cycle_through_a_reflector, cycle_through_an_entry, cycle_through_an_entry_is_told_once, delegate_read_after_its_mapping_was_noted, entry_does_not_keep_its_key, gc_sweeps_three_rounds, gray_by_the_new_mark_is_exposed, last_register_and_last_slot_move, mark_with_a_refused_collection, marking_before_a_quiet_census, moved_forth_and_back_between_slices, moved_to_a_native_that_is_yet_to_be_traversed, native_lives_by_a_moved_reflector, native_lives_by_an_exposed_reflector, object_read_between_units_is_kept, proxy_key_lives_as_long_as_map_and_delegate, proxy_key_stays_at_the_end, read_between_slices, refusals_and_odd_lines, refused_why_leaves_the_collection, self_cycle_is_collected, self_cycle_outlives_its_register, slice_ends_a_marking_and_is_refused, slice_ends_a_marking_first, steps_through_both_heaps, steps_to_a_proxy_key, steps_to_a_value, swept_reflector_follows_from_nothing, tail_moves_in_front_of_the_scan, touched_between_slices, two_cycle_takes_four_units, value_lives_by_a_moved_key, value_lives_by_its_mapping, why_between_slices, why_of_a_freed_candidate};

/// What these examples write.
pub fn examples_write_their_lines()
    ensures self_cycle_is_collected { plain_text default_limits ample self_cycle_is_collected
        ≡ codes "= #1\n= ok\n= ok\n+ #1\n= census 1\n- unlink #1\n- free #1\n= ok\n= census 0\n" }
    ensures touched_between_slices { plain_text default_limits ample touched_between_slices
        ≡ codes "= #1\n= ok\n= #1\n= ok\n= ok\n= #1\n= ok\n= ok\n= ok\n- unlink #1\n- free #1\n= ok\n" }
    ensures value_lives_by_its_mapping { plain_text default_limits ample value_lives_by_its_mapping
        ≡ codes "= #1\n= #2\n= @1\n= @2\n= @3\n= ~2\n= ok\n= ok\n= ok\n"
        ++ codes "= ok\n= ok\n= ok\n= ok\n= ok\n= ok\n= @2\n= @3\n= ~2\n= #2\n" }
    ensures cycle_through_a_proxy_key { plain_text default_limits ample cycle_through_a_proxy_key
        ≡ codes "= #1\n= ~1\n= @1\n= @2\n= @3\n= ok\n= ok\n= ok\n= ok\n= ok\n= ok\n= ok\n"
        ++ codes "- unlink #1\n= ok\n- free ~1\n- free #1\n- free @2\n- free @3\n= ok\n" }
    ensures moved_to_a_native_that_is_yet_to_be_traversed { plain_text default_limits ample moved_to_a_native_that_is_yet_to_be_traversed
        ≡ codes "= ok\n= #1\n= #2\n= ok\n= ok\n= #1\n= ok\n= #2\n= ok\n= ok\n= #2\n= #1\n= ok\n= #2\n= #1\n+ #1\n+ #2\n= census 2\n"
        ++ codes "= ok\n= ok\n= ok\n= ok\n- unlink #1\n- unlink #2\n- free #1\n- free #2\n= ok\n" }
    ensures steps_to_a_proxy_key { plain_text default_limits ample steps_to_a_proxy_key
        ≡ codes "= ok\n= @1\n= @2\n= @3\n= @4\n= ok\n= ok\n= ok\n: @1 s0\n: @2 s1\n: @3 @1 @2\n= ok\n: @1 s0\n"
        ++ codes ": @2 s1\n: @3 @1 @2\n: @4 @1 @3\n= ok\n= ok\n= none\n= none\n= none\n- free @2\n- free @3\n- free @4\n= ok\n= none\n" }
    ensures steps_through_both_heaps { plain_text default_limits ample steps_through_both_heaps
        ≡ codes "= ok\n= #1\n= #2\n= #3\n= @1\n= ~2\n= ok\n= ok\n= ok\n= ok\n= ok\n= ok\n= ok\n: #1 n0\n: @1 #1\n"
        ++ codes ": ~2 @1\n: #2 ~2\n: #3 #2\n= ok\n: #1 n0\n: @1 #1\n= ok\n= ok\n= ok\n: #1 n0\n: @1 #1\n: ~2 @1\n: #2 ~2\n: #3 #2\n= ok\n" }
    ensures object_read_between_units_is_kept { plain_text default_limits ample object_read_between_units_is_kept
        ≡ codes "= ok\n= @1\n= @2\n= ok\n= ok\n= @3\n= ok\n= ok\n= @2\n= ok\n- free @3\n= ok\n" }
    ensures slice_ends_a_marking_first { plain_text default_limits ample slice_ends_a_marking_first
        ≡ codes "= ok\n= @1\n= ok\n= ok\n- free @1\n= ok\n" }
    ensures proxy_key_stays_at_the_end { plain_text default_limits ample proxy_key_stays_at_the_end
        ≡ codes "= ok\n= @1\n= @2\n= @3\n= @4\n= ok\n= ok\n= ok\n= ok\n= ok\n= ok\n- free @2\n- free @3\n- free @4\n= ok\n+ @1\n= census 1\n" }
{}

/// The plain run of each of these examples is a transcript of an object graph from which nothing is freed.
pub fn examples_are_lawful()
    ensures cascade_of_two { IsLawfulRun default_limits ample cascade_of_two }
    ensures self_cycle_outlives_its_register { IsLawfulRun default_limits ample self_cycle_outlives_its_register }
    ensures self_cycle_is_collected { IsLawfulRun default_limits ample self_cycle_is_collected }
    ensures two_cycle_takes_four_units { IsLawfulRun default_limits ample two_cycle_takes_four_units }
    ensures touched_between_slices { IsLawfulRun default_limits ample touched_between_slices }
    ensures read_between_slices { IsLawfulRun default_limits ample read_between_slices }
    ensures native_lives_by_an_exposed_reflector { IsLawfulRun default_limits ample native_lives_by_an_exposed_reflector }
    ensures cycle_through_a_reflector { IsLawfulRun default_limits ample cycle_through_a_reflector }
    ensures gc_sweeps_three_rounds { IsLawfulRun default_limits ample gc_sweeps_three_rounds }
    ensures entry_does_not_keep_its_key { IsLawfulRun default_limits ample entry_does_not_keep_its_key }
    ensures cycle_through_an_entry { IsLawfulRun default_limits ample cycle_through_an_entry }
    ensures value_lives_by_its_mapping { IsLawfulRun default_limits ample value_lives_by_its_mapping }
    ensures proxy_key_lives_as_long_as_map_and_delegate { IsLawfulRun default_limits ample proxy_key_lives_as_long_as_map_and_delegate }
    ensures cycle_through_a_proxy_key { IsLawfulRun default_limits ample cycle_through_a_proxy_key }
    ensures delegate_read_after_its_mapping_was_noted { IsLawfulRun default_limits ample delegate_read_after_its_mapping_was_noted }
    ensures last_register_and_last_slot_move { IsLawfulRun default_limits ample last_register_and_last_slot_move }
    ensures moved_to_a_native_that_is_yet_to_be_traversed { IsLawfulRun default_limits ample moved_to_a_native_that_is_yet_to_be_traversed }
    ensures moved_forth_and_back_between_slices { IsLawfulRun default_limits ample moved_forth_and_back_between_slices }
    ensures native_lives_by_a_moved_reflector { IsLawfulRun default_limits ample native_lives_by_a_moved_reflector }
    ensures value_lives_by_a_moved_key { IsLawfulRun default_limits ample value_lives_by_a_moved_key }
    ensures refusals_and_odd_lines { IsLawfulRun default_limits ample refusals_and_odd_lines }
    ensures collect_refused_at_a_node { IsLawfulRun default_limits (refused_at 3) collect_refused_at_a_node }
    ensures steps_to_a_value { IsLawfulRun default_limits ample steps_to_a_value }
    ensures steps_through_both_heaps { IsLawfulRun default_limits ample steps_through_both_heaps }
    ensures steps_to_a_proxy_key { IsLawfulRun default_limits ample steps_to_a_proxy_key }
    ensures cycle_through_an_entry_is_told_once { IsLawfulRun default_limits ample cycle_through_an_entry_is_told_once }
    ensures swept_reflector_follows_from_nothing { IsLawfulRun default_limits ample swept_reflector_follows_from_nothing }
    ensures why_between_slices { IsLawfulRun default_limits ample why_between_slices }
    ensures why_of_a_freed_candidate { IsLawfulRun default_limits ample why_of_a_freed_candidate }
    ensures refused_why_leaves_the_collection { IsLawfulRun default_limits (refused_at 3) refused_why_leaves_the_collection }
    ensures object_read_between_units_is_kept { IsLawfulRun default_limits ample object_read_between_units_is_kept }
    ensures slice_ends_a_marking_first { IsLawfulRun default_limits ample slice_ends_a_marking_first }
    ensures gray_by_the_new_mark_is_exposed { IsLawfulRun default_limits ample gray_by_the_new_mark_is_exposed }
    ensures tail_moves_in_front_of_the_scan { IsLawfulRun default_limits ample tail_moves_in_front_of_the_scan }
    ensures collect_ends_a_marking_first { IsLawfulRun default_limits ample collect_ends_a_marking_first }
    ensures proxy_key_stays_at_the_end { IsLawfulRun default_limits ample proxy_key_stays_at_the_end }
    ensures mark_with_a_refused_collection { IsLawfulRun default_limits (refused_at 5) mark_with_a_refused_collection }
    ensures slice_ends_a_marking_and_is_refused { IsLawfulRun default_limits (refused_at 3) slice_ends_a_marking_and_is_refused }
{}

/// The censuses of these examples stand behind `gc`, `collect` and `gc`, and list exactly what is reached.
pub fn examples_are_quiet()
    ensures cycle_through_a_reflector { IsQuietRun default_limits ample cycle_through_a_reflector }
    ensures cycle_through_an_entry { IsQuietRun default_limits ample cycle_through_an_entry }
    ensures delegate_read_after_its_mapping_was_noted { IsQuietRun default_limits ample delegate_read_after_its_mapping_was_noted }
    ensures collect_refused_at_a_node { IsQuietRun default_limits (refused_at 3) collect_refused_at_a_node }
    ensures marking_before_a_quiet_census { IsQuietRun default_limits ample marking_before_a_quiet_census }
{}
