//! Transcripts that the definition of lawful refuses, each for one fault in its last answer; each clause of the
//! definition refuses one. `IsUnlawfulAtItsEnd` says that all is right without the last answer, and that with it the
//! transcript is quiet and not lawful.

ghost use Rattle.cc_worked.specs.Transcripts.{IsUnlawfulAtItsEnd};
ghost use Rattle.cc_worked.specs.WrongReplies.{missing_answer, answer_to_nothing_asked, no_reply, names_listed_by_a_drop, long_line_called_bad, bad_line_called_long, event_under_a_long_line, event_under_a_bad_line, blank_line_is_answered, comment_is_answered, event_under_a_blank_line, version_two_is_refused, version_two_is_taken_twice, version_two_is_taken_behind_a_long_line, mark_is_taken_in_version_one, mark_is_refused_in_version_two, mark_of_no_units_is_taken, wide_register_is_taken_in_version_one, wide_register_is_refused_in_version_two, another_reply, number_used_again, number_left_out, number_taken_without_memory, slot_is_read_as_empty, refused_without_cause, done_in_place_of_a_refusal, refused_for_another_cause, taken_out_entry_is_read, entry_of_another_map_is_taken_out, entry_of_another_key_is_taken_out, slot_of_a_proxy_is_read, proxy_is_taken_for_a_map, moved_native_is_not_named, moved_native_is_read_where_it_was, native_moved_onto_itself_is_lost, copy_of_a_native_wants_memory, copy_of_a_script_object_wants_memory, drop_wants_memory, set_wants_memory, get_wants_memory, put_wants_memory, take_wants_memory, wrap_of_a_listed_reflector_wants_memory, unwrap_wants_memory, preserve_wants_memory, replaced_entry_wants_memory, taken_out_entry_wants_memory, wget_wants_memory, expose_wants_memory, gc_wants_memory, mark_wants_memory, move_wants_memory, version_wants_memory, refused_wrap_wants_memory, refused_wset_wants_memory, refused_proxy_wants_memory, full_in_place_of_want_of_memory, census_leaves_one_out, census_lists_what_was_freed, census_lists_what_was_not_made, census_lists_script_objects_first, census_lists_in_falling_order, census_lists_a_reflector_in_its_old_place, census_lists_a_wrapped_reflector_last, census_lists_a_reflector_twice, census_tells_another_number, census_tells_no_number, freed_by_a_census};
ghost use Rattle.cc_worked.specs.WrongPaths.{steps_in_another_order, members_in_another_order, first_step_is_left_out, last_step_is_left_out, step_of_the_key_is_left_out, all_steps_are_left_out, step_goes_on, step_leads_elsewhere, step_is_told_twice, follows_from_the_second_register, follows_from_the_other_bank, follows_from_the_second_holder, follows_from_itself, key_is_told_for_the_map, value_follows_from_its_map, value_follows_without_its_key, proxy_key_follows_from_its_value, reached_object_follows_from_nothing, path_to_nothing, unreached_object_is_found, swept_reflector_is_found, name_never_made_is_refused, why_answers_with_a_name, path_without_a_reply, path_without_memory, names_listed_by_why, step_told_by_a_drop, step_told_by_a_census, step_under_a_blank_line, step_under_a_bad_line, number_zero_follows_from_nothing, path_in_version_one, path_is_refused_in_version_two, freed_by_why, freed_by_why_of_itself, why_abandons};
ghost use Rattle.cc_worked.specs.WrongEvents.{freed_by_a_refused_command, freed_without_memory, freed_before_it_was_made, freed_twice, freed_again, freed_while_a_register_holds_it, freed_while_a_slot_holds_it, freed_while_its_reflector_is_held, preserved_reflector_is_freed, reflector_with_an_emptied_slot_is_freed, reflector_that_is_a_key_is_freed, value_is_freed_while_map_and_key_are_held, reflector_that_is_a_delegate_is_freed, delegate_is_freed_while_its_proxy_is_held, proxy_key_is_freed_while_map_and_delegate_are_held, value_of_a_proxy_key_is_freed_while_map_and_delegate_are_held, script_object_is_freed_by_a_drop, reflector_is_freed_by_a_drop, script_object_is_freed_by_a_put, script_object_is_freed_by_the_making_of_another, script_object_is_freed_by_forget, script_object_is_freed_by_a_slice_while_a_native_holds_it, value_is_freed_by_a_collect_while_map_and_key_are_held, script_object_is_freed_by_mark_while_held, script_object_freed_by_mark_is_freed_again, unlinked_before_it_was_made, unlinked_after_it_was_freed, unlinked_while_held, unlinked_by_a_drop, unlinked_by_the_making_of_another, moved_native_is_freed, unlinked_by_a_move, script_object_is_unlinked, reflector_is_unlinked, script_object_is_unlinked_by_mark, unlinked_in_falling_order, unlinked_twice, unlinked_in_falling_order_by_gc, unlinked_in_falling_order_by_mark, unlinked_in_three_runs, refused_slice_abandons_nothing, refused_collect_abandons_nothing, refused_slice_abandons_twice, refused_collect_abandons_twice, freed_after_the_abandonment, script_object_is_freed_after_the_abandonment, slice_abandons_and_is_done, collect_abandons_and_is_done, gc_abandons_twice, gc_abandons_late, mark_abandons_twice, mark_abandons_late, mark_abandons_and_is_refused, drop_abandons};

/// Each line has one answer, of the form that the line wants.
pub fn misplaced_answers_are_refused()
    ensures missing_answer { IsUnlawfulAtItsEnd missing_answer }
    ensures answer_to_nothing_asked { IsUnlawfulAtItsEnd answer_to_nothing_asked }
    ensures no_reply { IsUnlawfulAtItsEnd no_reply }
    ensures names_listed_by_a_drop { IsUnlawfulAtItsEnd names_listed_by_a_drop }
    ensures long_line_called_bad { IsUnlawfulAtItsEnd long_line_called_bad }
    ensures bad_line_called_long { IsUnlawfulAtItsEnd bad_line_called_long }
    ensures event_under_a_long_line { IsUnlawfulAtItsEnd event_under_a_long_line }
    ensures event_under_a_bad_line { IsUnlawfulAtItsEnd event_under_a_bad_line }
    ensures blank_line_is_answered { IsUnlawfulAtItsEnd blank_line_is_answered }
    ensures comment_is_answered { IsUnlawfulAtItsEnd comment_is_answered }
    ensures event_under_a_blank_line { IsUnlawfulAtItsEnd event_under_a_blank_line }
    ensures version_two_is_refused { IsUnlawfulAtItsEnd version_two_is_refused }
    ensures version_two_is_taken_twice { IsUnlawfulAtItsEnd version_two_is_taken_twice }
    ensures version_two_is_taken_behind_a_long_line { IsUnlawfulAtItsEnd version_two_is_taken_behind_a_long_line }
    ensures mark_is_taken_in_version_one { IsUnlawfulAtItsEnd mark_is_taken_in_version_one }
    ensures mark_is_refused_in_version_two { IsUnlawfulAtItsEnd mark_is_refused_in_version_two }
    ensures mark_of_no_units_is_taken { IsUnlawfulAtItsEnd mark_of_no_units_is_taken }
    ensures wide_register_is_taken_in_version_one { IsUnlawfulAtItsEnd wide_register_is_taken_in_version_one }
    ensures wide_register_is_refused_in_version_two { IsUnlawfulAtItsEnd wide_register_is_refused_in_version_two }
{}

/// Each reply is the one that the graph gives.
pub fn wrong_replies_are_refused()
    ensures another_reply { IsUnlawfulAtItsEnd another_reply }
    ensures number_used_again { IsUnlawfulAtItsEnd number_used_again }
    ensures number_left_out { IsUnlawfulAtItsEnd number_left_out }
    ensures number_taken_without_memory { IsUnlawfulAtItsEnd number_taken_without_memory }
    ensures slot_is_read_as_empty { IsUnlawfulAtItsEnd slot_is_read_as_empty }
    ensures refused_without_cause { IsUnlawfulAtItsEnd refused_without_cause }
    ensures done_in_place_of_a_refusal { IsUnlawfulAtItsEnd done_in_place_of_a_refusal }
    ensures refused_for_another_cause { IsUnlawfulAtItsEnd refused_for_another_cause }
    ensures taken_out_entry_is_read { IsUnlawfulAtItsEnd taken_out_entry_is_read }
    ensures entry_of_another_map_is_taken_out { IsUnlawfulAtItsEnd entry_of_another_map_is_taken_out }
    ensures entry_of_another_key_is_taken_out { IsUnlawfulAtItsEnd entry_of_another_key_is_taken_out }
    ensures slot_of_a_proxy_is_read { IsUnlawfulAtItsEnd slot_of_a_proxy_is_read }
    ensures proxy_is_taken_for_a_map { IsUnlawfulAtItsEnd proxy_is_taken_for_a_map }
    ensures moved_native_is_not_named { IsUnlawfulAtItsEnd moved_native_is_not_named }
    ensures moved_native_is_read_where_it_was { IsUnlawfulAtItsEnd moved_native_is_read_where_it_was }
    ensures native_moved_onto_itself_is_lost { IsUnlawfulAtItsEnd native_moved_onto_itself_is_lost }
{}

/// Memory is refused only to a command that may take some, and only where the graph does not refuse that command.
pub fn false_wants_of_memory_are_refused()
    ensures copy_of_a_native_wants_memory { IsUnlawfulAtItsEnd copy_of_a_native_wants_memory }
    ensures copy_of_a_script_object_wants_memory { IsUnlawfulAtItsEnd copy_of_a_script_object_wants_memory }
    ensures drop_wants_memory { IsUnlawfulAtItsEnd drop_wants_memory }
    ensures set_wants_memory { IsUnlawfulAtItsEnd set_wants_memory }
    ensures get_wants_memory { IsUnlawfulAtItsEnd get_wants_memory }
    ensures put_wants_memory { IsUnlawfulAtItsEnd put_wants_memory }
    ensures take_wants_memory { IsUnlawfulAtItsEnd take_wants_memory }
    ensures wrap_of_a_listed_reflector_wants_memory { IsUnlawfulAtItsEnd wrap_of_a_listed_reflector_wants_memory }
    ensures unwrap_wants_memory { IsUnlawfulAtItsEnd unwrap_wants_memory }
    ensures preserve_wants_memory { IsUnlawfulAtItsEnd preserve_wants_memory }
    ensures replaced_entry_wants_memory { IsUnlawfulAtItsEnd replaced_entry_wants_memory }
    ensures taken_out_entry_wants_memory { IsUnlawfulAtItsEnd taken_out_entry_wants_memory }
    ensures wget_wants_memory { IsUnlawfulAtItsEnd wget_wants_memory }
    ensures expose_wants_memory { IsUnlawfulAtItsEnd expose_wants_memory }
    ensures gc_wants_memory { IsUnlawfulAtItsEnd gc_wants_memory }
    ensures mark_wants_memory { IsUnlawfulAtItsEnd mark_wants_memory }
    ensures move_wants_memory { IsUnlawfulAtItsEnd move_wants_memory }
    ensures version_wants_memory { IsUnlawfulAtItsEnd version_wants_memory }
    ensures refused_wrap_wants_memory { IsUnlawfulAtItsEnd refused_wrap_wants_memory }
    ensures refused_wset_wants_memory { IsUnlawfulAtItsEnd refused_wset_wants_memory }
    ensures refused_proxy_wants_memory { IsUnlawfulAtItsEnd refused_proxy_wants_memory }
    ensures full_in_place_of_want_of_memory { IsUnlawfulAtItsEnd full_in_place_of_want_of_memory }
{}

/// A census lists the listed names in census order and tells how many they are.
pub fn wrong_censuses_are_refused()
    ensures census_leaves_one_out { IsUnlawfulAtItsEnd census_leaves_one_out }
    ensures census_lists_what_was_freed { IsUnlawfulAtItsEnd census_lists_what_was_freed }
    ensures census_lists_what_was_not_made { IsUnlawfulAtItsEnd census_lists_what_was_not_made }
    ensures census_lists_script_objects_first { IsUnlawfulAtItsEnd census_lists_script_objects_first }
    ensures census_lists_in_falling_order { IsUnlawfulAtItsEnd census_lists_in_falling_order }
    ensures census_lists_a_reflector_in_its_old_place { IsUnlawfulAtItsEnd census_lists_a_reflector_in_its_old_place }
    ensures census_lists_a_wrapped_reflector_last { IsUnlawfulAtItsEnd census_lists_a_wrapped_reflector_last }
    ensures census_lists_a_reflector_twice { IsUnlawfulAtItsEnd census_lists_a_reflector_twice }
    ensures census_tells_another_number { IsUnlawfulAtItsEnd census_tells_another_number }
    ensures census_tells_no_number { IsUnlawfulAtItsEnd census_tells_no_number }
    ensures freed_by_a_census { IsUnlawfulAtItsEnd freed_by_a_census }
{}

/// The path to an object is told by its steps, each with its reason and in its place, and by nothing else.
pub fn wrong_paths_are_refused()
    ensures steps_in_another_order { IsUnlawfulAtItsEnd steps_in_another_order }
    ensures members_in_another_order { IsUnlawfulAtItsEnd members_in_another_order }
    ensures first_step_is_left_out { IsUnlawfulAtItsEnd first_step_is_left_out }
    ensures last_step_is_left_out { IsUnlawfulAtItsEnd last_step_is_left_out }
    ensures step_of_the_key_is_left_out { IsUnlawfulAtItsEnd step_of_the_key_is_left_out }
    ensures all_steps_are_left_out { IsUnlawfulAtItsEnd all_steps_are_left_out }
    ensures step_goes_on { IsUnlawfulAtItsEnd step_goes_on }
    ensures step_leads_elsewhere { IsUnlawfulAtItsEnd step_leads_elsewhere }
    ensures step_is_told_twice { IsUnlawfulAtItsEnd step_is_told_twice }
    ensures follows_from_the_second_register { IsUnlawfulAtItsEnd follows_from_the_second_register }
    ensures follows_from_the_other_bank { IsUnlawfulAtItsEnd follows_from_the_other_bank }
    ensures follows_from_the_second_holder { IsUnlawfulAtItsEnd follows_from_the_second_holder }
    ensures follows_from_itself { IsUnlawfulAtItsEnd follows_from_itself }
    ensures key_is_told_for_the_map { IsUnlawfulAtItsEnd key_is_told_for_the_map }
    ensures value_follows_from_its_map { IsUnlawfulAtItsEnd value_follows_from_its_map }
    ensures value_follows_without_its_key { IsUnlawfulAtItsEnd value_follows_without_its_key }
    ensures proxy_key_follows_from_its_value { IsUnlawfulAtItsEnd proxy_key_follows_from_its_value }
    ensures reached_object_follows_from_nothing { IsUnlawfulAtItsEnd reached_object_follows_from_nothing }
    ensures path_to_nothing { IsUnlawfulAtItsEnd path_to_nothing }
    ensures unreached_object_is_found { IsUnlawfulAtItsEnd unreached_object_is_found }
    ensures swept_reflector_is_found { IsUnlawfulAtItsEnd swept_reflector_is_found }
    ensures name_never_made_is_refused { IsUnlawfulAtItsEnd name_never_made_is_refused }
    ensures why_answers_with_a_name { IsUnlawfulAtItsEnd why_answers_with_a_name }
    ensures path_without_a_reply { IsUnlawfulAtItsEnd path_without_a_reply }
    ensures path_without_memory { IsUnlawfulAtItsEnd path_without_memory }
    ensures names_listed_by_why { IsUnlawfulAtItsEnd names_listed_by_why }
    ensures step_told_by_a_drop { IsUnlawfulAtItsEnd step_told_by_a_drop }
    ensures step_told_by_a_census { IsUnlawfulAtItsEnd step_told_by_a_census }
    ensures step_under_a_blank_line { IsUnlawfulAtItsEnd step_under_a_blank_line }
    ensures step_under_a_bad_line { IsUnlawfulAtItsEnd step_under_a_bad_line }
    ensures number_zero_follows_from_nothing { IsUnlawfulAtItsEnd number_zero_follows_from_nothing }
    ensures path_in_version_one { IsUnlawfulAtItsEnd path_in_version_one }
    ensures path_is_refused_in_version_two { IsUnlawfulAtItsEnd path_is_refused_in_version_two }
    ensures freed_by_why { IsUnlawfulAtItsEnd freed_by_why }
    ensures freed_by_why_of_itself { IsUnlawfulAtItsEnd freed_by_why_of_itself }
    ensures why_abandons { IsUnlawfulAtItsEnd why_abandons }
{}

/// A command frees and unlinks only what is listed and reached no more, and only what this command may free or unlink.
pub fn wrong_events_are_refused()
    ensures freed_by_a_refused_command { IsUnlawfulAtItsEnd freed_by_a_refused_command }
    ensures freed_without_memory { IsUnlawfulAtItsEnd freed_without_memory }
    ensures freed_before_it_was_made { IsUnlawfulAtItsEnd freed_before_it_was_made }
    ensures freed_twice { IsUnlawfulAtItsEnd freed_twice }
    ensures freed_again { IsUnlawfulAtItsEnd freed_again }
    ensures freed_while_a_register_holds_it { IsUnlawfulAtItsEnd freed_while_a_register_holds_it }
    ensures freed_while_a_slot_holds_it { IsUnlawfulAtItsEnd freed_while_a_slot_holds_it }
    ensures freed_while_its_reflector_is_held { IsUnlawfulAtItsEnd freed_while_its_reflector_is_held }
    ensures preserved_reflector_is_freed { IsUnlawfulAtItsEnd preserved_reflector_is_freed }
    ensures reflector_with_an_emptied_slot_is_freed { IsUnlawfulAtItsEnd reflector_with_an_emptied_slot_is_freed }
    ensures reflector_that_is_a_key_is_freed { IsUnlawfulAtItsEnd reflector_that_is_a_key_is_freed }
    ensures value_is_freed_while_map_and_key_are_held { IsUnlawfulAtItsEnd value_is_freed_while_map_and_key_are_held }
    ensures reflector_that_is_a_delegate_is_freed { IsUnlawfulAtItsEnd reflector_that_is_a_delegate_is_freed }
    ensures delegate_is_freed_while_its_proxy_is_held { IsUnlawfulAtItsEnd delegate_is_freed_while_its_proxy_is_held }
    ensures proxy_key_is_freed_while_map_and_delegate_are_held { IsUnlawfulAtItsEnd proxy_key_is_freed_while_map_and_delegate_are_held }
    ensures value_of_a_proxy_key_is_freed_while_map_and_delegate_are_held { IsUnlawfulAtItsEnd value_of_a_proxy_key_is_freed_while_map_and_delegate_are_held }
    ensures script_object_is_freed_by_a_drop { IsUnlawfulAtItsEnd script_object_is_freed_by_a_drop }
    ensures reflector_is_freed_by_a_drop { IsUnlawfulAtItsEnd reflector_is_freed_by_a_drop }
    ensures script_object_is_freed_by_a_put { IsUnlawfulAtItsEnd script_object_is_freed_by_a_put }
    ensures script_object_is_freed_by_the_making_of_another { IsUnlawfulAtItsEnd script_object_is_freed_by_the_making_of_another }
    ensures script_object_is_freed_by_forget { IsUnlawfulAtItsEnd script_object_is_freed_by_forget }
    ensures script_object_is_freed_by_a_slice_while_a_native_holds_it { IsUnlawfulAtItsEnd script_object_is_freed_by_a_slice_while_a_native_holds_it }
    ensures value_is_freed_by_a_collect_while_map_and_key_are_held { IsUnlawfulAtItsEnd value_is_freed_by_a_collect_while_map_and_key_are_held }
    ensures script_object_is_freed_by_mark_while_held { IsUnlawfulAtItsEnd script_object_is_freed_by_mark_while_held }
    ensures script_object_freed_by_mark_is_freed_again { IsUnlawfulAtItsEnd script_object_freed_by_mark_is_freed_again }
    ensures unlinked_before_it_was_made { IsUnlawfulAtItsEnd unlinked_before_it_was_made }
    ensures unlinked_after_it_was_freed { IsUnlawfulAtItsEnd unlinked_after_it_was_freed }
    ensures unlinked_while_held { IsUnlawfulAtItsEnd unlinked_while_held }
    ensures unlinked_by_a_drop { IsUnlawfulAtItsEnd unlinked_by_a_drop }
    ensures unlinked_by_the_making_of_another { IsUnlawfulAtItsEnd unlinked_by_the_making_of_another }
    ensures moved_native_is_freed { IsUnlawfulAtItsEnd moved_native_is_freed }
    ensures unlinked_by_a_move { IsUnlawfulAtItsEnd unlinked_by_a_move }
    ensures script_object_is_unlinked { IsUnlawfulAtItsEnd script_object_is_unlinked }
    ensures reflector_is_unlinked { IsUnlawfulAtItsEnd reflector_is_unlinked }
    ensures script_object_is_unlinked_by_mark { IsUnlawfulAtItsEnd script_object_is_unlinked_by_mark }
    ensures unlinked_in_falling_order { IsUnlawfulAtItsEnd unlinked_in_falling_order }
    ensures unlinked_twice { IsUnlawfulAtItsEnd unlinked_twice }
    ensures unlinked_in_falling_order_by_gc { IsUnlawfulAtItsEnd unlinked_in_falling_order_by_gc }
    ensures unlinked_in_falling_order_by_mark { IsUnlawfulAtItsEnd unlinked_in_falling_order_by_mark }
    ensures unlinked_in_three_runs { IsUnlawfulAtItsEnd unlinked_in_three_runs }
{}

/// A collection is abandoned at the end of a `slice` or `collect` that is refused memory, at the beginning of `gc` and `mark`, and
/// nowhere else.
pub fn wrong_abandonments_are_refused()
    ensures refused_slice_abandons_nothing { IsUnlawfulAtItsEnd refused_slice_abandons_nothing }
    ensures refused_collect_abandons_nothing { IsUnlawfulAtItsEnd refused_collect_abandons_nothing }
    ensures refused_slice_abandons_twice { IsUnlawfulAtItsEnd refused_slice_abandons_twice }
    ensures refused_collect_abandons_twice { IsUnlawfulAtItsEnd refused_collect_abandons_twice }
    ensures freed_after_the_abandonment { IsUnlawfulAtItsEnd freed_after_the_abandonment }
    ensures script_object_is_freed_after_the_abandonment { IsUnlawfulAtItsEnd script_object_is_freed_after_the_abandonment }
    ensures slice_abandons_and_is_done { IsUnlawfulAtItsEnd slice_abandons_and_is_done }
    ensures collect_abandons_and_is_done { IsUnlawfulAtItsEnd collect_abandons_and_is_done }
    ensures gc_abandons_twice { IsUnlawfulAtItsEnd gc_abandons_twice }
    ensures gc_abandons_late { IsUnlawfulAtItsEnd gc_abandons_late }
    ensures mark_abandons_twice { IsUnlawfulAtItsEnd mark_abandons_twice }
    ensures mark_abandons_late { IsUnlawfulAtItsEnd mark_abandons_late }
    ensures mark_abandons_and_is_refused { IsUnlawfulAtItsEnd mark_abandons_and_is_refused }
    ensures drop_abandons { IsUnlawfulAtItsEnd drop_abandons }
{}
