//! Transcripts that end in a census: those that the definition of quiet refuses, and garbage that it lets stay.
//! `IsUnquietAtItsEnd` says that all is right without the census, and that with it the transcript is lawful and not quiet.

ghost use Rattle.cc_worked.specs.Transcripts.{IsRight, IsUnquiet, IsUnquietAtItsEnd};
ghost use Rattle.cc_worked.specs.Garbage.{garbage_is_kept, garbage_is_kept_after_two_gcs, garbage_is_kept_after_two_collections, garbage_is_kept_after_two_rows, garbage_is_kept_between_blank_lines, script_object_is_kept, reflector_is_kept, reflector_of_a_taken_out_entry_is_kept, proxy_is_kept, delegate_of_a_key_is_kept, reached_native_is_missing, no_gc_at_all, no_first_gc, no_collect, no_last_gc, two_collects, one_gc_more, refused_line_after_the_first, refused_line_after_the_second, refused_line_after_the_third, bad_line_between, slice_between, mark_between, mark_in_place_of_the_last_gc, collect_without_memory, garbage_may_stay_after_a_why, garbage_may_stay_after_a_census, garbage_may_stay_after_a_drop};

/// After `gc`, `collect` and `gc` a census lists exactly what the registers reach.
pub fn unquiet_censuses_are_refused()
    ensures garbage_is_kept { IsUnquietAtItsEnd garbage_is_kept }
    ensures garbage_is_kept_after_two_gcs { IsUnquietAtItsEnd garbage_is_kept_after_two_gcs }
    ensures garbage_is_kept_after_two_collections { IsUnquietAtItsEnd garbage_is_kept_after_two_collections }
    ensures garbage_is_kept_after_two_rows { IsUnquietAtItsEnd garbage_is_kept_after_two_rows }
    ensures garbage_is_kept_between_blank_lines { IsUnquietAtItsEnd garbage_is_kept_between_blank_lines }
    ensures script_object_is_kept { IsUnquietAtItsEnd script_object_is_kept }
    ensures reflector_is_kept { IsUnquietAtItsEnd reflector_is_kept }
    ensures reflector_of_a_taken_out_entry_is_kept { IsUnquietAtItsEnd reflector_of_a_taken_out_entry_is_kept }
    ensures proxy_is_kept { IsUnquietAtItsEnd proxy_is_kept }
    ensures delegate_of_a_key_is_kept { IsUnquietAtItsEnd delegate_of_a_key_is_kept }
    ensures reached_native_is_missing { IsUnquiet reached_native_is_missing }
{}

/// Where these three do not stand in a row right before it, a census may list what the registers do not reach.
pub fn garbage_may_stay()
    ensures no_gc_at_all { IsRight no_gc_at_all }
    ensures no_first_gc { IsRight no_first_gc }
    ensures no_collect { IsRight no_collect }
    ensures no_last_gc { IsRight no_last_gc }
    ensures two_collects { IsRight two_collects }
    ensures one_gc_more { IsRight one_gc_more }
    ensures refused_line_after_the_first { IsRight refused_line_after_the_first }
    ensures refused_line_after_the_second { IsRight refused_line_after_the_second }
    ensures refused_line_after_the_third { IsRight refused_line_after_the_third }
    ensures bad_line_between { IsRight bad_line_between }
    ensures slice_between { IsRight slice_between }
    ensures mark_between { IsRight mark_between }
    ensures mark_in_place_of_the_last_gc { IsRight mark_in_place_of_the_last_gc }
    ensures collect_without_memory { IsRight collect_without_memory }
    ensures garbage_may_stay_after_a_why { IsRight garbage_may_stay_after_a_why }
    ensures garbage_may_stay_after_a_census { IsRight garbage_may_stay_after_a_census }
    ensures garbage_may_stay_after_a_drop { IsRight garbage_may_stay_after_a_drop }
{}
