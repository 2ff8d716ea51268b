//! Transcripts that are right, at the limits of what is lawful.

ghost use Rattle.cc_worked.specs.Transcripts.{IsRight};
ghost use Rattle.cc_worked.specs.Right.{memory_may_be_refused, reflector_may_be_refused_again, refused_collections_abandon, gc_abandons_first, mark_abandons_first, script_objects_are_freed_by_what_collects, refused_slice_frees_script_objects, reflector_freed_by_a_slice_is_made_again, garbage_stays_behind_a_mark, two_collections_end, garbage_stays_for_a_while, value_goes_with_its_key, proxy_may_be_refused_memory, proxy_key_goes_with_its_delegate, lines_that_ask_nothing, move_frees_what_the_slot_held, version_two_behind_a_comment, census_in_order, path_in_order, path_may_be_refused_memory, garbage_follows_from_nothing};

/// What the clauses just allow is right.
pub fn right_transcripts_pass()
    ensures memory_may_be_refused { IsRight memory_may_be_refused }
    ensures reflector_may_be_refused_again { IsRight reflector_may_be_refused_again }
    ensures refused_collections_abandon { IsRight refused_collections_abandon }
    ensures gc_abandons_first { IsRight gc_abandons_first }
    ensures mark_abandons_first { IsRight mark_abandons_first }
    ensures script_objects_are_freed_by_what_collects { IsRight script_objects_are_freed_by_what_collects }
    ensures refused_slice_frees_script_objects { IsRight refused_slice_frees_script_objects }
    ensures reflector_freed_by_a_slice_is_made_again { IsRight reflector_freed_by_a_slice_is_made_again }
    ensures garbage_stays_behind_a_mark { IsRight garbage_stays_behind_a_mark }
    ensures two_collections_end { IsRight two_collections_end }
    ensures garbage_stays_for_a_while { IsRight garbage_stays_for_a_while }
    ensures value_goes_with_its_key { IsRight value_goes_with_its_key }
    ensures proxy_may_be_refused_memory { IsRight proxy_may_be_refused_memory }
    ensures proxy_key_goes_with_its_delegate { IsRight proxy_key_goes_with_its_delegate }
    ensures lines_that_ask_nothing { IsRight lines_that_ask_nothing }
    ensures move_frees_what_the_slot_held { IsRight move_frees_what_the_slot_held }
    ensures version_two_behind_a_comment { IsRight version_two_behind_a_comment }
    ensures census_in_order { IsRight census_in_order }
    ensures path_in_order { IsRight path_in_order }
    ensures path_may_be_refused_memory { IsRight path_may_be_refused_memory }
    ensures garbage_follows_from_nothing { IsRight garbage_follows_from_nothing }
{}
