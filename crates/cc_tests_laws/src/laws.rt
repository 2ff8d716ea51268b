//! A call of each law.
use cc_laws_headline::lawful_transcripts_tell_of_a_graph;
use cc_laws_heap::{
    banks_may_be_longer, brought_back_stands, cascade_keeps_counts, commands_keep_colours,
    commands_keep_counts, commands_keep_marking, commands_keep_scanned, commands_stand,
    ends_keep_counts, ends_stand, graphs_are_well_made, marking_is_least, markings_end_well,
    markings_spare_what_is_held, paths_agree, paths_are_right, reached_alike, replies_agree,
    rounds_keep_counts, rounds_stand, scans_keep_marking, sweeps_stand, unlinking_keeps_counts,
};
use cc_laws_run::{
    asks_keep_suspected, collections_after_gc_miss_nothing, collections_are_lawful,
    collections_take_a_unit_a_node, commands_are_lawful, commands_keep_doomed,
    ended_stay_unreached, freshness_can_be_met, garbage_is_doomed, gc_collect_gc_is_quiet,
    memory_decides_nothing_else, plain_run_is_lawful, refused_collections_are_given_up,
    runs_after_gc_miss_nothing, runs_compose, runs_forget_nothing, runs_go_on,
    suspicion_can_be_met, unlinked_are_gone_after_gc,
};
use cc_laws_snapshot::{
    begin_is_fresh, black_is_least, collections_keep_suspected, commands_keep_fresh,
    commands_keep_suspected, ends_keep_reached, ends_take_white, forgetting_keeps_suspected,
    gentle_changes_keep_fresh, kinds_of_change_keep_fresh, kinds_of_change_keep_suspected,
    loyal_changes_keep_suspected, units_keep_fresh, waiting_asks_less, waiting_keeps_suspected,
    white_is_unreached,
};
use cc_laws_told::{collections_bring_nothing_back, collections_tell_few};
use cc_lists::{closure_is_least, membership_is_decided, rarer_is_shorter};
use cc_made::{
    known_scripts_are_made, made_scripts_are_cut_into_their_lines, made_scripts_ask_commands,
    made_scripts_leave_nothing,
};
use cc_model::{bounds_suffice, reached_is_least, telling_composes};
use cc_names::{names_are_in_order, names_are_told_apart};
use cc_script::raised_is_least;
use cc_verdict::{
    answers_are_heard, answers_are_heard_line_by_line, answers_are_recited_line_by_line,
    exact_answers_are_recited, lines_tell_items_apart, lines_that_ask_nothing_have_no_answer,
    reasons_are_recited, transcripts_are_lines,
};
use cc_worked::{
    audit_is_sound, examples_are_lawful, examples_are_quiet, examples_write_their_lines,
    false_wants_of_memory_are_refused, garbage_may_stay, misplaced_answers_are_refused,
    right_transcripts_pass, unquiet_censuses_are_refused, verdict_decides,
    wrong_abandonments_are_refused, wrong_censuses_are_refused, wrong_events_are_refused,
    wrong_paths_are_refused, wrong_replies_are_refused,
};

#[test]
fn laws_of_lists_and_names_can_be_called() {
    membership_is_decided::<u8>();
    closure_is_least::<u8>();
    rarer_is_shorter::<u8, u16, u32>();
    names_are_told_apart();
    names_are_in_order();
    reached_is_least();
    bounds_suffice();
    telling_composes();
    known_scripts_are_made();
    made_scripts_are_cut_into_their_lines();
    made_scripts_ask_commands();
    made_scripts_leave_nothing();
}

#[test]
fn laws_of_the_heap_can_be_called() {
    cascade_keeps_counts();
    commands_keep_counts();
    banks_may_be_longer();
    commands_keep_colours();
    marking_is_least();
    commands_keep_marking();
    commands_keep_scanned();
    scans_keep_marking();
    markings_end_well();
    markings_spare_what_is_held();
    rounds_keep_counts();
    rounds_stand();
    sweeps_stand();
    unlinking_keeps_counts();
    ends_keep_counts();
    ends_stand();
    replies_agree();
    graphs_are_well_made();
    reached_alike();
    commands_stand();
    brought_back_stands();
    paths_are_right();
    paths_agree();
    raised_is_least();
}

#[test]
fn laws_of_the_snapshot_can_be_called() {
    begin_is_fresh();
    units_keep_fresh();
    gentle_changes_keep_fresh();
    kinds_of_change_keep_fresh();
    waiting_asks_less();
    waiting_keeps_suspected();
    commands_keep_fresh();
    white_is_unreached();
    black_is_least();
    ends_take_white();
    ends_keep_reached();
    loyal_changes_keep_suspected();
    kinds_of_change_keep_suspected();
    commands_keep_suspected();
    forgetting_keeps_suspected();
    collections_keep_suspected();
}

#[test]
fn laws_of_the_run_can_be_called() {
    asks_keep_suspected();
    commands_are_lawful();
    collections_are_lawful();
    plain_run_is_lawful();
    garbage_is_doomed();
    commands_keep_doomed();
    collections_after_gc_miss_nothing();
    unlinked_are_gone_after_gc();
    gc_collect_gc_is_quiet();
    runs_go_on();
    runs_forget_nothing();
    runs_after_gc_miss_nothing();
    ended_stay_unreached();
    runs_compose();
    memory_decides_nothing_else();
    refused_collections_are_given_up();
    collections_take_a_unit_a_node();
    freshness_can_be_met();
    suspicion_can_be_met();
    collections_tell_few();
    collections_bring_nothing_back();
    lawful_transcripts_tell_of_a_graph();
}

#[test]
fn worked_examples_can_be_called() {
    examples_write_their_lines();
    examples_are_lawful();
    examples_are_quiet();
    audit_is_sound();
    verdict_decides();
    misplaced_answers_are_refused();
    wrong_replies_are_refused();
    false_wants_of_memory_are_refused();
    wrong_censuses_are_refused();
    wrong_paths_are_refused();
    wrong_events_are_refused();
    wrong_abandonments_are_refused();
    unquiet_censuses_are_refused();
    garbage_may_stay();
    right_transcripts_pass();
}

#[test]
fn laws_of_the_verdict_can_be_called() {
    transcripts_are_lines();
    lines_tell_items_apart();
    lines_that_ask_nothing_have_no_answer();
    exact_answers_are_recited();
    reasons_are_recited();
    answers_are_heard();
    answers_are_recited_line_by_line();
    answers_are_heard_line_by_line();
}
