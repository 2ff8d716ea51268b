//! The verdict on a transcript: what it is, and by which steps it is found, line by line.
//!
//! A transcript is lawful where it is exactly the text of answers that are lawful and quiet (`specs/Verdicts`). Who checks one
//! reads it line by line, and stands after some lines between two answers, within an answer that can be but this one, or within
//! one of which some events came (`specs/Positions`). The laws here say of each such position which lines may come next, and
//! where the check stands then.
//!
//! Each function has an empty body, and is a law that its clauses state.
#![tactic(auto)]

mod answers;
mod going_on;
mod hearing;
mod lines;

pub use answers::{
    answers_are_heard, exact_answers_are_recited, lines_that_ask_nothing_have_no_answer,
    reasons_are_recited,
};
pub use going_on::{
    all_that_is_reached_is_listed, dead_ends_lead_nowhere, other_ends_lead_on,
    transcripts_part_line_by_line,
};
pub use hearing::{answers_are_heard_line_by_line, answers_are_recited_line_by_line};
pub use lines::{lines_tell_items_apart, transcripts_are_lines};
