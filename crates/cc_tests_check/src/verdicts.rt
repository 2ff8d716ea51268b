//! Scripts with transcripts, right ones and wrong ones, and what a check of them comes to.
//!
//! Made by tools/worked_examples.py from examples/verdicts.txt.

mod part_1;
mod part_10;
mod part_11;
mod part_12;
mod part_13;
mod part_2;
mod part_3;
mod part_4;
mod part_5;
mod part_6;
mod part_7;
mod part_8;
mod part_9;
