//! The worked examples that the program can be run on: what each script makes it write. Most stand in texts, a row each, since
//! the check of a table of values takes more steps the longer it is.
//!
//! Made by tools/worked_examples.py from examples/worked.txt.

mod limits;
mod part_1;
mod part_2;
mod part_3;
mod part_4;
mod part_5;
mod part_6;
