//! Tests of where the program meets the outside: the words of its command line, the faults of reading and writing, the pieces in
//! which a transcript is handed on, and whether each line is answered before the next one is read.
#![tactic(auto)]

#[cfg(test)]
mod command_lines;
#[cfg(test)]
mod faults;
#[cfg(test)]
mod pieces;
#[cfg(test)]
mod runs;
#[cfg(test)]
mod turns;
