//! Tests of verdicts: what a check comes to on transcripts that are lawful, and on others that have one fault each.
//!
//! They stand in one table, `examples/verdicts.txt`, with the verdicts of the rules and not of the program; `verdicts.rt` and its parts
//! are made of it. That the worked examples are lawful transcripts is tested with them, in `cc_examples`.
#![tactic(auto)]

#[cfg(test)]
mod example;
#[cfg(test)]
mod verdicts;
