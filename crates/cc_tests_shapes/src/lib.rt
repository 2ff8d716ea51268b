//! Tests of whole scripts that are deep or long, of long paths, of many suspects that are forgotten, of many script objects that
//! are marked in slices, of long lines, and of summaries of made scripts: by one function over texts that are made while they are
//! read and written.
#![tactic(auto)]

#[cfg(test)]
mod forgetting;
#[cfg(test)]
mod lines;
#[cfg(test)]
mod marking;
#[cfg(test)]
mod paths;
#[cfg(test)]
mod shapes;
#[cfg(test)]
mod summaries;
#[cfg(test)]
mod text;
