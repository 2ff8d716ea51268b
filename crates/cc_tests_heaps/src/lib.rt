//! Tests of roots beyond the registers that commands can name, of a walk over both heaps, of a marking in slices, of suspects
//! forgotten, and of weak registers beside them: no clause says that memory is there.
#![tactic(auto)]

#[cfg(test)]
mod collectors;
#[cfg(test)]
mod forgetting;
#[cfg(test)]
mod mark_steps;
#[cfg(test)]
mod new_marks;
#[cfg(test)]
mod roots;
#[cfg(test)]
mod walks;
#[cfg(test)]
mod weak_registers;
