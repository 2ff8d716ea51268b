//! Why an object is alive: the steps by which the registers reach it.
//!
//! The search from the registers (cc_search) goes over the heaps: from the registers on, each object that is reached is found once,
//! with the reason for which it was found, and the search ends with the object that is asked for. Then, from the last step to the
//! first, those are taken that it needs: the step of the object itself, the steps on which this one rests, and so on. These are
//! told in their order.
//!
//! Nothing goes over all natives or all entries, and nothing recurses. Memory is taken before the first step is told.
#![tactic(auto)]

mod explaining;
mod heap_leads;

pub use explaining::why;
