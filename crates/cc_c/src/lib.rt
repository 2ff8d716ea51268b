//! The library for programs in C and C++, as `include/ccollect.h` has it: a static library over a host.
//!
//! No export has a `requires`: each takes any object, root and number at all. A call takes the host out of the collector,
//! does what it does, and puts it back. The contracts are the host's (`cc_host`), said of an open collector (`Open`), with
//! C's structs read as what they stand for (`to_object`, `to_content`, `to_root`), and a status for each cause (`IsStatus`).
#![tactic(auto)]

mod collecting;
mod collector;
mod entries;
mod handle;
mod making;
mod opening;
mod questions;
mod referring;
mod reflectors;
mod roots;
mod showing;
mod slots;
mod status;
mod told;
mod values;
mod walking;
