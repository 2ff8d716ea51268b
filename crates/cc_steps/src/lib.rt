//! A counter of steps that costs nothing: what takes as many steps as it promises hands it on.
#![tactic(auto)]

mod steps;

pub use steps::Steps;
