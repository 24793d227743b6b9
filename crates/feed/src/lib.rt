// What a parent's file tells, the frames of a run, and what is counted in one.
#![tactic(auto)]

pub mod counters;
pub mod file;
pub mod known;
pub mod plan;
pub mod times;
