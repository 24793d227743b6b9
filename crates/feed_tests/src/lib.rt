// Tests of what a parent's file tells, the frames of a run and its counters, on both sides of each bound.
#![tactic(auto)]

#[cfg(test)]
mod tests;
