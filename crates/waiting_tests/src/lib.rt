// What a user of waiting lines writes: elements with a moment, and lines over parts of one memory.
#![tactic(auto)]

pub mod elements;
pub mod hall;
#[cfg(test)]
mod tests;
