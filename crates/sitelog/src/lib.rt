// Site logs: the calls that the lines of a log write, and a site that takes them.
#![tactic(auto)]

pub mod accepted;
pub mod call;
pub mod fault;
pub mod hex;
pub mod line;
pub mod mounted;
pub mod site;
pub mod stop;
#[cfg(test)]
mod tests;
mod values;
mod verb;
mod words;
