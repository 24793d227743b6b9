// Both carriers, call by call, and code over any carrier.
#![tactic(auto)]

pub mod copies;
#[cfg(test)]
mod kinds;
#[cfg(test)]
mod tests;
