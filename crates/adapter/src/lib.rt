// The adapter: hears parents' packets, takes framing records and places frames.
#![tactic(auto)]

pub mod answer;
mod due;
pub mod limits;
mod place;
mod records;
mod state;
mod step;
mod times;

pub use state::Adapter;
