// The configuration of the core: its text, checked, and what a checked one holds.
#![tactic(auto)]

pub mod answer;
pub mod check;
mod clash;
pub mod cuts;
pub mod fault;
mod fields;
mod line;
mod number;
mod reader;
pub mod row;
pub mod table;
mod tables;
mod values;
