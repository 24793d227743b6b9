// The agreement of two sites, by tables.
#![tactic(auto)]

#[cfg(test)]
mod tests;
