// Rows of sixteen numbers in lent bytes, one for each state.
#![tactic(auto)]

pub mod rows;
