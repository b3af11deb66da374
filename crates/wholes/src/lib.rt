// The readers of a whole plant and of its cut list.
#![tactic(auto)]

pub mod cuts;
pub mod whole;
