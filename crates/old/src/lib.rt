// The old search, over a whole plant.
#![tactic(auto)]

pub mod call;
mod search;
