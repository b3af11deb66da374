// The whole file of a plant of the first release.
#![tactic(auto)]

pub mod call;
mod ends;
mod nodes;
