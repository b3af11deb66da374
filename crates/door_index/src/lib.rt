// The doors of a bundle in the order of their nodes.
#![tactic(auto)]

pub mod index;
