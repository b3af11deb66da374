// The edges of a node, drawn: in order, equal ones once.
#![tactic(auto)]

pub mod edges;
