// The edges of a whole by their words' positions: where each leads, and which lead into a node.
#![tactic(auto, using(slots::proofs::Places::edge_below, slots::proofs::Places::node_below))]

pub mod links;
pub mod tables;
