// By how many links each node of a whole arrives at a node, for each state: distances, breadth first, back along the edges.
#![tactic(auto, using(slots::proofs::Places::edge_below, slots::proofs::Places::node_below))]

pub mod rounds;
