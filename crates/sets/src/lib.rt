// Finite sets: the theory in specs/ and proofs/, and the leaves that the searches share: a set of states in sixteen bits, what may follow
// one, a table of sixteen-bit numbers in lent bytes, and a set of nodes there.
#![tactic(auto)]

pub mod follow;
pub mod node_set;
pub mod states;
pub mod table;
