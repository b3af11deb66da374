// What a search lists: the answer words of the nodes that it reached in an accepting state, and the row of what it reached outside the part.
#![tactic(auto)]

pub mod answers;
pub mod rows;
pub mod tables;
