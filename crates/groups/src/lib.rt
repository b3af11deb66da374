// The label groups that travel with a path.
#![tactic(auto)]

pub mod table;
