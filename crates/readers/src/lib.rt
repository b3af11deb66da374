// The reader of a part.
#![tactic(auto)]

pub mod part;
