// The triple edition: a triple file checked, its triples read as numbers, and the fields of these.
#![tactic(auto)]

pub mod check;
pub mod key;
