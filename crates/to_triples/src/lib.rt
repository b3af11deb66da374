// The triples of a whole file.
#![tactic(auto)]

pub mod call;
mod listing;
mod say;
