// The doors and rows of a first reply, written.
#![tactic(auto)]

pub mod reporting;
