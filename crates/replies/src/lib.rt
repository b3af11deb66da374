// The readers of what a site answers: first and second replies, by the words behind their header.
#![tactic(auto)]

pub mod answers;
pub mod reply;
