// The hub at the end: the joining of a bundle of second replies.
#![tactic(auto)]

pub mod call;
mod listing;
