// The hub's search for the called pairs of a bundle of first replies.
#![tactic(auto)]

mod enter;
mod follow;
pub mod search;
