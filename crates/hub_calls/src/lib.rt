// The hub between the replies: the call list of a bundle of first replies.
#![tactic(auto)]

pub mod call;
mod listing;
