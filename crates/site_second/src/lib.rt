// A site's second reply.
#![tactic(auto)]

pub mod call;
mod search;
