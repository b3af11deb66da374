// Four paths in one visit, as a call.
#![tactic(auto)]

pub mod call;
