// The walk beside a listed node.
#![tactic(auto)]

pub mod call;
