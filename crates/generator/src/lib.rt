// The load bench: whole files drawn from a lent state, the same on every machine.
#![tactic(auto)]

pub mod call;
mod nodes;
