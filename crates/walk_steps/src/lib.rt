// A set of states takes one label, by the code's automaton.
#![tactic(auto)]

pub mod stepping;
