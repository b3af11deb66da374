// The search of a part, together with the automaton of a path.
#![tactic(auto)]

pub mod search;
