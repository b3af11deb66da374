// A part made ready for searches by the automaton of a path.
#![tactic(auto)]

pub mod prepare;
