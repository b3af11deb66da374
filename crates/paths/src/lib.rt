// The position automaton of a path, from the path's bytes.
#![tactic(auto)]

pub mod automaton;
pub mod builder;
pub mod letters;
pub mod operand;
pub mod table;
