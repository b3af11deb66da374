// The checker of a walk: words that any maker's tool may have written. It knows the files and the path's automaton, and no search.
#![tactic(auto)]

pub mod call;
mod plant;
