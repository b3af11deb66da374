// Files on both sides of the lines that document 01's table leaves open, questions that demand 3 speaks of, and what a caller's own number leaves,
// or a refusal by its name: theorems. Nothing here runs but its tests.
#![tactic(auto)]

pub mod numbers;
pub mod refusals;
