// What the searches of a whole file are asked: the whole, groups and a path.
#![tactic(auto)]

pub mod asked;
