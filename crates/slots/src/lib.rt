// The words of a part by position, and the tables by which it is searched.
#![tactic(auto)]

pub mod layout;
pub mod position;
pub mod tables;
