// What calls write: words one after another, counted.
#![tactic(auto)]

pub mod close;
pub mod pairs;
pub mod settle;
pub mod writer;
