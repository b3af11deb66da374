// The rows behind a door of a bundle, word by word.
#![tactic(auto)]

pub mod rows;
