// A bundle of paths: files one after another, found by the lengths that their headers say.
#![tactic(auto)]

pub mod split;
