// The words of call lists and of second replies: each by itself, and ascending.
#![tactic(auto)]

pub mod ascending;
