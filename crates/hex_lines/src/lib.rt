// A file as text, for the trial program: a line of hexadecimal digits for each word.
#![tactic(auto)]

pub mod lines;
