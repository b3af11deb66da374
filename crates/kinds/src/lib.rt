// The words of one kind in a file or a bundle: counted, the first of them, and their nodes as a set in lent bytes.
#![tactic(auto)]

pub mod count;
pub mod find;
pub mod mark;
