// The called pairs of a site's part.
#![tactic(auto)]

pub mod called;
