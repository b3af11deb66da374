// Bundles: file by file, then over all.
#![tactic(auto)]

pub mod bundle;
pub mod overall;
