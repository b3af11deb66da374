// The cutter: a site's part of a whole plant.
#![tactic(auto)]

pub mod call;
mod marks;
pub mod place;
mod targets;
