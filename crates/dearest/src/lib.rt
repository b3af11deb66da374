// The dearest part and path: for planners, files whose first reply is the longest that there can be.
#![tactic(auto)]

pub mod call;
mod counts;
mod part;
mod path;
