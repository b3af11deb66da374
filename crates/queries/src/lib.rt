// The readers of what a site is asked: paths and call lists. Each hands on the first refusal.
#![tactic(auto)]

pub mod calls;
pub mod path;
