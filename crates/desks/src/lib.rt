// Several desks that share one reply: where they stand, and the turn of one of them.
#![tactic(auto)]

pub mod stand;
pub mod turns;
