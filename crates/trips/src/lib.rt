// A question makes two trips: to the sites and back to the hub.
#![tactic(auto)]

pub mod calls;
