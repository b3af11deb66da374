// One reply for eight askers: two rounds over the desks, and the call.
#![tactic(auto)]

pub mod call;
pub mod rounds;
