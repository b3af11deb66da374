// A site's first reply, as a call.
#![tactic(auto)]

pub mod call;
