// The calls of one question one after another, on lent buffers. Each file is printed as it comes, and the first refusal ends it.
#![tactic(auto)]

mod calls;
pub mod file;
pub mod question;
pub mod sites;
