// A visit: a site is handed a bundle of paths. What refuses it as a whole, what one of its paths is answered, and its outputs and numbers.
#![tactic(auto)]

pub mod numbered;
pub mod outputs;
pub mod path;
pub mod whole;
