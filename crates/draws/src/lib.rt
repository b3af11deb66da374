// Draws: numbers from a 32-bit state, the same on every machine.
#![tactic(auto)]

pub mod generator;
