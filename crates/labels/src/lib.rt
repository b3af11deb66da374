// Which labels a label word of a path holds: those of an interval, or those outside.
#![tactic(auto)]

pub mod interval;
