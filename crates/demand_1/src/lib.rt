// Demand 1 of every call: definitions and proofs alone, nothing runs.
#![tactic(auto)]
