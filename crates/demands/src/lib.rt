// The demands, and the plant, true cut and whole question that they speak of: definitions and theorems about the calls' outcomes. Nothing here runs.
#![tactic(auto)]
