// What a new link or another path may do to the final list: definitions and theorems. Nothing here runs.
#![tactic(auto)]
