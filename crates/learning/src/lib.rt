// What a hub may learn of a part: definitions and theorems. Nothing here runs.
#![tactic(auto)]
