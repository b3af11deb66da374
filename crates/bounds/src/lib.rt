// How long a first reply is at most, and that the dearest part and path reach it: definitions and theorems. Nothing here runs.
#![tactic(auto)]
