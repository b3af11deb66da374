// Document 01's table: a theorem of the calls' outcomes. Nothing here runs.
#![tactic(auto)]
