// What is promised of the triple edition. Nothing runs here.
#![tactic(auto)]
