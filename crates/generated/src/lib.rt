// What is promised of the files of the load bench. Nothing runs here.
#![tactic(auto)]
