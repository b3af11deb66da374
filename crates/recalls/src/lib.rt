// What is promised of the walks beside a recall list and of their checker. Nothing runs here.
#![tactic(auto)]
