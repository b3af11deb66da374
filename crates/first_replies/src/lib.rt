// What a first reply is, and what follows from that. Nothing runs here.
#![tactic(auto)]
