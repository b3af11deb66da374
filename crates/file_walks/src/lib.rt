// Walks of a whole file by its edge words: which are accepted, which is the best. Nothing runs here.
#![tactic(auto)]
