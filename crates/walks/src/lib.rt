// Walks inside a part with the position automaton beside them: definitions and what follows from them. Nothing runs here.
#![tactic(auto)]
