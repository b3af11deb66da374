// Regular expressions over labels, their textbook meaning and their position automata: definitions and theorems. Nothing here runs.
#![tactic(auto)]
