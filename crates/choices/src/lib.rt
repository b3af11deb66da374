// Which replies are put in where several desks share one: definitions and their laws, no code.
#![tactic(auto)]
