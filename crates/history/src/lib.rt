// The keeper of whole images, a list of calls, and demand 3; no code.
#![tactic(auto)]
