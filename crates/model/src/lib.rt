// The definitions of the till version store, and the starred day; no code.
#![tactic(auto)]
