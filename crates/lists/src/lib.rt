// Functions on lists and their laws, for specifications and proofs; no code.
#![tactic(auto)]
