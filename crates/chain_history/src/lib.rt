// Demand 3 on a chain of stores: the claim in specs/, its proof from the theorem about one store in proofs/; no code.
#![tactic(auto)]
