// The bill of §14: definitions in specs/, the theorem in proofs/; no code.
#![tactic(auto)]
