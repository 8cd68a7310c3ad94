// The chain of §8: definitions in specs/, laws and computed rows in proofs/; no code.
#![tactic(auto)]
