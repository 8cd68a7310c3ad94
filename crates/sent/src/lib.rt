// The two messages of §5: definitions in specs/, rows computed from them in proofs/; no code.
#![tactic(auto)]
