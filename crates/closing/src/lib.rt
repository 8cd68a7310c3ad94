// §7's call: definitions in specs/, its laws and rows computed from it in proofs/; no code.
#![tactic(auto)]
