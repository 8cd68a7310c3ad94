// The pool and the records' words of a storage: what they are, and laws of reading and writing them.
#![tactic(auto)]
