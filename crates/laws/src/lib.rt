// Laws of the definitions of the store; no code.
#![tactic(auto)]
