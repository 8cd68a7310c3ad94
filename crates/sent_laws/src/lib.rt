// Laws of the two messages of §5. Apart from the definitions, so that the rows alone refuse a wrong one.
#![tactic(auto)]
