// Laws of streams. Apart from the definitions, so that the rows alone refuse a wrong one.
#![tactic(auto)]
