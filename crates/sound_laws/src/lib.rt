// A sound store's bytes and words meet what the code of step 3, of tracing and of retiring requires. Laws only.
#![tactic(auto)]
