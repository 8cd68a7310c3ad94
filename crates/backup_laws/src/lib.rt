// A sound store's bytes and words meet what the placing and the turning of a backup require. Laws only.
#![tactic(auto)]
