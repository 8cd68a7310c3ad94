// Drawn numbers, and images made from them.
#![tactic(auto)]

pub mod dice;
pub mod images;
