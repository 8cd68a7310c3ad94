// What the trial counts, and how it is printed.
#![tactic(auto)]

pub mod counts;
pub mod tell;
