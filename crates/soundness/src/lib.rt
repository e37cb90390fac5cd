// The test whether a table is sound, and what it works out on the way.
#![tactic(auto)]

pub mod check;
