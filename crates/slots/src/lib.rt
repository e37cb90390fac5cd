// What a table's slots keep to: each by itself, their totals, and their times among each other.
#![tactic(auto)]

pub mod right;
pub mod times;
pub mod totals;
