// Where chains of waiting lead, and the local law along them.
#![tactic(auto)]

pub mod law;
pub mod marks;
pub mod ways;
