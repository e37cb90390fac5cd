// Whether a table's queues are right, and what they say.
#![tactic(auto)]

pub mod survey;
