// An accepted event, carried out on the arrays that go with the table.
#![tactic(auto)]

pub mod finish;
mod kinds;
mod one_slot;
