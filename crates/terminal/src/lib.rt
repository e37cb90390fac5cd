// The terminal's own tasks, a layer above the lock table: sixteen that every shipment starts with, and spare ones. All that
// its proofs know of the step is what that states. See specs/ for what each function leaves.
#![tactic(auto)]

pub mod spare;
pub mod start;

ghost use Rattle.std.specs.Prelude.{◌≡◌};
ghost use Rattle.terminal.specs.Tasks.{creation};

use refusals::{Kind, Record};

// The record of the event that creates a task.
fn creation(id: u8, priority: u8) -> Record
    ensures { result ≡ creation id priority }
{
    Record::new(Kind::Create, id, priority)
}
