// Starting a shipment.
ghost use Rattle.std.specs.Prelude.{◌≡◌};
ghost use Rattle.terminal.specs.Start.{started};

use crate::creation;
use lent::step_of;
use locks::Done;
use table::Table;

const TASKS: u8 = 16;

// The priorities of the fixed tasks, each at its task's id. The draw is 0.
const PRIORITIES: [u8; TASKS as usize] = [
    250, 200, 190, 180, 170, 160, 150, 140, 120, 110, 100, 90, 60, 30, 20, 10,
];

// The fixed tasks are created in order on the empty table.
pub fn start() -> Done
    ensures { result ≡ started }
{
    let mut done = step_of(Table::empty(), creation(0, PRIORITIES[0]));
    for id in 1..TASKS {
        done = step_of(done.table, creation(id, PRIORITIES[usize::from(id)]));
    }
    done
}
