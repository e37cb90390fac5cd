// Create, Exit and Set: the number of one thread changes. The result is how many threads were worked out afresh.
ghost use Rattle.std.specs.Prelude.{◌≡◌, List, ℕ, ◌<◌};
ghost use Rattle.protocol.specs.Events.{Create, Exit, Set};
ghost use Rattle.table.specs.declared.Table.{Table};
ghost use Rattle.events.specs.Code.Work.{Begun, DoneWith};

use chains::law::afresh;
use table::numbers::number;
use table::workings::Workings;
use table::{Rows, Table};

// A thread that is created stands in no queue, so that its number is its own.
pub fn create(current: &mut [u32; Table::THREADS], thread: u8, priority: u8, time: u16) -> u8
    requires { thread < 32 }
    ensures { (t : Table) (queue lengths holders waits owns : List ℕ) → Begun t (Create thread priority) queue lengths holders waits owns current.old → time ≡ t.clock →
        DoneWith t (Create thread priority) queue lengths holders waits current.new result }
{
    current[usize::from(thread)] = number(priority, time);
    1
}

// A thread that exits stands in no queue, so that nobody's number but its own changes.
pub fn exit(current: &mut [u32; Table::THREADS], thread: u8) -> u8
    requires { thread < 32 }
    ensures { (t : Table) (queue lengths holders waits owns : List ℕ) → Begun t (Exit thread) queue lengths holders waits owns current.old →
        DoneWith t (Exit thread) queue lengths holders waits current.new result }
{
    current[usize::from(thread)] = 0;
    0
}

// A thread that is set waits for nothing, so that it is worked out alone.
pub fn set_anew(rows: &Rows, w: &mut Workings, thread: u8, priority: u8, time: u16) -> u8
    requires { thread < 32 }
    ensures { (t : Table) (owns : List ℕ) → Begun t (Set thread priority) rows.now.queue rows.now.length w.old.graph.holders w.old.graph.waits owns w.old.current → time ≡ t.clock →
        DoneWith t (Set thread priority) rows.now.queue rows.now.length w.new.graph.holders w.new.graph.waits w.new.current result }
{
    w.current[usize::from(thread)] = afresh(rows, w, number(priority, time), thread);
    1
}
