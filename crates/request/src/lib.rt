// P: a thread joins the end of a resource's queue.
#![tactic(auto)]

mod climb;

ghost use Rattle.std.specs.Prelude.{◌≡◌, List, ℕ};
ghost use Rattle.protocol.specs.Events.{P};
ghost use Rattle.table.specs.declared.Table.{Table};
ghost use Rattle.events.specs.Code.Work.{Begun, DoneWith};

use crate::climb::climb;
use table::workings::Workings;
use table::{Rows, Table};

// A thread that finds the queue empty holds the resource, and no number changes. Otherwise it waits, and the walk carries its number
// up from the holder. The own numbers are not read: the walk needs the current ones alone.
pub fn request(rows: &mut Rows, w: &mut Workings, thread: u8, resource: u8) -> u8
    requires { (t : Table) × (owns : List ℕ) × Begun t (P thread resource) rows.old.queue rows.old.length w.old.graph.holders w.old.graph.waits owns w.old.current }
    ensures done { (t : Table) (owns : List ℕ) → Begun t (P thread resource) rows.old.queue rows.old.length w.old.graph.holders w.old.graph.waits owns w.old.current →
        DoneWith t (P thread resource) rows.new.queue rows.new.length w.new.graph.holders w.new.graph.waits w.new.current result }
    ensures own_stays { w.new.own ≡ w.old.own }
{
    let r = usize::from(resource);
    let n = usize::from(rows.length[r]);
    rows.length[r] += 1;
    rows.queue[r * Table::THREADS + n] = thread;
    let is_free = n == 0;
    if is_free {
        w.graph.holders[r] = thread;
        return 0;
    }
    let i = usize::from(thread);
    w.graph.waits[i] = resource;
    let v = w.current[i];
    climb(&w.graph, &mut w.current, w.graph.holders[r], v)
}
