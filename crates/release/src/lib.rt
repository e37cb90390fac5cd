// V: the thread leaves the head of the resource's queue, and whoever stands at a given place follows.
#![tactic(auto)]

pub mod heir;

ghost use Rattle.std.specs.Prelude.{◌≡◌, ◌*◌, ◌<◌, ◌≤◌, take, drop, Option};
ghost use Rattle.std.proofs.Math.Option.{some};
ghost use Rattle.protocol.specs.Events.{«V»};
ghost use Rattle.protocol.specs.Schedule;
ghost use Rattle.table.specs.declared.Table.{Table};
ghost use Rattle.table.specs.Code.Places.{entry};
ghost use Rattle.events.specs.Code.Rows.{Row, rewritten};
ghost use Rattle.events.specs.Code.Work.{Begun, DoneWith};
ghost use Rattle.release.specs.Heir.{NextRight, next_at};

use crate::heir::Next;
use chains::law::afresh;
use table::workings::Workings;
use table::{Rows, Table};

// The entry at place p of the n entries of r goes to the head, and those behind it move up. The result is that entry.
fn hand_over(queue: &mut [u8; Table::PLACES], r: usize, p: usize, n: usize) -> u8
    requires { Row queue.old r n × (1 ≤ p) × (p < n) }
    ensures written { queue.new ≡ rewritten queue.old (r * 32) (Schedule.release (take n (drop (r * 32) queue.old)) (some (entry queue.old r p))) }
    ensures heir { result ≡ entry queue.old r p }
{
    let start = r * Table::THREADS;
    let end = start + n;
    let heir = queue[start + p];
    queue.copy_within(start + p + 1..end, start + p);
    queue[end - 1] = 0;
    queue[start] = heir;
    heir
}

// Whoever stands at the place of `next` follows, if anybody does. The thread waits for nothing, so whoever else holds a resource keeps
// its number: only the two who hold this one, before and after, are worked out. Whoever follows has the highest number of those who
// waited, which comes with its place.
pub fn release(
    rows: &mut Rows,
    w: &mut Workings,
    thread: u8,
    resource: u8,
    next: Option<Next>,
) -> u8
    requires { NextRight rows.old.queue rows.old.length w.old.current resource next
        × ((t : Table) × Begun t («V» thread resource (next_at rows.old.queue resource next)) rows.old.queue rows.old.length w.old.graph.holders w.old.graph.waits w.old.own w.old.current) }
    ensures done { (t : Table) → Begun t («V» thread resource (next_at rows.old.queue resource next)) rows.old.queue rows.old.length w.old.graph.holders w.old.graph.waits w.old.own w.old.current →
        DoneWith t («V» thread resource (next_at rows.old.queue resource next)) rows.new.queue rows.new.length w.new.graph.holders w.new.graph.waits w.new.current result }
    ensures own_stays { w.new.own ≡ w.old.own }
{
    let r = usize::from(resource);
    let n = usize::from(rows.length[r]);
    rows.length[r] -= 1;
    let Some(next) = next else {
        rows.queue[r * Table::THREADS] = 0;
        w.graph.holders[r] = Table::NOBODY;
        return 0;
    };
    let heir = hand_over(&mut rows.queue, r, next.place, n);
    w.graph.holders[r] = heir;
    let i = usize::from(thread);
    let h = usize::from(heir);
    w.graph.waits[h] = Table::NOTHING;
    let left = afresh(rows, w, w.own[i], thread);
    w.current[i] = left;
    w.current[h] = next.number;
    2
}
