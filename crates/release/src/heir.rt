// Who follows at a V. No other function names the rule: all others take the place of whoever follows.
ghost use Rattle.std.specs.Prelude.{◌≡◌, ℕ, ◌<◌, ◌≤◌, ◌+◌, List, length, MatchOption, IfSome};
ghost use Rattle.table.specs.declared.Table.{Table};
ghost use Rattle.table.specs.Table.{at, queues};
ghost use Rattle.table.specs.Code.Tracks.{Known};
ghost use Rattle.refusals.specs.declared.Record.{Record};
ghost use Rattle.refusals.specs.Refusals.{lowest, refusals};
ghost use Rattle.events.specs.Events.{heir};
ghost use Rattle.release.specs.Heir.{NextRight, next_at};

use table::numbers::value;
use table::{Rows, Table};

// Whoever follows at a V: its place in the queue, and its number afterwards.
#[derive(Clone, Copy)]
pub struct Next {
    pub place: usize,
    pub number: u32,
}

// Whoever follows the head of this queue: the waiter of highest current precedence.
fn heir_place(row: &[u8], current: &[u32; Table::THREADS]) -> Option<Next>
    ensures waiter { MatchOption result (length row.now < 2) (λ x. (1 ≤ x.place) × (x.place < length row.now)) }
    ensures number { IfSome result (λ x. x.number ≡ at current.now (at row.now x.place)) }
    ensures highest { (k : ℕ) → k + 1 < length row.now → IfSome result (λ x. at current.now (at row.now (k + 1)) ≤ x.number) }
{
    (1..row.len())
        .map(|place| Next {
            place,
            number: value(current, row[place]),
        })
        .max_by_key(|next| next.number)
}

// Who follows at a V: the place of the heir in the queue of the resource. The numbers are those before the V.
pub fn follower(rows: &Rows, current: &[u32; Table::THREADS], resource: u8) -> Option<Next>
    ensures { (t : Table) (waits holders owns : List ℕ) (e : Record) → Known t waits holders owns current.now → lowest (refusals t e) ≡ 0 →
        rows.now.queue ≡ t.rows.queue → rows.now.length ≡ t.rows.length → e.kind ≡ 5 → e.argument ≡ resource →
        NextRight rows.now.queue rows.now.length current.now resource result × (next_at rows.now.queue resource result ≡ heir t (queues t resource)) }
{
    let r = usize::from(resource);
    let n = usize::from(*rows.length.get(r)?);
    let start = r * Table::THREADS;
    heir_place(rows.queue.get(start..start + n)?, current)
}
