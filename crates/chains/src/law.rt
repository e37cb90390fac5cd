// The local law: the highest of a thread's own number and its direct waiters' numbers.
ghost use Rattle.std.specs.Prelude.{◌≡◌, ℕ, ◌<◌, ◌≤◌};
ghost use Rattle.protocol.specs.Sets.{only, ◌∪◌, Max};
ghost use Rattle.table.specs.Table.{at};
ghost use Rattle.chains.specs.Law.{WaitersNumbers, entries_of, Compared};

use table::numbers::value;
use table::queues::longest;
use table::workings::Workings;
use table::{Rows, Table};

// The highest of start and the numbers of the waiters in the first n places of r: whoever stands at the first holds r.
fn highest_waiter<'a>(rows: &'a Rows, w: &'a Workings, r: usize, n: usize, start: u32) -> u32
    requires { (r < 16) × (n ≤ 32) }
    ensures { Max ◌≤◌ (only start ∪ WaitersNumbers rows.now.queue w.now.current r n) result }
{
    let from = r * Table::THREADS;
    let mut best = start;
    if let [_, waiters @ ..] = &rows.queue[from..from + n] {
        for x in waiters {
            best = best.max(value(&w.current, *x));
        }
    }
    best
}

// How many entries a queue of this length has; a length that is not right counts as none.
fn entries(size: u8) -> usize
    ensures { (result ≡ entries_of size) × (result ≤ 32) }
{
    let n = usize::from(size);
    if Table::THREADS < n { 0 } else { n }
}

// How many resources the law has to look at: none where no queue has a second entry, since then nobody waits.
fn rows_to_compare(lengths: &[u8; Table::RESOURCES]) -> usize
    ensures { (result ≤ 16) × ((r : ℕ) → result ≤ r → r < 16 → at lengths.now r ≤ 1) }
{
    let nobody_waits = longest(lengths) < 2;
    if nobody_waits { 0 } else { Table::RESOURCES }
}

// What each thread is worth by the law, in one pass over the queues.
pub fn law_values<'a>(rows: &'a Rows, w: &'a Workings) -> [u32; Table::THREADS]
    ensures { (t : ℕ) → t < 32 → Max ◌≤◌ (Compared rows.now.queue rows.now.length w.now.graph.holders w.now.current 16 (at w.now.own t) t) (at result t) }
{
    let mut best = w.own;
    for r in 0..rows_to_compare(&rows.length) {
        let n = rows.length[r];
        let h = usize::from(w.graph.holders[r]);
        if 1 < n && h < Table::THREADS {
            best[h] = highest_waiter(rows, w, r, entries(n), best[h]);
        }
    }
    best
}

// One thread worked out afresh from its direct waiters. Who holds is tested before the length, since most resources fail at that; where
// the length is 0 or 1 nobody is compared.
pub fn afresh<'a>(rows: &'a Rows, w: &'a Workings, own: u32, t: u8) -> u32
    ensures { Max ◌≤◌ (Compared rows.now.queue rows.now.length w.now.graph.holders w.now.current 16 own t) result }
{
    let mut best = own;
    for r in 0..rows_to_compare(&rows.length) {
        let held = w.graph.holders[r] == t;
        if held {
            best = highest_waiter(rows, w, r, entries(rows.length[r]), best);
        }
    }
    best
}
