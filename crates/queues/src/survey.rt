// Whether the queues are right: lengths, entries, spare places, and that nobody waits in two. And what they say: who waits and who holds,
// and in how many each thread stands.
ghost use Rattle.std.specs.Prelude.{◌≡◌, true, ◌↔◌, ℕ, ◌<◌, ◌≤◌, length, sum, MatchOption};
ghost use Rattle.table.specs.Table.{at};
ghost use Rattle.table.specs.Code.Places.{entry};
ghost use Rattle.queues.specs.Queues.{RowRight, Noted, Counted, Headed, RowsRight, Surveyed};

use table::queues::longest;
use table::workings::Graph;
use table::{Rows, Table};

// Whether thread x is live; false if there is no such thread.
fn is_live(live: &[u8; Table::THREADS], x: u8) -> bool
    ensures { (result ≡ true) ↔ (at live.now x ≡ 1) }
{
    live.get(usize::from(x)) == Some(&1)
}

// The sum of the places of a queue.
fn total(places: &[u8]) -> u32
    requires { length places.now ≤ 32 }
    ensures { result ≡ sum places.now }
{
    places.iter().map(|x| u32::from(*x)).sum()
}

// Whether the places of r from n on are zero: just then they add nothing to the sum of those before, and sums vectorise.
fn spare_zero(queue: &[u8; Table::PLACES], r: u8, n: u8) -> bool
    requires { (r < 16) × (n ≤ 32) }
    ensures { (result ≡ true) ↔ ((i : ℕ) → n ≤ i → i < 32 → entry queue.now r i ≡ 0) }
{
    let start = usize::from(r) * Table::THREADS;
    let row = &queue[start..start + Table::THREADS];
    total(row) == total(&row[..usize::from(n)])
}

// What the queues say, and in how many of them each thread stands.
#[derive(Clone, Copy)]
pub struct Survey {
    pub graph: Graph,
    pub standing: [u16; Table::THREADS],
}

impl Survey {
    // Whether the n entries of r are live and differ and its waiters wait nowhere else so far; notes who holds r, r for each that waits for
    // it, and one queue more for each entry.
    fn note_row(
        &mut self,
        queue: &[u8; Table::PLACES],
        live: &[u8; Table::THREADS],
        r: u8,
        n: u8,
    ) -> bool
        requires { (r < 16) × (n ≤ 32) × ((x : ℕ) → at self.old.standing x ≤ r) }
        ensures noted { result ≡ true → RowRight queue.now live.now self.old.graph.waits r n × Noted queue.now self.old.graph.waits self.new.graph.waits r n × Headed queue.now self.old.graph.holders self.new.graph.holders r n × Counted queue.now self.old.standing self.new.standing r n }
        ensures right { RowRight queue.now live.now self.old.graph.waits r n → result ≡ true }
    {
        let start = usize::from(r) * Table::THREADS;
        let entries = &queue[start..start + usize::from(n)];
        let Some((head, waiters)) = entries.split_first() else {
            return true;
        };
        if !is_live(live, *head) {
            return false;
        }
        self.graph.holders[usize::from(r)] = *head;
        self.standing[usize::from(*head)] += 1;
        for x in waiters {
            let twice = *x == *head;
            let at = usize::from(*x);
            if twice || !is_live(live, *x) || self.graph.waits[at] != Table::NOTHING {
                return false;
            }
            self.graph.waits[at] = r;
            self.standing[at] += 1;
        }
        true
    }

    // What the queues say, where they are right. That the arrays have their sizes is said for those who reach them through a whole table.
    pub fn of(rows: &Rows, live: &[u8; Table::THREADS]) -> Option<Survey>
        ensures sizes { (length rows.now.queue ≡ 512) × (length rows.now.length ≡ 16) }
        ensures found { MatchOption result (¬ RowsRight rows.now.queue rows.now.length live.now 16) (λ s. RowsRight rows.now.queue rows.now.length live.now 16 × Surveyed rows.now.queue rows.now.length 16 s.graph.waits s.graph.holders s.standing) }
    {
        // A queue has 32 places.
        let too_long = Table::NOBODY < longest(&rows.length);
        if too_long {
            return None;
        }
        let mut found = Survey {
            graph: Graph::empty(),
            standing: [0; Table::THREADS],
        };
        for r in 0..Table::NOTHING {
            let n = rows.length[usize::from(r)];
            if !spare_zero(&rows.queue, r, n) || !found.note_row(&rows.queue, live, r, n) {
                return None;
            }
        }
        Some(found)
    }
}
