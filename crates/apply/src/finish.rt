// The end of an accepted event: who runs, and the current precedences that are stored.
ghost use Rattle.std.specs.Prelude.{◌≡◌, ℕ, ◌/◌, ◌<◌};
ghost use Rattle.table.specs.Table.{at};
ghost use Rattle.events.specs.Code.Work.{with_current};
ghost use Rattle.release.specs.Heir.{next_at};
ghost use Rattle.apply.specs.Accepted.{Accepted, Carried};
ghost use Rattle.apply.specs.Stored.{time_in, StoredOf};

use crate::kinds::apply;
use refusals::{Kind, Record};
use release::heir::Next;
use table::Table;
use table::workings::Workings;

// The priority in a number.
fn priority_in(n: u32) -> u8
    requires { n / 65536 < 256 }
    ensures { result ≡ n / 65536 }
{
    (n / (u32::from(Table::EVENTS) + 1)) as u8
}

// The time in a number; 0 in the number 0, which is nobody's.
fn time_in(n: u32) -> u16
    ensures { result ≡ time_in n }
{
    if n == 0 {
        0
    } else {
        (u32::from(Table::EVENTS) - n % (u32::from(Table::EVENTS) + 1)) as u16
    }
}

// The priorities and times in these numbers are the current ones from now on. One loop for both (docs/DECISIONS.md, "What a call costs").
fn store(t: &mut Table, current: &[u32; Table::THREADS])
    requires { (th : ℕ) → th < 32 → at current.now th / 65536 < 256 }
    ensures stored { StoredOf current.now t.new.current_priority t.new.current_time }
    ensures rest { t.new ≡ with_current t.old t.new.current_priority t.new.current_time }
{
    for i in 0..Table::THREADS {
        t.current_priority[i] = priority_in(current[i]);
        t.current_time[i] = time_in(current[i]);
    }
}

// What the answer to an accepted event says besides its number: who runs afterwards, and how many threads were worked out afresh.
#[derive(Clone, Copy)]
pub struct Outcome {
    pub running: u8,
    pub count: u8,
}

// The table becomes the one after the event. At a V `next` is whoever follows.
pub fn carry_out(
    t: &mut Table,
    w: &mut Workings,
    kind: Kind,
    e: Record,
    next: Option<Next>,
) -> Outcome
    requires { Accepted t.old e kind w.old.graph.waits w.old.graph.holders w.old.own w.old.current next }
    ensures { Carried t.old e (next_at t.old.rows.queue e.argument next) t.new result }
{
    let count = apply(t, w, kind, e, next);
    store(t, &w.current);
    Outcome {
        running: w.running(),
        count,
    }
}
