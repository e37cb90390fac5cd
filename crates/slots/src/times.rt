// Whether the set times of live threads are all different.
ghost use Rattle.std.specs.Prelude.{◌≡◌, true, ◌↔◌, ◌<◌};
ghost use Rattle.table.specs.Table.{at};
ghost use Rattle.slots.specs.Slots.{TimesDiffer, TimeTaken};

use table::Table;

// Whether another live thread has the set time of the live thread i: whether more than one has it. They are counted, by `&` and not `&&`,
// so that the loop compares many at a time.
fn time_taken(t: &Table, i: usize) -> bool
    requires { (i < 32) × (at t.now.live i ≡ 1) }
    ensures { (result ≡ true) ↔ TimeTaken t.now.live t.now.time 32 i }
{
    let time = t.time[i];
    let mut n = 0;
    for j in 0..Table::THREADS {
        n += u32::from((t.live[j] == 1) & (t.time[j] == time));
    }
    1 < n
}

// How many marks there are for times. Enough that of 32 threads few share one, and little to clear.
const MARKS: usize = 64;

// Whether the set times of live threads are all different. Of two that have the same time the later finds its mark set, so only
// threads that find it set are compared with the others.
pub fn times_differ(t: &Table) -> bool
    ensures { (result ≡ true) ↔ TimesDiffer t.now.live t.now.time }
{
    let mut marks = [false; MARKS];
    for i in 0..Table::THREADS {
        if t.live[i] == 1 {
            let mark = usize::from(t.time[i]) % MARKS;
            if marks[mark] && time_taken(t, i) {
                return false;
            }
            marks[mark] = true;
        }
    }
    true
}
