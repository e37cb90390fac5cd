// Whether each slot is right by itself: a live thread's time is below the clock, and a dead slot is zero.
ghost use Rattle.std.specs.Prelude.{◌≡◌, true, ◌↔◌, ◌<◌};
ghost use Rattle.table.specs.Table.{at};
ghost use Rattle.slots.specs.Slots.{SlotRight, SlotsRight};

use table::Table;

// Whether slot i is right. A dead slot's releases are not looked at: `totals_right` decides them. Everything is compared, by `&` and not
// `&&`: that leaves the loop over the slots without a branch.
fn slot_right(t: &Table, clock: u16, i: usize) -> bool
    requires { i < 32 }
    ensures { (result ≡ true) ↔ SlotRight clock (at t.now.live i) (at t.now.priority i) (at t.now.time i) (at t.now.current_priority i) (at t.now.current_time i) (at t.now.requests i) }
{
    let alive = (t.live[i] == 1) & (t.time[i] < clock);
    let zero = (t.live[i] == 0)
        & (t.priority[i] == 0)
        & (t.time[i] == 0)
        & (t.current_priority[i] == 0)
        & (t.current_time[i] == 0)
        & (t.requests[i] == 0);
    alive | zero
}

// Whether all slots are right. The pass doesn't stop at a wrong one, so that it compares many at a time. That the clock
// fits its type is said for those who have the table by a reference.
pub fn slots_right(t: &Table) -> bool
    ensures clock { t.now.clock < 65536 }
    ensures right { (result ≡ true) ↔ SlotsRight t.now.clock t.now.live t.now.priority t.now.time t.now.current_priority t.now.current_time t.now.requests }
{
    let clock = t.clock;
    let mut right = true;
    for i in 0..Table::THREADS {
        right &= slot_right(t, clock, i);
    }
    right
}
