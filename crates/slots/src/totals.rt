// Whether the totals are right: requests and releases of each thread, by the number of queues that it stands in.
ghost use Rattle.std.specs.Prelude.{◌≡◌, true, ◌↔◌};
ghost use Rattle.slots.specs.Slots.{AllAddUp};

use table::Table;

// Whether all totals are right: those of a dead thread too, which stands in no queue. They stay numbers of 16 bits, so that eight are compared at a
// time, and by `&`, so that no turn has a branch.
pub fn totals_right(t: &Table, standing: &[u16; Table::THREADS]) -> bool
    ensures { (result ≡ true) ↔ AllAddUp t.now.clock t.now.requests t.now.releases standing.now }
{
    let mut right = true;
    for i in 0..Table::THREADS {
        let balanced = (t.releases[i] <= t.requests[i])
            & (t.requests[i].wrapping_sub(t.releases[i]) == standing[i]);
        right &= balanced & (t.requests[i] <= t.clock);
    }
    right
}
