// Precedences as numbers: a higher precedence is a greater number, and 0 is nobody's.
ghost use Rattle.std.specs.Prelude.{◌≡◌, ◌<◌};
ghost use Rattle.protocol.specs.Rank.{rank};
ghost use Rattle.table.specs.Table.{at};
ghost use Rattle.table.specs.Code.Places.{slot_number, NumbersOf};

use crate::Table;

// The number of a precedence.
pub fn number(priority: u8, time: u16) -> u32
    ensures { result ≡ rank 65535 (priority, time) }
{
    u32::from(priority) * (u32::from(Table::EVENTS) + 1) + u32::from(Table::EVENTS - time)
}

// The number of a slot, 0 if it isn't live. That a priority and a time fit their types is said for those who read arrays.
pub fn slot_number(live: u8, priority: u8, time: u16) -> u32
    ensures { (result ≡ slot_number live priority time) × (priority < 256) × (time < 65536) }
{
    if live == 1 { number(priority, time) } else { 0 }
}

// The numbers of all 32 slots.
fn numbers<'a>(
    live: &'a [u8; Table::THREADS],
    priority: &'a [u8; Table::THREADS],
    time: &'a [u16; Table::THREADS],
) -> [u32; Table::THREADS]
    ensures { NumbersOf live.now priority.now time.now result }
{
    let mut all = [0; Table::THREADS];
    for i in 0..Table::THREADS {
        all[i] = slot_number(live[i], priority[i], time[i]);
    }
    all
}

impl Table {
    // The numbers of the threads' own precedences.
    pub fn own_numbers(&self) -> [u32; Table::THREADS]
        ensures { NumbersOf self.now.live self.now.priority self.now.time result }
    {
        numbers(&self.live, &self.priority, &self.time)
    }

    // The numbers of their current precedences, as they are stored.
    pub fn current_numbers(&self) -> [u32; Table::THREADS]
        ensures { NumbersOf self.now.live self.now.current_priority self.now.current_time result }
    {
        numbers(&self.live, &self.current_priority, &self.current_time)
    }
}

// The number of thread x; 0 if there is no such thread.
pub fn value(all: &[u32; Table::THREADS], x: u8) -> u32
    ensures { result ≡ at all.now x }
{
    all.get(usize::from(x)).copied().unwrap_or(0)
}
