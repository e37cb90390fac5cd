// The lock table, and reading it. See specs/ for what each field means and when a table is sound.
#![tactic(auto)]

pub mod numbers;
pub mod queues;
pub mod workings;

ghost use Rattle.std.specs.Prelude.{◌≡◌, ◌<◌};
ghost use Rattle.table.specs.Slots.{fresh_slot, set_slot, requested_slot, released_slot, with_slot};
ghost use Rattle.table.specs.Table.{empty, slot, dead_slot};

// The queues: a row of 32 places for each resource, one row behind the other, and how many of them stand in use.
#[repr(C)]
#[derive(Clone, Copy)]
pub struct Rows {
    pub queue: [u8; Table::PLACES],
    pub length: [u8; Table::RESOURCES],
}

// One array a property, not one struct a thread: the layout for C, and loops over an array of numbers vectorise. `live` is 0 or 1, and any
// other number makes the table unsound; that the clock is at most 65,535 and a priority at most 255 holds by the types. Later fields stand
// last, so that those before them stay where they were.
#[repr(C)]
#[derive(Clone, Copy)]
pub struct Table {
    pub clock: u16,
    pub live: [u8; Table::THREADS],
    pub priority: [u8; Table::THREADS],
    pub time: [u16; Table::THREADS],
    pub current_priority: [u8; Table::THREADS],
    pub current_time: [u16; Table::THREADS],
    pub rows: Rows,
    pub requests: [u16; Table::THREADS],
    pub releases: [u16; Table::THREADS],
}

impl Table {
    // Thread ids are 0 to 31, resources 0 to 15, and the clock stops at 65,535.
    pub const THREADS: usize = 32;

    pub const RESOURCES: usize = 16;

    pub const EVENTS: u16 = 65535;

    // The queue places: 32 for each of the 16 resources.
    pub const PLACES: usize = Table::THREADS * Table::RESOURCES;

    // What stands for no thread, and for no resource.
    pub const NOBODY: u8 = Table::THREADS as u8;

    pub const NOTHING: u8 = Table::RESOURCES as u8;

    pub fn empty() -> Table
        ensures { result ≡ empty }
    {
        Table {
            clock: 0,
            live: [0; Table::THREADS],
            priority: [0; Table::THREADS],
            time: [0; Table::THREADS],
            current_priority: [0; Table::THREADS],
            current_time: [0; Table::THREADS],
            rows: Rows {
                queue: [0; Table::PLACES],
                length: [0; Table::RESOURCES],
            },
            requests: [0; Table::THREADS],
            releases: [0; Table::THREADS],
        }
    }

    // The slot of a thread.
    pub fn slot(&self, thread: u8) -> Slot
        requires { thread < 32 }
        ensures { result ≡ slot self.now thread }
    {
        let i = usize::from(thread);
        Slot {
            live: self.live[i],
            priority: self.priority[i],
            time: self.time[i],
            requests: self.requests[i],
            releases: self.releases[i],
        }
    }

    // The thread has this slot from now on.
    #[tactic(auto, unfolding(crate::specs::Slots::with_slot))]
    pub fn set_slot(&mut self, thread: u8, slot: Slot)
        requires { thread < 32 }
        ensures { self.new ≡ with_slot self.old thread slot }
    {
        let i = usize::from(thread);
        self.live[i] = slot.live;
        self.priority[i] = slot.priority;
        self.time[i] = slot.time;
        self.requests[i] = slot.requests;
        self.releases[i] = slot.releases;
    }
}

// What the table has of one thread, but for its current precedence: the same numbers, `live` too, since C fixes the table's.
#[derive(Clone, Copy)]
pub struct Slot {
    pub live: u8,
    pub priority: u8,
    pub time: u16,
    pub requests: u16,
    pub releases: u16,
}

impl Slot {
    // Live, with this priority, set at this time; its totals count from here.
    pub fn fresh(priority: u8, time: u16) -> Slot
        ensures { result ≡ fresh_slot priority time }
    {
        Slot {
            live: 1,
            priority,
            time,
            ..Slot::dead()
        }
    }

    // Zero everywhere.
    pub fn dead() -> Slot
        ensures { result ≡ dead_slot }
    {
        Slot {
            live: 0,
            priority: 0,
            time: 0,
            requests: 0,
            releases: 0,
        }
    }

    // A new own priority, set at this time; the rest stays.
    pub fn anew(self, priority: u8, time: u16) -> Slot
        ensures { result ≡ set_slot self priority time }
    {
        Slot {
            priority,
            time,
            ..self
        }
    }

    // One request more.
    pub fn requested(mut self) -> Slot
        requires { self.requests < 65535 }
        ensures { result ≡ requested_slot self }
    {
        self.requests += 1;
        self
    }

    // One release more.
    pub fn released(mut self) -> Slot
        requires { self.releases < 65535 }
        ensures { result ≡ released_slot self }
    {
        self.releases += 1;
        self
    }
}
