// The three queries. Each tests the table, as every call does, and changes nothing. The answers are C's structs, and C has no Result: a
// `number` is 0, or why it is refused.
#![tactic(auto)]

ghost use Rattle.std.specs.Prelude.{◌≡◌};
ghost use Rattle.refusals.specs.Numbers.{reason_number};
ghost use Rattle.queries.specs.Queries.{running_answer, thread_answer, thread_refused, resource_answer, resource_refused};

use refusals::Reason;
use soundness::check::check;
use table::Table;

// The running thread; 32 if there is none, and on a refusal.
#[repr(C)]
#[derive(Clone, Copy)]
pub struct RunningAnswer {
    pub number: u8,
    pub running: u8,
}

pub fn running_of(t: Table) -> RunningAnswer
    ensures { result ≡ running_answer t }
{
    match check(&t) {
        Some(w) => RunningAnswer {
            number: 0,
            running: w.running(),
        },
        None => RunningAnswer {
            number: u8::from(Reason::UnsoundTable),
            running: Table::NOBODY,
        },
    }
}

// A thread's own priority and set time, its current precedence, the resource it waits for, 16 if none, and how often it requested and
// released since it was created. On a refusal zeros.
#[repr(C)]
#[derive(Clone, Copy, Default)]
pub struct ThreadAnswer {
    pub number: u8,
    pub priority: u8,
    pub time: u16,
    pub current_priority: u8,
    pub current_time: u16,
    pub waits_for: u8,
    pub requests: u16,
    pub releases: u16,
}

impl ThreadAnswer {
    fn refused(reason: Reason) -> ThreadAnswer
        ensures { result ≡ thread_refused (reason_number reason) }
    {
        ThreadAnswer {
            number: u8::from(reason),
            ..ThreadAnswer::default()
        }
    }
}

// What is stored as current precedence is the defined one, since the table is sound.
pub fn thread_of(t: Table, thread: u8) -> ThreadAnswer
    ensures { result ≡ thread_answer t thread }
{
    let Some(w) = check(&t) else {
        return ThreadAnswer::refused(Reason::UnsoundTable);
    };
    let i = usize::from(thread);
    if Table::THREADS <= i {
        return ThreadAnswer::refused(Reason::NoSuchThread);
    }
    if t.live[i] != 1 {
        return ThreadAnswer::refused(Reason::NotLive);
    }
    ThreadAnswer {
        number: 0,
        priority: t.priority[i],
        time: t.time[i],
        current_priority: t.current_priority[i],
        current_time: t.current_time[i],
        waits_for: w.graph.waits[i],
        requests: t.requests[i],
        releases: t.releases[i],
    }
}

// A resource's holder, 32 if it is free, and the number of its waiters. On a refusal zeros.
#[repr(C)]
#[derive(Clone, Copy, Default)]
pub struct ResourceAnswer {
    pub number: u8,
    pub holder: u8,
    pub waiters: u8,
}

impl ResourceAnswer {
    fn refused(reason: Reason) -> ResourceAnswer
        ensures { result ≡ resource_refused (reason_number reason) }
    {
        ResourceAnswer {
            number: u8::from(reason),
            ..ResourceAnswer::default()
        }
    }
}

// Of a queue all but the first wait.
pub fn resource_of(t: Table, resource: u8) -> ResourceAnswer
    ensures { result ≡ resource_answer t resource }
{
    let Some(w) = check(&t) else {
        return ResourceAnswer::refused(Reason::UnsoundTable);
    };
    let r = usize::from(resource);
    if Table::RESOURCES <= r {
        return ResourceAnswer::refused(Reason::Malformed);
    }
    ResourceAnswer {
        number: 0,
        holder: w.graph.holders[r],
        waiters: t.rows.length[r].saturating_sub(1),
    }
}
