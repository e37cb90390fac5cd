// The calls of a kernel that keeps its only table and lends it. A query calls the by-value function; the step hands the table on as it is
// lent, to the function of crate lent that stores what the by-value step gives back. Crate locktable_c exports them for C; include/locktable.h
// declares them, and include/terminal.h those of the module tasks.
#![tactic(auto)]

pub mod tasks;

ghost use Rattle.std.specs.Prelude.{◌≡◌};
ghost use Rattle.table.specs.Table.{empty};
ghost use Rattle.queries.specs.Queries.{running_answer, thread_answer, resource_answer};
ghost use Rattle.locks.specs.Answers.{answer_of};
ghost use Rattle.event_log.specs.Keep.{Keeps};
ghost use Rattle.replay.specs.Read.{Gives};
ghost use Rattle.locktable.specs.Four.{four_of};

use event_log::keep;
use lent::step_lent;
use locks::{Answer, Record};
use queries::{ResourceAnswer, RunningAnswer, ThreadAnswer, resource_of, running_of, thread_of};
use replay::{Replayed, replay};
use table::Table;

// An event: the lent table is the step's afterwards.
pub fn locktable_step(t: &mut Table, e: Record) -> Answer
    ensures { (result ≡ (answer_of t.old e).answer) × (t.new ≡ (answer_of t.old e).table) }
{
    step_lent(t, e)
}

// A shipment starts: the lent table, whatever it held, is the empty one.
pub fn locktable_empty(t: &mut Table)
    ensures { t.new ≡ empty }
{
    *t = Table::empty();
}

// The queries: the lent table is as it was.
pub fn locktable_running(t: &Table) -> RunningAnswer
    ensures { (result ≡ running_answer t.now) × (t.exit.now ≡ t.entry.now) }
{
    running_of(*t)
}

pub fn locktable_thread(t: &Table, thread: u8) -> ThreadAnswer
    ensures { (result ≡ thread_answer t.now thread) × (t.exit.now ≡ t.entry.now) }
{
    thread_of(*t, thread)
}

pub fn locktable_resource(t: &Table, resource: u8) -> ResourceAnswer
    ensures { (result ≡ resource_answer t.now resource) × (t.exit.now ≡ t.entry.now) }
{
    resource_of(*t, resource)
}

// A record is kept in the lent log, behind the `so_far` that it has. The answer is 0 for C, or the refusal's number.
pub fn locktable_log(log: &mut [u8], so_far: u32, e: Record) -> u8
    ensures { Keeps log.old so_far (four_of e) result log.new }
{
    match keep(log, so_far, [e.kind, e.thread, e.argument, e.zero]) {
        Ok(()) => 0,
        Err(refusal) => u8::from(refusal),
    }
}

// A log is read back: the table after it comes by value, with how many records were applied and what stopped it.
pub fn locktable_replay(log: &[u8]) -> Replayed
    ensures { Gives log.now result }
{
    replay(log)
}
