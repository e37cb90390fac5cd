// The calls for C: include/locktable.h declares them, and include/terminal.h those of the module tasks. Each calls the one of its name in
// crate locktable, takes what that takes, and states what that states (proofs/Same). A crate is a library for other crates or an archive for C.
#![tactic(auto)]

pub mod tasks;

ghost use Rattle.std.specs.Prelude.{◌≡◌};
ghost use Rattle.table.specs.Table.{empty};
ghost use Rattle.queries.specs.Queries.{running_answer, thread_answer, resource_answer};
ghost use Rattle.locks.specs.Answers.{answer_of};
ghost use Rattle.event_log.specs.Keep.{Keeps};
ghost use Rattle.replay.specs.Read.{Gives};
ghost use Rattle.locktable.specs.Four.{four_of};

use locks::{Answer, Record};
use queries::{ResourceAnswer, RunningAnswer, ThreadAnswer};
use replay::Replayed;
use table::Table;

// An event: the lent table is the step's afterwards.
#[unsafe(no_mangle)]
pub extern "C" fn locktable_step(t: &mut Table, e: Record) -> Answer
    ensures { (result ≡ (answer_of t.old e).answer) × (t.new ≡ (answer_of t.old e).table) }
{
    locktable::locktable_step(t, e)
}

// A shipment starts: the lent table, whatever it held, is the empty one.
#[unsafe(no_mangle)]
pub extern "C" fn locktable_empty(t: &mut Table)
    ensures { t.new ≡ empty }
{
    locktable::locktable_empty(t)
}

// The queries: the lent table is as it was.
#[unsafe(no_mangle)]
pub extern "C" fn locktable_running(t: &Table) -> RunningAnswer
    ensures { (result ≡ running_answer t.now) × (t.exit.now ≡ t.entry.now) }
{
    locktable::locktable_running(t)
}

#[unsafe(no_mangle)]
pub extern "C" fn locktable_thread(t: &Table, thread: u8) -> ThreadAnswer
    ensures { (result ≡ thread_answer t.now thread) × (t.exit.now ≡ t.entry.now) }
{
    locktable::locktable_thread(t, thread)
}

#[unsafe(no_mangle)]
pub extern "C" fn locktable_resource(t: &Table, resource: u8) -> ResourceAnswer
    ensures { (result ≡ resource_answer t.now resource) × (t.exit.now ≡ t.entry.now) }
{
    locktable::locktable_resource(t, resource)
}

// A record is kept in the lent log, behind the `so_far` that it has.
#[unsafe(no_mangle)]
pub extern "C" fn locktable_log(log: &mut [u8], so_far: u32, e: Record) -> u8
    ensures { Keeps log.old so_far (four_of e) result log.new }
{
    locktable::locktable_log(log, so_far, e)
}

// A log is read back: the table after it comes by value, with how many records were applied and what stopped it.
#[unsafe(no_mangle)]
pub extern "C" fn locktable_replay(log: &[u8]) -> Replayed
    ensures { Gives log.now result }
{
    locktable::locktable_replay(log)
}
