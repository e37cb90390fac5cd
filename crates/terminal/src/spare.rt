// Spare tasks.
ghost use Rattle.std.specs.Prelude.{◌≡◌, cond};
ghost use Rattle.table.specs.Compute.{is_sound};
ghost use Rattle.locks.specs.Answers.{refused};
ghost use Rattle.terminal.specs.Tasks.{is_spare};
ghost use Rattle.terminal.specs.Spare.{spare_answer};

use crate::creation;
use lent::step_of;
use locks::Done;
use refusals::{Reason, Record};
use table::Table;

// The ids of spare tasks.
const FIRST: u8 = 16;

const LAST: u8 = 31;

// The refusal of any other id: a byte of an answer that C reads, and this crate's only one, so it is no enum.
const NOT_SPARE: u8 = 17;

// What a spare task gets for which no priority is said.
const DEFAULT: u8 = 0;

// A record of no kind: the step refuses it with 1 or 2, and also tells who runs.
const NO_KIND: Record = Record {
    kind: 0,
    thread: 0,
    argument: 0,
    zero: 0,
};

fn is_spare(id: u8) -> bool
    ensures { result ≡ is_spare id }
{
    (FIRST..=LAST).contains(&id)
}

// An id that is no spare task's, whichever it is. The step's reason for it is 17 here.
fn turned_away(t: Table) -> Done
    ensures { result ≡ refused t (cond (is_sound t) 17 1) }
{
    let mut done = step_of(t, NO_KIND);
    let no_such_kind = done.answer.number == u8::from(Reason::NoSuchKind);
    if no_such_kind {
        done.answer.number = NOT_SPARE;
    }
    done
}

// A spare task is added: its id is looked at first, and the rest is the step's.
pub fn spare(t: Table, id: u8, wanted: Option<u8>) -> Done
    ensures { result ≡ spare_answer t id wanted }
{
    if !is_spare(id) {
        return turned_away(t);
    }
    let priority = wanted.unwrap_or(DEFAULT);
    step_of(t, creation(id, priority))
}
