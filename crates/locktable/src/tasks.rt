// The terminal's calls: each calls the by-value function of crate terminal and stores the table that this gives back. Crate
// locktable_c exports them for C; include/terminal.h declares them.
ghost use Rattle.std.specs.Prelude.{◌≡◌};
ghost use Rattle.terminal.specs.Start.{started};
ghost use Rattle.terminal.specs.Spare.{spare_answer};

use locks::Answer;
use table::Table;
use terminal::spare::spare;
use terminal::start::start;

// A shipment starts: whatever the lent table held, the fixed tasks are created on the empty one.
pub fn terminal_start(t: &mut Table) -> Answer
    ensures { (result ≡ started.answer) × (t.new ≡ started.table) }
{
    let done = start();
    *t = done.table;
    done.answer
}

// A spare task is added, without a priority or with one: two calls, since C has no Option.
pub fn terminal_spare(t: &mut Table, id: u8) -> Answer
    ensures { (result ≡ (spare_answer t.old id None).answer) × (t.new ≡ (spare_answer t.old id None).table) }
{
    let done = spare(*t, id, None);
    *t = done.table;
    done.answer
}

pub fn terminal_spare_at(t: &mut Table, id: u8, priority: u8) -> Answer
    ensures { (result ≡ (spare_answer t.old id (Some priority)).answer) × (t.new ≡ (spare_answer t.old id (Some priority)).table) }
{
    let done = spare(*t, id, Some(priority));
    *t = done.table;
    done.answer
}
