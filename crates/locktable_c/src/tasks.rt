// The terminal's calls.
ghost use Rattle.std.specs.Prelude.{◌≡◌};
ghost use Rattle.terminal.specs.Start.{started};
ghost use Rattle.terminal.specs.Spare.{spare_answer};

use locks::Answer;
use table::Table;

// A shipment starts: whatever the lent table held, the fixed tasks are created on the empty one.
#[unsafe(no_mangle)]
pub extern "C" fn terminal_start(t: &mut Table) -> Answer
    ensures { (result ≡ started.answer) × (t.new ≡ started.table) }
{
    locktable::tasks::terminal_start(t)
}

// A spare task is added, without a priority or with one: two calls, since C has no Option.
#[unsafe(no_mangle)]
pub extern "C" fn terminal_spare(t: &mut Table, id: u8) -> Answer
    ensures { (result ≡ (spare_answer t.old id None).answer) × (t.new ≡ (spare_answer t.old id None).table) }
{
    locktable::tasks::terminal_spare(t, id)
}

#[unsafe(no_mangle)]
pub extern "C" fn terminal_spare_at(t: &mut Table, id: u8, priority: u8) -> Answer
    ensures { (result ≡ (spare_answer t.old id (Some priority)).answer) × (t.new ≡ (spare_answer t.old id (Some priority)).table) }
{
    locktable::tasks::terminal_spare_at(t, id, priority)
}
