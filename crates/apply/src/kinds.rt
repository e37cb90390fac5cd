// An accepted event, by its kind: what each kind changes is asked for here alone.
ghost use Rattle.std.specs.Prelude.{◌≡◌};
ghost use Rattle.release.specs.Heir.{next_at};
ghost use Rattle.apply.specs.Accepted.{Accepted, Applied};

use crate::one_slot::{create, exit, set_anew};
use refusals::{Kind, Record};
use release::heir::Next;
use release::release;
use request::request;
use table::workings::Workings;
use table::{Slot, Table};

// The table becomes the one after the event, but for the current precedences that it stores, and what was worked out of it goes along.
// At a V `next` is whoever follows. The result is how many threads were worked out afresh.
pub fn apply(t: &mut Table, w: &mut Workings, kind: Kind, e: Record, next: Option<Next>) -> u8
    requires { Accepted t.old e kind w.old.graph.waits w.old.graph.holders w.old.own w.old.current next }
    ensures { Applied t.old e (next_at t.old.rows.queue e.argument next) t.new w.new.graph.holders w.new.graph.waits w.new.current result }
{
    let time = t.clock;
    t.clock += 1;
    let slot = t.slot(e.thread);
    let (slot, count) = match kind {
        Kind::Create => (
            Slot::fresh(e.argument, time),
            create(&mut w.current, e.thread, e.argument, time),
        ),
        Kind::Exit => (Slot::dead(), exit(&mut w.current, e.thread)),
        Kind::Set => (
            slot.anew(e.argument, time),
            set_anew(&t.rows, w, e.thread, e.argument, time),
        ),
        Kind::P => (
            slot.requested(),
            request(&mut t.rows, w, e.thread, e.argument),
        ),
        Kind::V => (
            slot.released(),
            release(&mut t.rows, w, e.thread, e.argument, next),
        ),
    };
    t.set_slot(e.thread, slot);
    count
}
