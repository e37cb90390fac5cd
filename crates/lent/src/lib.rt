// The step on a table that is lent, and through it on one by value. Whoever needs the step besides the kernel's call takes it from here: the
// compiled step then has one caller, in which it is inlined, and the table is copied no more often than that needs
// (docs/DECISIONS.md, "What a call costs").
#![tactic(auto)]

ghost use Rattle.std.specs.Prelude.{◌≡◌};
ghost use Rattle.locks.specs.Answers.{answer_of};

use locks::step::step;
use locks::{Answer, Done, Record};
use table::Table;

// The lent table is the step's afterwards.
pub fn step_lent(t: &mut Table, e: Record) -> Answer
    ensures { (result ≡ (answer_of t.old e).answer) × (t.new ≡ (answer_of t.old e).table) }
{
    let done = step(*t, e);
    *t = done.table;
    done.answer
}

// A table by value, lent on.
pub fn step_of(mut t: Table, e: Record) -> Done
    ensures { result ≡ answer_of t e }
{
    let answer = step_lent(&mut t, e);
    Done { table: t, answer }
}
