// The step: any table and any record, by value.
ghost use Rattle.std.specs.Prelude.{◌≡◌, MatchResult};
ghost use Rattle.table.specs.Code.Shape.{Shape};
ghost use Rattle.locks.specs.Answers.{answer_of};

use crate::judge::judge;
use crate::{Answer, Done};
use apply::finish::{Outcome, carry_out};
use refusals::{Kind, Reason, Record};
use release::heir::follower;
use soundness::check::{passes, untested};
use table::Table;

// An accepted record is carried out on the table; for a refused one there is the answer, and the table stays. That the arrays have their
// sizes a table by value tells the proof, and one that is lent doesn't.
fn accept(t: &mut Table, e: Record) -> Result<Outcome, Answer>
    ensures { Shape t.old → MatchResult result
        (λ o. record { table = t.new; answer = record { number = 0; running = o.running; count = o.count } } ≡ answer_of t.old e)
        (λ answer. record { table = t.new; answer = answer } ≡ answer_of t.old e) }
{
    let mut w = untested(t);
    if !passes(t, &mut w) {
        return Err(Answer::refused(Reason::UnsoundTable, Table::NOBODY));
    }
    let kind = judge(t, &w, e)?;
    let next = match kind {
        Kind::V => follower(&t.rows, &w.current, e.argument),
        _ => None,
    };
    Ok(carry_out(t, &mut w, kind, e, next))
}

// The table given is changed where it stands, and the result is made once, at the end: each further place that makes one would copy the
// table once more.
pub fn step(mut t: Table, e: Record) -> Done
    ensures { result ≡ answer_of t e }
{
    let answer = match accept(&mut t, e) {
        Ok(o) => Answer::accepted(o.running, o.count),
        Err(answer) => answer,
    };
    Done { table: t, answer }
}
