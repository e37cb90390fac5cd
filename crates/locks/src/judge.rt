// Whether a record is refused, before anything is changed.
ghost use Rattle.std.specs.Prelude.{◌<◌, IfOk};
ghost use Rattle.table.specs.Code.Tracks.{Known};
ghost use Rattle.locks.specs.Code.Judged.{Judged};

use crate::Answer;
use refusals::refusal::refusal;
use refusals::{Kind, Record};
use table::Table;
use table::workings::Workings;

// On a sound table: the answer that refuses the record, or its kind, which is to be carried out.
pub fn judge(t: &Table, w: &Workings, e: Record) -> Result<Kind, Answer>
    ensures judged { Known t.now w.now.graph.waits w.now.graph.holders w.now.own w.now.current → Judged t.now e result }
    ensures thread { IfOk result (λ _. e.thread < 32) }
    ensures clock { IfOk result (λ _. t.now.clock < 65535) }
{
    let runs = w.running();
    refusal(t, &w.graph, runs, e).map_err(|reason| Answer::refused(reason, runs))
}
