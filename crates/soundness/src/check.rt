// The test as a whole.
ghost use Rattle.std.specs.Prelude.{◌≡◌, true, false, ◌↔◌, MatchOption, replicate};
ghost use Rattle.table.specs.Sound.{Sound};
ghost use Rattle.table.specs.Code.Places.{NumbersOf};
ghost use Rattle.table.specs.Code.Tracks.{Known};

use chains::law::law_values;
use chains::ways::no_circle;
use queues::survey::Survey;
use slots::right::slots_right;
use slots::times::times_differ;
use slots::totals::totals_right;
use table::Table;
use table::queues::longest;
use table::workings::{Graph, Workings};

// The length of the shortest queue in which somebody waits.
const WAITED: u8 = 2;

// What is worked out of a table before it is tested: its numbers, and nothing yet of what its queues say.
#[inline(always)]
pub fn untested(t: &Table) -> Workings
    ensures graph { result.graph ≡ record { waits = replicate 32 16; holders = replicate 16 32 } }
    ensures own { NumbersOf t.now.live t.now.priority t.now.time result.own }
    ensures current { NumbersOf t.now.live t.now.current_priority t.now.current_time result.current }
{
    Workings {
        graph: Graph::empty(),
        own: t.own_numbers(),
        current: t.current_numbers(),
    }
}

// Whether a table is sound. The workings that are lent have its numbers, and get what its queues say: filled where the caller keeps them, they
// are not copied on the way back (docs/DECISIONS.md, "What a call costs").
#[inline(never)]
pub fn passes(t: &Table, w: &mut Workings) -> bool
    ensures passed { NumbersOf t.now.live t.now.priority t.now.time w.old.own → NumbersOf t.now.live t.now.current_priority t.now.current_time w.old.current →
        result ≡ true → Known t.now w.new.graph.waits w.new.graph.holders w.new.own w.new.current }
    ensures failed { NumbersOf t.now.live t.now.priority t.now.time w.old.own → NumbersOf t.now.live t.now.current_priority t.now.current_time w.old.current →
        result ≡ false → ¬ Sound t.now }
{
    // The slots first: their test is short, and needs no place on the stack beside that of the queues.
    if !slots_right(t) {
        return false;
    }
    let Some(found) = Survey::of(&t.rows, &t.live) else {
        return false;
    };
    w.graph = found.graph;
    if !totals_right(t, &found.standing) {
        return false;
    }
    if !times_differ(t) {
        return false;
    }
    // Where no queue has a second entry nobody waits, so that the ways need not be walked.
    let ends = longest(&t.rows.length) < WAITED || no_circle(&w.graph);
    if !ends {
        return false;
    }
    law_values(&t.rows, w) == w.current
}

// What is worked out of a sound table; of any other nothing. It stands where it is called, since handed back it would be copied twice.
#[inline(always)]
pub fn check(t: &Table) -> Option<Workings>
    ensures { MatchOption result (¬ Sound t.now) (λ w. Known t.now w.graph.waits w.graph.holders w.own w.current) }
{
    let mut w = untested(t);
    if passes(t, &mut w) { Some(w) } else { None }
}

// Whether a table is sound.
pub fn sound(t: Table) -> bool
    ensures { (result ≡ true) ↔ Sound t }
{
    check(&t).is_some()
}
