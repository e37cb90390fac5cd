// Brings the clock to 65,534 by records of its own and tries the edge there. The lines it prints go on from there: record 65,535 is
// the last that is accepted.
#![tactic(auto)]

use drill::Bench;
use drill::printing::print;
use listing::header;
use refusals::{Kind, Record};
use streams::failure::Failure;
use streams::programs::end;

// The accepted events that come before the edge, after the first Create.
const SETS: u32 = 65533;

// The last event that is accepted, and then each kind at 65,535: it gives 5, unless 2, 3 or 4 catches it.
fn edge() -> [Record; 9] {
    let no_kind = Record {
        kind: 6,
        thread: 0,
        argument: 0,
        zero: 0,
    };
    [
        Record::new(Kind::Create, 1, 9),
        Record::new(Kind::Create, 2, 9),
        Record::new(Kind::Exit, 0, 0),
        Record::new(Kind::Set, 0, 9),
        Record::new(Kind::P, 0, 0),
        Record::new(Kind::V, 0, 0),
        no_kind,
        Record::new(Kind::Create, 32, 9),
        Record::new(Kind::P, 0, 16),
    ]
}

// Thread 0 is created and sets its priority over and over, and the lines at the edge are printed.
fn try_edge<P: Print>(rt: &P) -> Result<u64, Failure<'static>> {
    let mut bench = Bench::start();
    bench.answer(Record::new(Kind::Create, 0, 1));
    for _ in 0..SETS {
        bench.answer(Record::new(Kind::Set, 0, 1));
    }
    print(rt, &header(), 0)?;
    for e in edge() {
        let before = bench.number;
        let line = bench.answer(e);
        print(rt, &line, before)?;
    }
    Ok(bench.number)
}

fn main(rt: HostRuntime) {
    end(&rt, try_edge(&rt));
}
