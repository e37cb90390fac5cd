// The by-value step. See specs/ for what it answers.
#![tactic(auto)]

mod judge;
pub mod step;

ghost use Rattle.std.specs.Prelude.{◌≡◌};
ghost use Rattle.refusals.specs.Numbers.{reason_number};

use refusals::Reason;
pub use refusals::Record;
use table::Table;

// The answer to an event: the number, the running thread of the table afterwards, and the count of re-evaluations. It is C's struct, and C has
// no Result: so the number is 0 or a reason's.
#[repr(C)]
#[derive(Clone, Copy)]
pub struct Answer {
    pub number: u8,
    pub running: u8,
    pub count: u8,
}

impl Answer {
    // To a record that is refused: nothing was worked out afresh.
    pub fn refused(reason: Reason, running: u8) -> Answer
        ensures { result ≡ record { number = reason_number reason; running = running; count = 0 } }
    {
        Answer {
            number: u8::from(reason),
            running,
            count: 0,
        }
    }

    pub fn accepted(running: u8, count: u8) -> Answer
        ensures { result ≡ record { number = 0; running = running; count = count } }
    {
        Answer {
            number: 0,
            running,
            count,
        }
    }
}

// The table afterwards, and the answer, in this order (docs/DECISIONS.md, "What a call costs").
#[derive(Clone, Copy)]
pub struct Done {
    pub table: Table,
    pub answer: Answer,
}
