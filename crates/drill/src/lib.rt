// Records in, lines out, over slices. See specs/ for what the lines are.
#![tactic(auto)]

pub mod printing;

ghost use Rattle.std.specs.Prelude.{◌≡◌, ◌+◌, ◌++◌, ◌≤◌, length, take};
ghost use Rattle.drill.specs.Drill.{next};
ghost use Rattle.drill.specs.Bytes.{start, held, completed, answered, line_of, fed, said, ending};
ghost use Rattle.drill.specs.Parts.{Drills};

use listing::{Text, line, tail_line};
use locks::Record;
use locks::step::step;
use table::Table;

// The bytes of the next record that are there already: how far they go, and what they are.
#[derive(Clone, Copy)]
pub enum Pending {
    Nothing,
    Kind(u8),
    Thread(u8, u8),
    Argument(u8, u8, u8),
}

// What is carried from part to part of the input: the table, the number of the last record, and what is there of the next one.
#[derive(Clone, Copy)]
pub struct Bench {
    pub table: Table,
    pub number: u64,
    pub pending: Pending,
}

// How many bytes of a part of the input went in, and how many bytes their lines have.
#[derive(Clone, Copy)]
pub struct Part {
    pub used: usize,
    pub len: usize,
}

impl Pending {
    // One byte more: it is held, or it completes a record.
    #[tactic(auto, unfolding(crate::specs::Bytes::held, crate::specs::Bytes::completed))]
    pub fn push(&mut self, b: u8) -> Option<Record>
        ensures { (self.new ≡ held self.old b) × (result ≡ completed self.old b) }
    {
        match *self {
            Pending::Nothing => *self = Pending::Kind(b),
            Pending::Kind(kind) => *self = Pending::Thread(kind, b),
            Pending::Thread(kind, thread) => *self = Pending::Argument(kind, thread, b),
            Pending::Argument(kind, thread, argument) => {
                *self = Pending::Nothing;
                return Some(Record {
                    kind,
                    thread,
                    argument,
                    zero: b,
                });
            }
        }
        None
    }
}

impl Bench {
    // Nothing read yet.
    pub fn start() -> Bench
        ensures { result ≡ start }
    {
        Bench {
            table: Table::empty(),
            number: 0,
            pending: Pending::Nothing,
        }
    }

    // A record: it is carried out, and its answer is a line. Record numbers stop at the greatest u64.
    #[tactic(auto, using(crate::proofs::Next::saturated), unfolding(crate::specs::Drill::answer_line))]
    pub fn answer(&mut self, e: Record) -> Text
        ensures { (self.new ≡ answered self.old e) × (result ≡ line_of self.old e) }
    {
        let done = step(self.table, e);
        self.table = done.table;
        self.number = self.number.saturating_add(1);
        let said = done.answer;
        line(self.number, said.number, said.running, said.count)
    }

    // One byte more, and the line of the record that it completes.
    #[tactic(auto, unfolding(crate::specs::Bytes::fed, crate::specs::Bytes::said))]
    pub fn feed(&mut self, b: u8) -> Option<Text>
        ensures { (self.new ≡ fed self.old b) × (result ≡ said self.old b) }
    {
        let record = self.pending.push(b)?;
        Some(self.answer(record))
    }

    // The line that ends the listing, where bytes are left over.
    #[tactic(auto, unfolding(crate::specs::Bytes::ending))]
    pub fn ending(&self) -> Option<Text>
        ensures { result ≡ ending self.now }
    {
        match self.pending {
            Pending::Nothing => None,
            Pending::Kind(..) => Some(tail_line(1)),
            Pending::Thread(..) => Some(tail_line(2)),
            Pending::Argument(..) => Some(tail_line(3)),
        }
    }

    // A part of the input: byte after byte, as long as there is room for a line.
    pub fn drill(&mut self, input: &[u8], out: &mut [u8]) -> Part
        ensures { Drills self.old input.now out.new self.new result }
    {
        let mut len = 0;
        for (used, b) in input.iter().enumerate() {
            if out.len() - len < Text::ROOM {
                return Part { used, len };
            }
            if let Some(line) = self.feed(*b) {
                let bytes = line.as_bytes();
                put(bytes, out, len);
                len += bytes.len();
            }
        }
        Part {
            used: input.len(),
            len,
        }
    }
}

// Copies a line to `at` in a room that has place for it.
fn put(line: &[u8], out: &mut [u8], at: usize)
    requires { at + length line.now ≤ length out.old }
    ensures { take (at + length line.now) out.new ≡ take at out.old ++ line.now }
{
    out[at..at + line.len()].copy_from_slice(line);
}
