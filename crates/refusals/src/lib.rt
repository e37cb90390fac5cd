// Event records, and why one is refused. See specs/ for the numbers and their order.
#![tactic(auto)]

pub mod kinds;
pub mod reasons;
pub mod refusal;

ghost use Rattle.std.specs.Prelude.{◌≡◌};
ghost use Rattle.refusals.specs.Numbers.{kind_number};

pub use kinds::Kind;
pub use reasons::Reason;

// An event record: four bytes.
#[repr(C)]
#[derive(Clone, Copy)]
pub struct Record {
    pub kind: u8,
    pub thread: u8,
    pub argument: u8,
    pub zero: u8,
}

impl Record {
    pub fn new(kind: Kind, thread: u8, argument: u8) -> Record
        ensures { result ≡ record { kind = kind_number kind; thread = thread; argument = argument; zero = 0 } }
    {
        Record {
            kind: u8::from(kind),
            thread,
            argument,
            zero: 0,
        }
    }
}
