// What a program reads, with the name that a failure to read it is said of.
ghost use Rattle.std.specs.Prelude.{◌*◌, ◌≡◌, IfOk, IfErr};
ghost use Rattle.std.specs.Io.KnownBytes.{ReadConsumes};
ghost use Rattle.io.specs.Counts.{IsPrefixLen};

use crate::failure::Failure;
use std::io::Read;

// A reader and its name.
#[derive(Drop)]
pub struct Input<'a, R> {
    pub from: R,
    pub name: &'a [u8],
}

impl<'a, R: Read> Input<'a, R> {
    // Reads what there is, as `streams::read` does, after so many records. A failure says the name and their number.
    pub fn read(&mut self, room: &mut [u8], records: u64) -> Result<usize, Failure<'a>>
        ensures counted { IfOk result (λ bytes. IsPrefixLen bytes room.new) }
        ensures given { ReadConsumes (R.remaining self.old.from) (R.remaining self.new.from) result room.new }
        ensures named { IfErr result (λ failure. (failure.what ≡ self.old.name) × (failure.records ≡ records)) }
        ensures kept { self.new.name ≡ self.old.name }
    {
        let what = self.name;
        crate::read(&mut self.from, room).map_err(|error| Failure {
            what,
            records,
            error,
        })
    }
}
