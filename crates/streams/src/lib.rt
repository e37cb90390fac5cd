// Reading and writing for every program here, over the standard library's readers and writers. What could not be read or written is never passed
// over: `Failure` tells, and a program says it on standard error at its end.
#![tactic(auto)]

pub mod failure;
pub mod input;
pub mod programs;
#[cfg(test)]
mod tests;

ghost use Rattle.std.specs.Prelude.{◌≡◌, ◌↔◌, true, IsSome, IfOk, IfErr, OnOk, take};
ghost use Rattle.std.specs.IoError.{raw_os_error, error_kind};
ghost use Rattle.std.specs.Io.KnownBytes.{ReadConsumes, Appends};
ghost use Rattle.io.specs.Counts.{IsPrefixLen};
ghost use Rattle.streams.specs.Errors.{passing};

use std::io;
use std::io::{Error, ErrorKind, Read, Write};
use std::thread::yield_now;

// How much was written before writing failed, and why it did.
#[derive(Clone, Copy)]
pub struct Torn {
    pub written: usize,
    pub error: Error,
}

// Whether a call that failed so is to be made again: the system says that it was interrupted, or that the stream is not ready. An error that is not
// the system's is final, whatever its kind: nothing says that whoever made it would make none the next time.
fn passes(error: Error) -> bool
    ensures { (result ≡ true) ↔ (IsSome (raw_os_error error) × (passing (error_kind error) ≡ true)) }
{
    error.raw_os_error().is_some()
        && matches!(error.kind(), ErrorKind::Interrupted | ErrorKind::WouldBlock)
}

// That no number of tries was enough. A proved loop has to end, and nothing says that a stream will be ready: the tries below are a number that no run
// uses up.
fn too_many_tries() -> Error {
    Error::new(ErrorKind::TimedOut, "too many tries")
}

// Reads what there is, as soon as there is something: so many bytes at the start of the room, and none only at the end of the input.
pub fn read<R: Read>(input: &mut R, room: &mut [u8]) -> io::Result<usize>
    ensures counted { IfOk result (λ bytes. IsPrefixLen bytes room.new) }
    ensures given { ReadConsumes (R.remaining input.old) (R.remaining input.new) result room.new }
{
    for _ in 0..u64::MAX {
        match input.read(room) {
            Err(error) if passes(error) => yield_now(),
            done => return done,
        }
    }
    Err(too_many_tries())
}

// Writes all of the bytes in their order, or as many as it can.
pub fn write_all<W: Write>(output: &mut W, bytes: &[u8]) -> Result<(), Torn>
    ensures all { OnOk result (Appends (W.contents output.old) (W.contents output.new) bytes.now) }
    ensures counted { IfErr result (λ torn. IsPrefixLen torn.written bytes.now) }
    ensures torn { IfErr result (λ torn. Appends (W.contents output.old) (W.contents output.new) (take torn.written bytes.now)) }
{
    let mut written = 0;
    for _ in 0..u64::MAX {
        let rest = &bytes[written..];
        if rest.is_empty() {
            return Ok(());
        }
        match output.write(rest) {
            Ok(0) => yield_now(),
            Ok(more) => written += more,
            Err(error) if passes(error) => yield_now(),
            Err(error) => return Err(Torn { written, error }),
        }
    }
    Err(Torn {
        written,
        error: too_many_tries(),
    })
}
