// What every program does at its end, and how those over files go through them.
ghost use Rattle.std.specs.Prelude.{◌*◌, ◌≡◌, IfOk, IfErr};

use crate::failure::Failure;
use crate::input::Input;
use std::fmt::Display;
use std::fs::{File, Files, OpenFile};
use std::{fs, io};

// Has what was written to standard output kept, if it is a file.
fn keep_output<F: Files>(rt: &F) -> io::Result<()> {
    match fs::metadata(rt, "/dev/stdout") {
        Ok(kind) if kind.is_file() => {}
        _ => return Ok(()),
    }
    match File::options().write(true).open(rt, "/dev/stdout") {
        Ok(output) => output.sync_all(),
        Err(_) => Ok(()),
    }
}

// Ends standard output after so many records: some file systems say only then that they could not keep what was written. Then it is said on
// standard error.
pub fn close_output<R: Files + Eprint>(rt: &R, records: u64) {
    if let Err(error) = keep_output(rt) {
        let _ = rt.eprint(Failure::of_output(records, error));
    }
}

// Ends a program: where its work went well, after so many records, standard output is closed. What failed is said on standard error by its line. The programs have no
// exit status of their own: after that line one comes to its end, and ./run, which sees the line, ends with a status that is not 0.
pub fn end<R: Files + Eprint, E: Display + Drop>(rt: &R, work: Result<u64, E>) {
    match work {
        Ok(records) => close_output(rt, records),
        Err(failure) => {
            let _ = rt.eprint(failure);
        }
    }
}

// The input in the file of that name.
pub fn open<'a, F: Files>(rt: &F, name: &'a str) -> Result<Input<'a, F::File>, Failure<'a>>
    ensures named { IfOk result (λ input. input.name.now ≡ name.now) }
    ensures failed { IfErr result (λ failure. (failure.what.now ≡ name.now) × (failure.records ≡ 0)) }
{
    let what = name.as_bytes();
    match File::open(rt, name) {
        Ok(from) => Ok(Input { from, name: what }),
        Err(error) => Err(Failure {
            what,
            records: 0,
            error,
        }),
    }
}

// Does the work with each of the files by its name, one after the other, up to the first that fails.
fn work_through<
    'a,
    R: Files,
    E: From<Failure<'a>> + Drop,
    F: FnMut(R::File, &'a [u8]) -> Result<u64, E>,
>(rt: &R, names: &[&'a str], mut work: F) -> Result<u64, E>
    requires callable { F.IsAlwaysCallable work }
{
    for name in names {
        let input = open(rt, name)?;
        work(input.from, input.name)?;
    }
    Ok(0)
}

// A program that does its work with each of the files by name.
pub fn run_on_files<
    'a,
    R: Files + Eprint,
    E: From<Failure<'a>> + Display + Drop,
    F: FnMut(R::File, &'a [u8]) -> Result<u64, E>,
>(rt: &R, names: &[&'a str], work: F)
    requires { F.IsAlwaysCallable work }
{
    end(rt, work_through(rt, names, work));
}
