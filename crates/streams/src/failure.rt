// Why a program ends before its time.
ghost use Rattle.std.specs.Prelude.{◌≡◌, codes};

use arrayvec::ArrayString;
use std::fmt;
use std::fmt::Write as _;
use std::io::Error;

// What could not be read or written, after how many records, and why. It is shown as the whole line on standard error, with its newline.
#[derive(Clone, Copy)]
pub struct Failure<'a> {
    pub what: &'a [u8],
    pub records: u64,
    pub error: Error,
}

impl Failure<'_> {
    // Standard output could not be written.
    pub fn of_output(records: u64, error: Error) -> Failure<'static>
        ensures { (result.what.now ≡ codes "standard output") × (result.records ≡ records) × (result.error ≡ error) }
    {
        Failure {
            what: b"standard output",
            records,
            error,
        }
    }
}

// The system's words for an error, without their number.
fn words(text: &str) -> &str {
    match text.split_once(" (os error ") {
        Some((words, _)) => words,
        None => text,
    }
}

// A name, in which what is no text is shown as such.
fn show_name<W: fmt::Write>(name: &[u8], f: &mut fmt::Formatter<W>) -> fmt::Result {
    for chunk in name.utf8_chunks() {
        f.write_str(chunk.valid())?;
        if !chunk.invalid().is_empty() {
            f.write_char(char::REPLACEMENT_CHARACTER)?;
        }
    }
    Ok(())
}

impl fmt::Display for Failure<'_> {
    fn fmt<W: fmt::Write>(&self, f: &mut fmt::Formatter<W>) -> fmt::Result {
        let records = self.records;
        let noun = if records == 1 { "record" } else { "records" };
        let error = self.error;
        let mut text = ArrayString::<256>::new();
        let _ = write!(text, "{error}");
        let why = words(text.as_str());
        show_name(self.what, f)?;
        write!(f, ", after {records} {noun}: {why}\n")
    }
}
