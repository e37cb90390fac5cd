// Listings on standard output. Whatever can't be read or written ends them, and is the failure that they answer.
ghost use Rattle.std.specs.Prelude.{◌≡◌, IfOk, OnOk};
ghost use Rattle.drill.specs.Bytes.{after};
ghost use Rattle.drill.specs.Parts.{Prints, counted, last_whole};

use crate::Bench;
use listing::{Text, header};
use std::io::{Read, writer};
use streams::failure::Failure;
use streams::input::Input;
use streams::write_all;

// Prints a text after so many records.
pub fn print<P: Print>(rt: &P, text: &Text, records: u64) -> Result<(), Failure<'static>> {
    write_all(&mut writer(rt), text.as_bytes()).map_err(|torn| Failure::of_output(
        records, torn.error,
    ))
}

// A newline ends the line of the next record.
#[tactic(auto, using(crate::proofs::Next::saturated), unfolding(crate::specs::Parts::counted))]
fn counted(n: u64, b: u8) -> u64
    ensures { result ≡ counted n b }
{
    let ends_line = b == b'\n';
    if ends_line {
        return n.saturating_add(1);
    }
    n
}

// The number of the last record whose line is whole in the bytes, which follow the line of record n.
fn last_whole(n: u64, bytes: &[u8]) -> u64
    ensures { result ≡ last_whole n bytes.now }
{
    bytes.iter().fold(n, |number, b| counted(number, *b))
}

// Prints the lines of as much of a part of the input as the room holds, which is some of it, and answers how much that is.
fn print_start<P: Print>(rt: &P, bench: &mut Bench, input: &[u8]) -> Result<usize, Failure<'static>>
    ensures { IfOk result (λ used. Prints bench.old input.now used bench.new) }
{
    let before = bench.number;
    let mut out = io::large_buffer();
    let part = bench.drill(input, &mut out);
    match write_all(&mut writer(rt), &out[..part.len]) {
        Ok(()) => Ok(part.used),
        Err(torn) => {
            let written = &out[..torn.written];
            Err(Failure::of_output(last_whole(before, written), torn.error))
        }
    }
}

// Prints the lines of all of a part of the input: it goes on from where it stopped.
pub fn print_part<P: Print>(rt: &P, bench: &mut Bench, input: &[u8]) -> Result<(), Failure<'static>>
    ensures { OnOk result (bench.new ≡ after bench.old input.now) }
{
    // No `for`: a turn goes on by as much as there was room for, so that a count would say no more.
    let mut used = 0;
    while used < input.len() {
        used += print_start(rt, bench, &input[used..])?;
    }
    Ok(())
}

// Reads once and prints the lines of what came, and answers whether anything did.
fn print_some<'a, P: Print, R: Read>(
    rt: &P,
    input: &mut Input<'a, R>,
    bench: &mut Bench,
) -> Result<bool, Failure<'a>> {
    let mut room = io::large_buffer();
    let got = input.read(&mut room, bench.number)?;
    print_part(rt, bench, &room[..got])?;
    Ok(got > 0)
}

// Reads to the end and prints the listing, and answers how many records it has. A proved loop has to end, and nothing says that an input does: the turns
// are a number that no run uses up.
pub fn print_listing<'a, P: Print, R: Read>(
    rt: &P,
    input: &mut Input<'a, R>,
) -> Result<u64, Failure<'a>> {
    let mut bench = Bench::start();
    print(rt, &header(), 0)?;
    for _ in 0..u64::MAX {
        if !print_some(rt, input, &mut bench)? {
            break;
        }
    }
    if let Some(line) = bench.ending() {
        print(rt, &line, bench.number)?;
    }
    Ok(bench.number)
}
