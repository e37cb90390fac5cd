// Drills each of the inputs in data/ by name, one listing after the other, up to the first that can't be listed whole.
#![tactic(auto)]

use drill::printing::print_listing;
use std::fs::Files;
use streams::failure::Failure;
use streams::programs::{end, open};

const NAMES: [&str; 15] = [
    "bytes_1025.in",
    "bytes_1026.in",
    "chain_of_16.in",
    "deep.in",
    "deep_few.in",
    "empty.in",
    "four_threads.in",
    "junk.in",
    "large.in",
    "listing.in",
    "small.in",
    "tail_1.in",
    "tail_2.in",
    "tail_3.in",
    "ties.in",
];

fn list_all<R: Files + Print>(rt: &R) -> Result<u64, Failure<'static>> {
    for name in NAMES {
        print_listing(rt, &mut open(rt, name)?)?;
    }
    Ok(0)
}

fn main(rt: HostRuntime) {
    end(&rt, list_all(&rt));
}
