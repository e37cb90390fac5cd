// Keeps each of the inputs in data/ by name, one log after the other, up to the first that can't be kept whole.
#![tactic(auto)]

use keeping::writing::{Unsaid, keep_and_say};
use std::fs::Files;
use streams::programs::{end, open};

const NAMES: [&str; 12] = [
    "k1_accepted_124.in",
    "k1_accepted_125.in",
    "k1_accepted_126.in",
    "k1_accepted_250.in",
    "k1_accepted_251.in",
    "k1_deep.in",
    "k1_empty.in",
    "k1_four_threads.in",
    "k1_listing.in",
    "k1_none_accepted.in",
    "k1_refusals_between.in",
    "k1_tail.in",
];

fn keep_all<R: Files + Print + Eprint>(rt: &R) -> Result<u64, Unsaid<'static>> {
    for name in NAMES {
        keep_and_say(rt, &mut open(rt, name)?)?;
    }
    Ok(0)
}

fn main(rt: HostRuntime) {
    end(&rt, keep_all(&rt));
}
