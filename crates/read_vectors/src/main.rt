// Lists each of the logs in data/ by name, one listing after the other, up to the first that can't be listed whole.
#![tactic(auto)]

use reading::printing::print_log;
use std::fs::Files;
use streams::failure::Failure;
use streams::programs::{end, open};

const NAMES: [&str; 25] = [
    "k6_card_with_unused_blocks.in",
    "k6_check.in",
    "k6_count.in",
    "k6_count_0.in",
    "k6_count_above.in",
    "k6_empty.in",
    "k6_four_threads.in",
    "k6_full_blocks.in",
    "k6_full_then_unused.in",
    "k6_junk_record.in",
    "k6_longer_than_128_blocks.in",
    "k6_missing.in",
    "k6_not_a_multiple.in",
    "k6_number.in",
    "k6_one_byte.in",
    "k6_refused_first.in",
    "k6_refused_inside.in",
    "k6_refused_last.in",
    "k6_refused_then_bad_block.in",
    "k6_short_inside.in",
    "k6_spare.in",
    "k6_swapped.in",
    "k6_unseen.in",
    "k6_unused.in",
    "k6_wide_count.in",
];

fn list_all<R: Files + Print>(rt: &R) -> Result<u64, Failure<'static>> {
    for name in NAMES {
        print_log(rt, &mut open(rt, name)?)?;
    }
    Ok(0)
}

fn main(rt: HostRuntime) {
    end(&rt, list_all(&rt));
}
