// Reads records from standard input, from the empty table on, and writes the log of those that are accepted.
#![tactic(auto)]

use keeping::writing::keep_and_say;
use streams::input::Input;
use streams::programs::end;

fn main(rt: HostRuntime) {
    let mut input = Input {
        from: rt.stdin(),
        name: b"standard input",
    };
    end(&rt, keep_and_say(&rt, &mut input));
}
