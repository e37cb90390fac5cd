// Reads records from standard input, from the empty table on, and prints the listing of their answers.
#![tactic(auto)]

use drill::printing::print_listing;
use streams::input::Input;
use streams::programs::end;

fn main(rt: HostRuntime) {
    let mut input = Input {
        from: rt.stdin(),
        name: b"standard input",
    };
    end(&rt, print_listing(&rt, &mut input));
}
