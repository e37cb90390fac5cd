// Reads a log from standard input and prints the lines of the records that reading it applies.
#![tactic(auto)]

use reading::printing::print_log;
use streams::input::Input;
use streams::programs::end;

fn main(rt: HostRuntime) {
    let mut input = Input {
        from: rt.stdin(),
        name: b"standard input",
    };
    end(&rt, print_log(&rt, &mut input));
}
