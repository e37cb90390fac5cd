// What no clause says of a program over files: which it works through, in which order, and that what failed is shown.
use crate::failure::Failure;
use crate::programs::run_on_files;
use std::cell::Cell;
use std::fmt;
use std::test::Fail;

// A file that could not be opened, or work that failed, which notes that it is shown.
#[derive(Drop)]
enum Fault<'a> {
    Unopened(Failure<'a>),
    Work(&'a Cell<u64>),
}

impl<'a> From<Failure<'a>> for Fault<'a> {
    fn from(failure: Failure<'a>) -> Fault<'a> {
        Fault::Unopened(failure)
    }
}

impl fmt::Display for Fault<'_> {
    fn fmt<W: fmt::Write>(&self, f: &mut fmt::Formatter<W>) -> fmt::Result {
        match self {
            Fault::Unopened(failure) => write!(f, "{failure}"),
            Fault::Work(shown) => {
                shown.set(shown.get().wrapping_add(1));
                Ok(())
            }
        }
    }
}

// The folder in which the test runs goes by three names, and can be opened by each. The work notes their lengths, and fails at the longest.
#[test]
fn goes_up_to_the_first_that_fails(rt: HostRuntime) -> Result<(), Fail> {
    for (names, want, failed) in [
        ([".", "./", "."], 121u64, 0u64),
        (["./", "nowhere", "."], 2, 0),
        (["nowhere", ".", "./"], 0, 0),
        ([".", "./.", "./"], 13, 1),
    ] {
        let shown = Cell::new(0);
        let mut noted = 0u64;
        run_on_files(&rt, &names, |_, name| {
            noted = noted.wrapping_mul(10).wrapping_add(name.len() as u64);
            if name.len() < 3 {
                Ok(noted)
            } else {
                Err(Fault::Work(&shown))
            }
        });
        assert_eq!(rt; noted, want, "of {names:?}");
        assert_eq!(rt; shown.get(), failed, "of {names:?}");
    }
    Ok(())
}
