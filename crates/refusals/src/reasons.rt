// Why an event is refused, and the numbers that an answer has for it: where several apply, the lowest is given.
ghost use Rattle.std.specs.Prelude.{◌≡◌};
ghost use Rattle.refusals.specs.Numbers.{reason_number};

#[derive(Clone, Copy, Debug, PartialEq, Eq)]
pub enum Reason {
    UnsoundTable = 1,
    NoSuchKind = 2,
    NoSuchThread = 3,
    Malformed = 4,
    ClockAtEnd = 5,
    AlreadyLive = 6,
    NotLive = 7,
    NotRunning = 8,
    ClosesCircle = 9,
    DoesNotHold = 10,
    StillHolds = 11,
}

impl From<Reason> for u8 {
    ghost from_gives = { λ reason number. number ≡ reason_number reason };

    fn from(reason: Reason) -> u8 {
        reason as u8
    }
}
