// The kinds of event, and the numbers that a record has for them.
ghost use Rattle.std.specs.Prelude.{◌≡◌};
ghost use Rattle.refusals.specs.Numbers.{kind_number, NamesKind};

use crate::reasons::Reason;

#[derive(Clone, Copy, Debug, PartialEq, Eq)]
pub enum Kind {
    Create = 1,
    Exit = 2,
    Set = 3,
    P = 4,
    V = 5,
}

impl TryFrom<u8> for Kind {
    type Error = Reason;

    ghost try_from_gives = { NamesKind };

    fn try_from(number: u8) -> Result<Self, Reason> {
        match number {
            1 => Ok(Kind::Create),
            2 => Ok(Kind::Exit),
            3 => Ok(Kind::Set),
            4 => Ok(Kind::P),
            5 => Ok(Kind::V),
            _ => Err(Reason::NoSuchKind),
        }
    }
}

impl From<Kind> for u8 {
    ghost from_gives = { λ kind number. number ≡ kind_number kind };

    fn from(kind: Kind) -> u8 {
        kind as u8
    }
}
