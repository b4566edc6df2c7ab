//! What a command's first byte tells.

ghost use Rattle.std.specs.Prelude.{◌≡◌, ◌<◌, ◌≤◌};
ghost use Rattle.command.specs.Verbs.{letter, width, Begins};

use refusal::Refusal;

/// What a command is, without its operands. Each verb's number is the byte that begins its commands.
// Numbers by `as`: a `repr` beside them is refused.
#[derive(Clone, Copy, PartialEq, Eq, Debug)]
pub enum Verb {
    Settings = b'S' as isize,
    Radius = b'R' as isize,
    Open = b'O' as isize,
    Hull = b'H' as isize,
    Joinery = b'J' as isize,
    Day = b'D' as isize,
    Pick = b'P' as isize,
}

/// The verb whose byte this is. A byte that is no verb's is refused as unknown.
impl TryFrom<u8> for Verb {
    type Error = Refusal;

    ghost try_from_gives = { Begins };

    fn try_from(byte: u8) -> Result<Verb, Refusal> {
        match byte {
            b'S' => Ok(Verb::Settings),
            b'R' => Ok(Verb::Radius),
            b'O' => Ok(Verb::Open),
            b'H' => Ok(Verb::Hull),
            b'J' => Ok(Verb::Joinery),
            b'D' => Ok(Verb::Day),
            b'P' => Ok(Verb::Pick),
            _ => Err(Refusal::UnknownByte),
        }
    }
}

/// The verb's byte.
impl From<Verb> for u8 {
    ghost from_gives = { λ verb byte. byte ≡ letter verb };

    fn from(verb: Verb) -> u8 {
        verb as u8
    }
}

impl Verb {
    /// How many bytes a command with this verb has, the first among them.
    pub fn width(self) -> usize
        ensures is { result ≡ width self }
        ensures bound { (0 < result) × (result ≤ 37) }
    {
        match self {
            Verb::Settings => 10,
            Verb::Radius | Verb::Day => 5,
            Verb::Open | Verb::Pick => 1,
            Verb::Hull => 37,
            Verb::Joinery => 13,
        }
    }
}
